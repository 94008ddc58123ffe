//! Generic types, which know whether a type variable stands in them twice.
ghost use Rattle.std.specs.Prelude.{◌≡◌, ◌++◌, ◌∷◌, [], IfOk, IfSome, OnOk, IsTrue, ◌↔◌, cond, true};
ghost use Rattle.hol_types.specs.Names.{type_names, is_among};
ghost use Rattle.hol_typing.specs.declared.scheme.Variables.TheVariants.{Distinct};
ghost use Rattle.hol_typing.specs.Linear.{IsLinear, IsLinearBut, AreDistinct, AreDistinctBut};

use hol_mark::Mark;
use hol_types::{Name, Ty, TyNode, is_among};
use std::alloc::{AllocError, Global};
use std::collections::BTreeSet;
use std::marker::Model;
use std::rc::Rc;

/// What is known of how often the type variables stand in a type.
#[derive(Clone, Copy, Debug, PartialEq, Eq)]
pub enum Variables {
    /// Nothing.
    Unknown,
    /// Each stands once.
    Distinct,
    /// One stands twice. The generic type keeps which ones do.
    Repeated,
}

/// A generic type. Its copies share its nodes, and its mark once its variables are counted.
#[derive(Drop)]
pub struct Scheme {
    ty: Ty,
    variables: Variables,
    repeated: Option<Rc<Vec<Name>>>,
    mark: Option<Rc<Mark>>,
}

impl Model for Scheme {
    ghost use Rattle.std.specs.Prelude.{◌≡◌, IfSome};
    ghost use Rattle.hol_types.specs.Tree.{TypeTree};
    ghost use Rattle.hol_types.specs.Code.{coded_type};
    ghost use Rattle.hol_typing.specs.declared.scheme.Variables.TheVariants.{Distinct};
    ghost use Rattle.hol_typing.specs.Linear.{IsLinear, IsLinearBut, AreDistinct};

    ghost Value = { TypeTree };

    ghost coded = { coded_type };

    ghost view = { λ a. a.ty };

    ghost invariant = { λ a. (a.variables ≡ Distinct → IsLinear a.ty) × IfSome a.repeated (λ names. IsLinearBut names.value.items a.ty × AreDistinct names.value.items) × IfSome a.mark (λ mark. mark.value ≡ coded_type.code a.ty) };
}

impl Scheme {
    /// The generic type, of whose variables that much is known.
    pub fn of(ty: &Ty, variables: Variables) -> Result<Scheme, AllocError>
        requires { variables ≡ Distinct → IsLinear ty.now }
        ensures { IfOk result (λ s. s ≡ ty.now) }
    {
        Ok(Scheme {
            ty: ty.copy()?,
            variables,
            repeated: None,
            mark: None,
        })
    }

    /// Finds out whether its variables are distinct, unless that is known, in time near linear in the type, and gives it a mark.
    pub fn count(&mut self, alloc: Global) -> Result<(), AllocError>
        ensures { OnOk result (self.new ≡ self.old) }
    {
        match self.variables {
            Variables::Unknown => {
                let names = repeated_in(alloc, &self.ty)?;
                self.mark = Some(Rc::new(alloc, Mark::about(&self.ty))?);
                if names.is_empty() {
                    self.variables = Variables::Distinct;
                } else {
                    self.variables = Variables::Repeated;
                    self.repeated = Some(Rc::new(alloc, names)?);
                }
                Ok(())
            }
            Variables::Distinct => Ok(()),
            Variables::Repeated => Ok(()),
        }
    }

    /// The type.
    pub(crate) fn ty(&self) -> &Ty
        ensures { result.now ≡ self.now }
    {
        &self.ty
    }

    /// What is known of its variables.
    pub(crate) fn variables(&self) -> Variables
        ensures { result ≡ Distinct → IsLinear self.now }
    {
        self.variables
    }

    /// The variables that stand in it twice, where they are known and there are some.
    pub(crate) fn repeated(&self) -> Option<&Rc<Vec<Name>>>
        ensures { IfSome result (λ names. IsLinearBut names.now.value.items self.now × AreDistinct names.now.value.items) }
    {
        self.repeated.as_ref()
    }

    /// The same generic type.
    pub fn copy(&self) -> Result<Scheme, AllocError>
        ensures { IfOk result (λ s. s ≡ self.now) }
    {
        let repeated = match &self.repeated {
            Some(names) => Some(names.clone()?),
            None => None,
        };
        let mark = match &self.mark {
            Some(mark) => Some(mark.clone()?),
            None => None,
        };
        Ok(Scheme {
            ty: self.ty.copy()?,
            variables: self.variables,
            repeated,
            mark,
        })
    }

    // Whether the two have one mark, as copies of one that was counted have. No clause says that copies are found to have one.
    fn has_mark_of(&self, other: &Scheme) -> bool
        ensures { result ≡ true → self.now ≡ other.now }
    {
        match (&self.mark, &other.mark) {
            (Some(mine), Some(its)) => mine.same(its),
            (Some(_), None) => false,
            (None, Some(_)) => false,
            (None, None) => false,
        }
    }

    /// Whether the two are equal types: at once for copies of one that was counted, and else by a comparison.
    pub(crate) fn same(&self, other: &Scheme) -> bool
        ensures { IsTrue result ↔ (self.now ≡ other.now) }
    {
        if self.has_mark_of(other) {
            return true;
        }
        self.ty.same(&other.ty)
    }
}

// Puts the names of the type variables at the end, as they occur.
#[tactic(auto, using(crate::proofs::Linear::names_step))]
fn add_occurrences(ty: &Ty, names: &mut Vec<Name>) -> Result<(), AllocError>
    ensures { OnOk result (names.new.items ≡ names.old.items ++ type_names ty.now) }
{
    match ty.node() {
        TyNode::Var(name) => {
            names.push(name.copy()?)?;
            Ok(())
        }
        TyNode::App(_, args) => {
            for arg in args {
                add_occurrences(arg, names)?;
            }
            Ok(())
        }
    }
}

// Puts the name at the end, unless it is there.
fn add_once(names: &mut Vec<Name>, name: &Name) -> Result<(), AllocError>
    ensures { OnOk result (names.new.items ≡ cond (is_among names.old.items name.now) names.old.items (names.old.items ++ name.now ∷ [])) }
{
    if is_among(names, name) {
        return Ok(());
    }
    names.push(name.copy()?)?;
    Ok(())
}

// Puts the name at the end, unless it is new or there.
fn add_seen(twice: &mut Vec<Name>, name: &Name, is_new: bool) -> Result<(), AllocError>
    ensures { OnOk result (twice.new.items ≡ cond is_new twice.old.items (cond (is_among twice.old.items name.now) twice.old.items (twice.old.items ++ name.now ∷ []))) }
{
    if is_new {
        return Ok(());
    }
    add_once(twice, name)
}

// The names that stand twice among the names, each once.
fn repeated(alloc: Global, names: &[Name]) -> Result<Vec<Name>, AllocError>
    ensures distinct { IfOk result (λ twice. AreDistinct twice.items) }
    ensures others { IfOk result (λ twice. AreDistinctBut twice.items names.now) }
{
    let mut seen = BTreeSet::new(alloc);
    let mut twice = Vec::new(alloc);
    for name in names {
        let is_new = seen.insert(name.as_str())?;
        add_seen(&mut twice, name, is_new)?;
    }
    Ok(twice)
}

// The type variables that stand in the type twice, each once.
fn repeated_in(alloc: Global, ty: &Ty) -> Result<Vec<Name>, AllocError>
    ensures distinct { IfOk result (λ twice. AreDistinct twice.items) }
    ensures others { IfOk result (λ twice. IsLinearBut twice.items ty.now) }
{
    let mut names = Vec::new(alloc);
    add_occurrences(ty, &mut names)?;
    repeated(alloc, &names)
}
