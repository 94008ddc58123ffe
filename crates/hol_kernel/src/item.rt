//! Items: what is declared, defined or assumed beyond the prelude.
ghost use Rattle.std.specs.Prelude.{◌≡◌, [], ◌∷◌, ◌++◌, IfOk, OnOk};
ghost use Rattle.std.specs.List.{list_any};
ghost use Rattle.hol_types.specs.Fun.{fun_type};
ghost use Rattle.hol_terms.specs.Nameless.{nameless};
ghost use Rattle.hol_kernel.specs.Item.{declared_constant, defined_constant, declared_axiom};
ghost use Rattle.hol_kernel.specs.Signature.{item_types, item_constants, makes_type, makes_constant, new_type};
ghost use Rattle.hol_formulas.specs.Constants.{is_constant_at};
ghost use Rattle.hol_kernel.specs.ItemView.{item_of, HasParameters};

use crate::item_kind::ItemKind;
use hol_formulas::is_instance;
use hol_terms::Term;
use hol_types::{Name, Ty};
use std::alloc::{AllocError, Global};
use std::marker::Model;
use std::rc::Rc;

/// An item. Its copies share it.
#[derive(Drop)]
pub struct Item {
    node: Rc<ItemNode>,
}

/// What an item says.
#[derive(Drop)]
pub enum ItemNode {
    /// A type constructor and its arity.
    DeclaredType(Name, u32),
    /// A constant and its generic type.
    DeclaredConstant(Name, Ty),
    /// A constant and the term that it equals.
    DefinedConstant(Name, Term),
    /// A type constructor, the constants `abs` to it and `rep` from it, the predicate of its members, and this predicate's type
    /// variables, by bytes.
    DefinedType {
        name: Name,
        abs: Name,
        rep: Name,
        predicate: Term,
        parameters: Vec<Name>,
    },
    /// An axiom's name and statement.
    Axiom(Name, Term),
}

impl Model for Item {
    ghost use Rattle.hol_kernel.specs.Item.{Item, item_code};

    ghost Value = { Item };

    ghost coded = { item_code };

    ghost use Rattle.hol_kernel.specs.ItemView.{item_of, HasParameters};

    ghost view = { λ x. item_of x.node.value };

    ghost invariant = { λ x. HasParameters x.node.value };
}

impl Item {
    /// The item of a node.
    pub(crate) fn made(alloc: Global, node: ItemNode) -> Result<Item, AllocError>
        requires { HasParameters node }
        ensures { IfOk result (λ item. item ≡ item_of node) }
    {
        Ok(Item {
            node: Rc::new(alloc, node)?,
        })
    }

    /// The item of a constant that is declared with this generic type.
    pub(crate) fn constant(alloc: Global, name: &Name, ty: &Ty) -> Result<Item, AllocError>
        ensures { IfOk result (λ item. item ≡ declared_constant name.now ty.now) }
    {
        let node = ItemNode::DeclaredConstant(name.copy()?, ty.copy()?);
        Item::made(alloc, node)
    }

    /// The item of a constant that is defined as the term.
    pub(crate) fn defined(alloc: Global, name: &Name, right: &Term) -> Result<Item, AllocError>
        ensures { IfOk result (λ item. item ≡ defined_constant name.now (nameless [] right.now)) }
    {
        let node = ItemNode::DefinedConstant(name.copy()?, right.copy()?);
        Item::made(alloc, node)
    }

    /// The item of an axiom.
    pub(crate) fn axiom(alloc: Global, name: &Name, p: &Term) -> Result<Item, AllocError>
        ensures { IfOk result (λ item. item ≡ declared_axiom name.now (nameless [] p.now)) }
    {
        let node = ItemNode::Axiom(name.copy()?, p.copy()?);
        Item::made(alloc, node)
    }

    /// What the item says.
    pub fn node(&self) -> &ItemNode
        ensures value { item_of result.now ≡ self.now }
        ensures parameters { HasParameters result.now }
    {
        self.node.as_ref()
    }

    /// The same item.
    pub fn copy(&self) -> Result<Item, AllocError>
        ensures { IfOk result (λ item. item ≡ self.now) }
    {
        Ok(Item {
            node: self.node.clone()?,
        })
    }

    /// The type constructors that the item makes, with their arities.
    pub fn types(&self, alloc: Global) -> Result<Vec<(Name, usize)>, AllocError>
        ensures { IfOk result (λ types. types.items ≡ item_types self.now) }
    {
        match self.node() {
            ItemNode::DeclaredType(name, arity) => one_type(alloc, name, *arity as usize),
            ItemNode::DefinedType {
                name,
                parameters,
                ..
            } => one_type(alloc, name, parameters.len()),
            ItemNode::DeclaredConstant(..) => Ok(Vec::new(alloc)),
            ItemNode::DefinedConstant(..) => Ok(Vec::new(alloc)),
            ItemNode::Axiom(..) => Ok(Vec::new(alloc)),
        }
    }

    /// The constants that the item makes, with their generic types.
    pub fn constants(&self, alloc: Global) -> Result<Vec<(Name, Ty)>, AllocError>
        ensures { IfOk result (λ constants. constants.items ≡ item_constants self.now) }
    {
        match self.node() {
            ItemNode::DeclaredConstant(name, generic) => one_constant(alloc, name, generic),
            ItemNode::DefinedConstant(name, term) => one_constant(alloc, name, term.type_of()),
            ItemNode::DefinedType {
                name,
                abs,
                rep,
                predicate,
                parameters,
            } => {
                let Some((domain, _)) = predicate.type_of().dest_fun() else {
                    return Ok(Vec::new(alloc));
                };
                let new = new_type(alloc, name, parameters)?;
                bijections(alloc, abs, rep, domain, &new)
            }
            ItemNode::DeclaredType(..) => Ok(Vec::new(alloc)),
            ItemNode::Axiom(..) => Ok(Vec::new(alloc)),
        }
    }

    /// Whether the item makes the type constructor at this arity.
    pub fn makes_type(&self, constructor: &Name, arity: usize) -> bool
        ensures { result ≡ makes_type constructor.now arity self.now }
    {
        match self.node() {
            ItemNode::DeclaredType(name, own) => constructor.same(name) && arity == *own as usize,
            ItemNode::DefinedType {
                name,
                parameters,
                ..
            } => constructor.same(name) && arity == parameters.len(),
            ItemNode::DeclaredConstant(..) => false,
            ItemNode::DefinedConstant(..) => false,
            ItemNode::Axiom(..) => false,
        }
    }

    /// Whether the item makes the constant, and the type is an instance of its generic type.
    pub fn makes_constant(
        &self,
        alloc: Global,
        constant: &Name,
        ty: &Ty,
    ) -> Result<bool, AllocError>
        ensures { IfOk result (λ makes. makes ≡ makes_constant constant.now ty.now self.now) }
    {
        match self.node() {
            ItemNode::DeclaredConstant(name, generic) => {
                is_constant_at(alloc, constant, ty, name, generic)
            }
            ItemNode::DefinedConstant(name, term) => {
                is_constant_at(alloc, constant, ty, name, term.type_of())
            }
            ItemNode::DefinedType { .. } => self.makes_bijection(alloc, constant, ty),
            ItemNode::DeclaredType(..) => Ok(false),
            ItemNode::Axiom(..) => Ok(false),
        }
    }

    // As `makes_constant`: a type definition's constants are listed where one has the name.
    fn makes_bijection(&self, alloc: Global, constant: &Name, ty: &Ty) -> Result<bool, AllocError>
        ensures { IfOk result (λ makes. makes ≡ makes_constant constant.now ty.now self.now) }
    {
        if !self.has_name(ItemKind::Constant, constant) {
            return Ok(false);
        }
        let constants = self.constants(alloc)?;
        is_among(alloc, &constants, constant, ty)
    }
}

// Whether the constant is one of these, and the type an instance of its generic type.
fn is_among(
    alloc: Global,
    constants: &[(Name, Ty)],
    constant: &Name,
    ty: &Ty,
) -> Result<bool, AllocError>
    ensures { IfOk result (λ is. is ≡ list_any (is_constant_at constant.now ty.now) constants.now) }
{
    for own in constants {
        if is_constant_at(alloc, constant, ty, &own.0, &own.1)? {
            return Ok(true);
        }
    }
    Ok(false)
}

// A type constructor with its arity.
fn one_type(alloc: Global, name: &Name, arity: usize) -> Result<Vec<(Name, usize)>, AllocError>
    ensures { IfOk result (λ types. types.items ≡ (name.now, arity) ∷ []) }
{
    let mut types = Vec::new(alloc);
    types.push((name.copy()?, arity))?;
    Ok(types)
}

// A constant with its generic type.
fn one_constant(alloc: Global, name: &Name, generic: &Ty) -> Result<Vec<(Name, Ty)>, AllocError>
    ensures { IfOk result (λ constants. constants.items ≡ (name.now, generic.now) ∷ []) }
{
    let mut constants = Vec::new(alloc);
    push_constant(&mut constants, name, generic)?;
    Ok(constants)
}

// Puts the constant with its generic type at the end.
fn push_constant(
    constants: &mut Vec<(Name, Ty)>,
    name: &Name,
    generic: &Ty,
) -> Result<(), AllocError>
    ensures { OnOk result (constants.new.items ≡ constants.old.items ++ (name.now, generic.now) ∷ []) }
{
    constants.push((name.copy()?, generic.copy()?))?;
    Ok(())
}

// The constants to and from a new type, with their generic types.
fn bijections(
    alloc: Global,
    abs: &Name,
    rep: &Name,
    old: &Ty,
    new: &Ty,
) -> Result<Vec<(Name, Ty)>, AllocError>
    ensures { IfOk result (λ constants. constants.items ≡ (abs.now, fun_type old.now new.now) ∷ (rep.now, fun_type new.now old.now) ∷ []) }
{
    let to = Ty::fun(alloc, old, new)?;
    let mut constants = one_constant(alloc, abs, &to)?;
    let from = Ty::fun(alloc, new, old)?;
    push_constant(&mut constants, rep, &from)?;
    Ok(constants)
}

// Whether the constant has this name, and the type is an instance of this generic type. Where the type is the generic type itself, as in a
// definition, no variables are matched.
#[tactic(auto, using(crate::proofs::Stands::constant_itself))]
fn is_constant_at(
    alloc: Global,
    constant: &Name,
    ty: &Ty,
    name: &Name,
    generic: &Ty,
) -> Result<bool, AllocError>
    ensures { IfOk result (λ is. is ≡ is_constant_at constant.now ty.now (name.now, generic.now)) }
{
    if !constant.same(name) {
        return Ok(false);
    }
    if generic.same_node(ty) {
        return Ok(true);
    }
    is_instance(alloc, generic, ty)
}

/// The constructor over type variables of these names.
pub(crate) fn new_type(alloc: Global, name: &Name, parameters: &[Name]) -> Result<Ty, AllocError>
    ensures { IfOk result (λ ty. ty ≡ new_type name.now parameters.now) }
{
    let mut args = Vec::with_capacity(alloc, parameters.len())?;
    for parameter in parameters {
        args.push(Ty::var(alloc, parameter)?)?;
    }
    Ty::app(alloc, name, &args)
}
