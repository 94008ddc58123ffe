//! Bases: legal sets of items.
ghost use Rattle.std.specs.Prelude.{◌≡◌, ◌||◌, IfOk, IfSome, IsTrue, Some, [], option_copied};
ghost use Rattle.std.specs.List.{find, list_any};
ghost use Rattle.std.specs.List.Sorted.{IsStrictlySortedBy};
ghost use Rattle.hol_terms.specs.Named.{named_type};
ghost use Rattle.hol_terms.specs.Nameless.{nameless};
ghost use Rattle.hol_formulas.specs.Equation.{bool_type, mk_eq};
ghost use Rattle.hol_kernel.specs.Items.{item_cmp, item_set, no_items, in_order};
ghost use Rattle.hol_kernel.specs.Signature.{has_arity, has_constant, has_key, makes_type, makes_constant};
ghost use Rattle.hol_kernel.specs.Clashing.{key_at};
ghost use Rattle.hol_kernel.specs.Typing.{has_type, is_type, is_typed};
ghost use Rattle.hol_kernel.specs.NamedTyping.{is_known_named};
ghost use Rattle.hol_kernel.specs.Legal.{IsLegalSet, IsStorable};

use crate::find::find_named;
use crate::item::Item;
use crate::item_kind::ItemKind;
use hol_formulas::{Connectives, Equality};
use hol_mark::Mark;
use hol_terms::{Term, TermNode};
use hol_types::{Name, Ty, TyNode};
use std::alloc::{AllocError, Global};
use std::cell::RefCell;
use std::marker::Model;
use std::rc::Rc;

/// A legal set of items. Its copies share it. The prelude belongs to every basis and is not listed.
#[derive(Drop)]
pub struct Basis {
    shared: Rc<BasisShared>,
}

// What the copies of a basis share: its items, the mark by which two copies are known to be of one basis, and the `=` between truth values and between terms of other types that rules last asked
// for, so that equations of one type share it. Types of other sizes have other places, so that the equations of a function, of its
// argument and of what it makes of it, which rules take in turn, don't put out one another's. And the connectives' constants, once a rule asked for them.
#[derive(Drop)]
struct BasisShared {
    items: Vec<Item>,
    mark: Mark,
    equivalence: RefCell<Option<Equality>>,
    equalities: [RefCell<Option<Equality>>; 4],
    connectives: RefCell<Option<Rc<Connectives>>>,
}

impl Model for Basis {
    ghost use Rattle.std.specs.Prelude.{◌≡◌};
    ghost use Rattle.hol_kernel.specs.Items.{Items, items_code, item_set};

    ghost Value = { Items };

    ghost coded = { items_code };

    ghost use Rattle.hol_kernel.specs.Legal.{IsStorable};

    ghost view = { λ b. item_set b.shared.value.items.items };

    ghost invariant = { λ b. (b.shared.value.mark ≡ items_code.code (item_set b.shared.value.items.items)) × IsStorable b.shared.value.items.items };
}

impl Basis {
    /// The basis of the items.
    pub(crate) fn made(alloc: Global, items: Vec<Item>) -> Result<Basis, AllocError>
        requires { IsStorable items.items }
        ensures { IfOk result (λ basis. basis ≡ item_set items.items) }
    {
        let mark = Mark::about(&items);
        let shared = BasisShared {
            items,
            mark,
            equivalence: RefCell::new(None),
            equalities: [
                RefCell::new(None),
                RefCell::new(None),
                RefCell::new(None),
                RefCell::new(None),
            ],
            connectives: RefCell::new(None),
        };
        Ok(Basis {
            shared: Rc::new(alloc, shared)?,
        })
    }

    /// The basis without items: the prelude alone.
    pub fn empty(alloc: Global) -> Result<Basis, AllocError>
        ensures { IfOk result (λ basis. basis ≡ no_items) }
    {
        let none = Vec::new(alloc);
        Basis::made(alloc, none)
    }

    /// The same basis.
    pub fn copy(&self) -> Result<Basis, AllocError>
        ensures { IfOk result (λ basis. basis ≡ self.now) }
    {
        Ok(Basis {
            shared: self.shared.clone()?,
        })
    }

    /// Whether the two are copies of one basis. Where they aren't, they may still be equal.
    pub fn same_node(&self, other: &Basis) -> bool
        ensures { IsTrue result → self.now ≡ other.now }
    {
        self.shared.mark.same(&other.shared.mark)
    }

    /// The items, each once: axioms, declared constants, defined constants, declared types, defined types; each kind by the bytes
    /// of its names.
    pub fn items(&self) -> &[Item]
        ensures items { result.now ≡ in_order self.now }
        ensures set { item_set result.now ≡ self.now }
        ensures ordered { IsStrictlySortedBy item_cmp result.now }
        ensures legal { IsLegalSet self.now }
    {
        &self.shared.items
    }

    /// The item that has the name, as one of this kind.
    pub fn item_named(&self, kind: ItemKind, name: &Name) -> Option<&Item>
        ensures { option_copied result ≡ find (λ x. has_key x (key_at kind name.now)) (in_order self.now) }
    {
        find_named(self.items(), kind, name)
    }

    /// `left = right`, for two terms of the type. It has the `=` of the last equation whose type has its place, where that is of
    /// the same type, and those of truth values have the same `=`.
    pub fn equation(
        &self,
        alloc: Global,
        ty: &Ty,
        left: &Term,
        right: &Term,
    ) -> Result<Term, AllocError>
        requires left { named_type left.now ≡ Some ty.now }
        requires right { named_type right.now ≡ Some ty.now }
        ensures is { IfOk result (λ t. t ≡ mk_eq ty.now left.now right.now) }
        ensures typed { IfOk result (λ t. named_type t ≡ Some bool_type) }
    {
        if let Some(made) = self.equation_by_kept(alloc, ty, left, right)? {
            return Ok(made);
        }
        self.equation_by_new(alloc, ty, left, right)
    }

    // `left = right` by an `=` that is made for it, and kept.
    #[cold]
    #[inline(never)]
    fn equation_by_new(
        &self,
        alloc: Global,
        ty: &Ty,
        left: &Term,
        right: &Term,
    ) -> Result<Term, AllocError>
        requires left { named_type left.now ≡ Some ty.now }
        requires right { named_type right.now ≡ Some ty.now }
        ensures is { IfOk result (λ t. t ≡ mk_eq ty.now left.now right.now) }
        ensures typed { IfOk result (λ t. named_type t ≡ Some bool_type) }
    {
        let equality = Equality::at(alloc, ty)?;
        let made = equality.between(alloc, left, right)?;
        let _ = self.kept_at(ty).try_replace(Some(equality));
        Ok(made)
    }

    // Where the `=` between terms of the type is kept: most types have an odd size, since one of functions has the sizes of two and 1.
    fn kept_at(&self, ty: &Ty) -> &RefCell<Option<Equality>> {
        if ty.is_bool() {
            return &self.shared.equivalence;
        }
        let place = ty.size() / 2 % 4;
        &self.shared.equalities[place as usize]
    }

    // `left = right` by the `=` that is kept, if it is between terms of the type.
    fn equation_by_kept(
        &self,
        alloc: Global,
        ty: &Ty,
        left: &Term,
        right: &Term,
    ) -> Result<Option<Term>, AllocError>
        requires left { named_type left.now ≡ Some ty.now }
        requires right { named_type right.now ≡ Some ty.now }
        ensures is { IfOk result (λ made. IfSome made (λ t. t ≡ mk_eq ty.now left.now right.now)) }
        ensures typed { IfOk result (λ made. IfSome made (λ t. named_type t ≡ Some bool_type)) }
    {
        let Ok(kept) = self.kept_at(ty).try_borrow() else {
            return Ok(None);
        };
        match &*kept {
            Some(equality) if equality.is_at(ty) => {
                Ok(Some(equality.between(alloc, left, right)?))
            }
            Some(_) => Ok(None),
            None => Ok(None),
        }
    }

    /// The connectives' constants, which the copies of the basis share once they are made.
    pub fn connectives(&self, alloc: Global) -> Result<Rc<Connectives>, AllocError> {
        if let Ok(kept) = self.shared.connectives.try_borrow() {
            if let Some(connectives) = &*kept {
                return connectives.clone();
            }
        }
        self.connectives_made(alloc)
    }

    // The constants, made and kept.
    #[cold]
    #[inline(never)]
    fn connectives_made(&self, alloc: Global) -> Result<Rc<Connectives>, AllocError> {
        let connectives = Rc::new(alloc, Connectives::new(alloc)?)?;
        let _ = self
            .shared
            .connectives
            .try_replace(Some(connectives.clone()?));
        Ok(connectives)
    }

    /// Whether the type constructor stands at this arity.
    pub fn has_arity(&self, constructor: &Name, arity: usize) -> bool
        ensures { result ≡ has_arity self.now constructor.now arity }
    {
        hol_formulas::has_type(constructor, arity) || makes_type(self.items(), constructor, arity)
    }

    /// Whether each type constructor in the type stands and has as many arguments as its arity says.
    ///
    /// Parts with constructors of the prelude alone are passed over.
    #[tactic(auto, using(crate::proofs::Steps::is_type_app, crate::proofs::Basic::basic_stands))]
    pub fn is_type(&self, ty: &Ty) -> bool
        ensures { result ≡ is_type self.now ty.now }
    {
        if ty.is_basic() {
            return true;
        }
        match ty.node() {
            TyNode::Var(_) => true,
            TyNode::App(constructor, args) => {
                if !self.has_arity(constructor, args.len()) {
                    return false;
                }
                for arg in args {
                    if !self.is_type(arg) {
                        return false;
                    }
                }
                true
            }
        }
    }

    /// Whether the constant stands, and the type is an instance of its generic type.
    pub fn has_constant(&self, alloc: Global, constant: &Name, ty: &Ty) -> Result<bool, AllocError>
        ensures { IfOk result (λ has. has ≡ has_constant self.now constant.now ty.now) }
    {
        if hol_formulas::has_constant(alloc, constant, ty)? {
            return Ok(true);
        }
        makes_constant(alloc, self.items(), constant, ty)
    }

    /// Whether the term is well typed over the prelude and the items.
    ///
    /// Parts with types and constants of the prelude alone are passed over.
    #[tactic(auto, using(crate::proofs::Typed::typed_named, crate::proofs::Basic::basic_knows))]
    pub fn is_typed(&self, alloc: Global, term: &Term) -> Result<bool, AllocError>
        ensures { IfOk result (λ is. is ≡ is_typed self.now (nameless [] term.now)) }
    {
        let _ty = term.type_of();
        if term.is_basic() {
            return Ok(true);
        }
        self.knows(alloc, term)
    }

    /// Whether the term is well typed over the prelude and the items, of the type.
    #[tactic(auto, using(crate::proofs::TermRules::type_tests))]
    pub fn has_type(&self, alloc: Global, term: &Term, ty: &Ty) -> Result<bool, AllocError>
        ensures { IfOk result (λ has. has ≡ has_type self.now (nameless [] term.now) ty.now) }
    {
        if !term.type_of().same(ty) {
            return Ok(false);
        }
        self.is_typed(alloc, term)
    }

    // Whether each type and each constant of the term stands.
    #[tactic(auto, using(crate::proofs::Basic::basic_knows))]
    fn knows(&self, alloc: Global, term: &Term) -> Result<bool, AllocError>
        ensures { IfOk result (λ knows. knows ≡ is_known_named self.now term.now) }
    {
        if term.is_basic() {
            return Ok(true);
        }
        match term.node() {
            TermNode::Var(v) => Ok(self.is_type(v.ty())),
            TermNode::Const(name, ty) => {
                if !self.is_type(ty) {
                    return Ok(false);
                }
                self.has_constant(alloc, name, ty)
            }
            TermNode::Comb(function, argument) => {
                if !self.knows(alloc, function)? {
                    return Ok(false);
                }
                self.knows(alloc, argument)
            }
            TermNode::Abs(v, body) => {
                if !self.is_type(v.ty()) {
                    return Ok(false);
                }
                self.knows(alloc, body)
            }
        }
    }
}

// Whether an item of the list makes the type constructor at this arity.
fn makes_type(items: &[Item], constructor: &Name, arity: usize) -> bool
    requires { IsStorable items.now }
    ensures { result ≡ list_any (makes_type constructor.now arity) items.now }
{
    match find_named(items, ItemKind::Type, constructor) {
        Some(item) => item.makes_type(constructor, arity),
        None => false,
    }
}

// Whether an item of the list makes the constant, and the type is an instance of its generic type.
fn makes_constant(
    alloc: Global,
    items: &[Item],
    constant: &Name,
    ty: &Ty,
) -> Result<bool, AllocError>
    requires { IsStorable items.now }
    ensures { IfOk result (λ makes. makes ≡ list_any (makes_constant constant.now ty.now) items.now) }
{
    match find_named(items, ItemKind::Constant, constant) {
        Some(item) => item.makes_constant(alloc, constant, ty),
        None => Ok(false),
    }
}
