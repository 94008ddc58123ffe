//! The entries of what is declared and defined over a basis.
ghost use Rattle.std.specs.Prelude.{◌≡◌, ◌++◌, ◌∷◌, true, is_some, IfOk, IfErr, OnOk, Some, [], map, option_copied};
ghost use Rattle.hol_terms.specs.Nameless.{nameless};
ghost use Rattle.hol_kernel.specs.Clashing.{key_at};
ghost use Rattle.hol_kernel.specs.Extends.{IsDefine, IsTypeDefine};
ghost use Rattle.hol_kernel.specs.Gives.{GivesSome, FailsBy, in_kernel};
ghost use Rattle.hol_kernel.specs.Item.{Item as ItemValue};
ghost use Rattle.hol_kernel.specs.Items.{Items, IsSubset};
ghost use Rattle.hol_kernel.specs.Signature.{type_key, item_types, item_constants};
ghost use Rattle.hol_kernel.specs.Theorem.{Theorem};
ghost use Rattle.hol_kernel.specs.declared.type_definition.TypeDefinition.{TypeDefinition};
ghost use Rattle.hol_kernel.specs.declared.error.Rule.TheVariants as rule;
ghost use Rattle.hol_combine.specs.Suits.{suits_expr};
ghost use Rattle.hol_theory.specs.Entry.{ATheorem, ATac, IsEntry, EachIsEntry, item_at};
ghost use Rattle.hol_theory.specs.Key.{theorem_key, tac_key};
ghost use Rattle.hol_theory.specs.Making.{type_entry, constant_entry, item_entries, IsNewType, IsNewConstant, IsNewAxiom, IsNewDefinition, IsNewTypeDefinition};

use crate::key::{Key, Kind};
use crate::value::Value;
use hol_combine::Expr;
use hol_kernel::{Basis, Item, ItemKind, KernelError, Thm, TypeDefinition};
use hol_terms::Term;
use hol_types::{Name, Ty};
use std::alloc::{AllocError, Global};

/// The item of the basis that has the name, as one of this kind.
pub fn item_at<'a>(basis: &'a Basis, kind: ItemKind, name: &Name) -> Option<&'a Item>
    ensures { option_copied result ≡ item_at (key_at kind name.now) basis.now }
{
    basis.item_named(kind, name)
}

/// Entries with their keys.
pub type Entries = Vec<(Key, Value)>;

// The item of the name, which the basis has.
fn own_item(basis: &Basis, kind: ItemKind, name: &Name) -> Result<Item, AllocError>
    requires { is_some (item_at (key_at kind name.now) basis.now) ≡ true }
    ensures { IfOk result (λ item. item_at (key_at kind name.now) basis.now ≡ Some item) }
{
    match item_at(basis, kind, name) {
        Some(item) => item.copy(),
        None => unreachable!(),
    }
}

/// What the item makes, as entries over the basis: its type constructors, then its constants.
pub fn item_entries(alloc: Global, item: &Item, basis: &Basis) -> Result<Entries, AllocError>
    ensures { IfOk result (λ entries. entries.items ≡ item_entries item.now basis.now) }
{
    let mut entries = Vec::new(alloc);
    add_types(alloc, &mut entries, item, basis)?;
    add_constants(alloc, &mut entries, item, basis)?;
    Ok(entries)
}

// What the item of the name makes, which the basis has.
fn made_entries(
    alloc: Global,
    basis: &Basis,
    kind: ItemKind,
    name: &Name,
) -> Result<Entries, AllocError>
    requires { is_some (item_at (key_at kind name.now) basis.now) ≡ true }
    ensures { (x : ItemValue) → item_at (key_at kind name.now) basis.now ≡ Some x → IfOk result (λ entries. entries.items ≡ item_entries x basis.now) }
{
    let item = own_item(basis, kind, name)?;
    item_entries(alloc, &item, basis)
}

// Adds the item's type constructors as entries.
fn add_types(
    alloc: Global,
    entries: &mut Entries,
    item: &Item,
    basis: &Basis,
) -> Result<(), AllocError>
    ensures { OnOk result (entries.new.items ≡ entries.old.items ++ map (type_entry item.now basis.now) (item_types item.now)) }
{
    for (name, arity) in item.types(alloc)? {
        let key = Key::new(alloc, Kind::Type, name.as_str())?;
        let value = Value::type_constructor(alloc, arity, item.copy()?, basis.copy()?)?;
        entries.push((key, value))?;
    }
    Ok(())
}

// Adds the item's constants as entries.
fn add_constants(
    alloc: Global,
    entries: &mut Entries,
    item: &Item,
    basis: &Basis,
) -> Result<(), AllocError>
    ensures { OnOk result (entries.new.items ≡ entries.old.items ++ map (constant_entry item.now basis.now) (item_constants item.now)) }
{
    for (name, ty) in item.constants(alloc)? {
        let key = Key::new(alloc, Kind::Constant, name.as_str())?;
        let value = Value::constant(alloc, ty, item.copy()?, basis.copy()?)?;
        entries.push((key, value))?;
    }
    Ok(())
}

/// The entry of a type constructor of this arity, declared over the basis (fusion.ml, new_type).
///
/// Refused by `Rule::DeclareType` where the name is not new among types.
pub fn new_type(
    alloc: Global,
    basis: &Basis,
    name: &Name,
    arity: u32,
) -> Result<(Key, Value), KernelError>
    ensures { GivesSome in_kernel rule.DeclareType (IsNewType basis.now name.now arity) result }
{
    let larger = basis.declare_type(alloc, name, arity)?;
    let item = own_item(&larger, ItemKind::Type, name)?;
    let key = Key::new(alloc, Kind::Type, name.as_str())?;
    let value = Value::type_constructor(alloc, arity as usize, item, larger)?;
    Ok((key, value))
}

/// The entry of a constant of this generic type, declared over the basis (fusion.ml, new_constant).
///
/// Refused by `Rule::DeclareConst` where the name is not new among constants, or the type is none over the basis.
pub fn new_constant(
    alloc: Global,
    basis: &Basis,
    name: &Name,
    ty: &Ty,
) -> Result<(Key, Value), KernelError>
    ensures { GivesSome in_kernel rule.DeclareConst (IsNewConstant basis.now name.now ty.now) result }
{
    let larger = basis.declare_const(alloc, name, ty)?;
    let item = own_item(&larger, ItemKind::Constant, name)?;
    let key = Key::new(alloc, Kind::Constant, name.as_str())?;
    let value = Value::constant(alloc, ty.copy()?, item, larger)?;
    Ok((key, value))
}

/// The entry of an axiom, declared over the basis (fusion.ml, new_axiom).
///
/// Refused by `Rule::DeclareAxiom` where the name is not new among axioms, or `p` is not well typed over the basis, of type `bool`.
pub fn new_axiom(
    alloc: Global,
    basis: &Basis,
    name: &Name,
    p: &Term,
) -> Result<(Key, Value), KernelError>
    ensures { GivesSome in_kernel rule.DeclareAxiom (IsNewAxiom basis.now name.now (nameless [] p.now)) result }
{
    let larger = basis.declare_axiom(alloc, name, p)?;
    let theorem = Thm::axiom_of(&larger, name)?;
    let key = Key::new(alloc, Kind::Theorem, name.as_str())?;
    let value = Value::theorem(alloc, theorem)?;
    Ok((key, value))
}

/// The entry of an expression that has a name, by what each theorem that is written in it rests on by itself, in text order, and what all of it rests on.
pub fn new_tac(
    alloc: Global,
    name: &str,
    expr: Expr,
    bases: Vec<Basis>,
    basis: Basis,
) -> Result<(Key, Value), AllocError>
    requires { suits_expr expr basis ≡ true }
    ensures entry { IfOk result (λ made. made ≡ (tac_key name.now, ATac expr bases.items basis)) }
    ensures is { IfOk result (λ made. IsEntry made.0 made.1) }
{
    let _items = basis.items();
    let key = Key::new(alloc, Kind::Tac, name)?;
    let value = Value::tac(alloc, expr, bases, basis)?;
    Ok((key, value))
}

/// The entry of a constant that is defined over the basis as the term `right`, and its definition `|- name = right` (fusion.ml,
/// new_basic_definition).
///
/// Refused by `Rule::Define` where the name is not new among constants, or `right` is not well typed over the basis, has a free variable, or has a
/// type variable that its type has not.
pub fn new_definition(
    alloc: Global,
    basis: &Basis,
    name: &Name,
    right: &Term,
) -> Result<(Entries, Thm), KernelError>
    ensures made { IfOk result (λ made. IsNewDefinition basis.now name.now (nameless [] right.now) made.0.items made.1) }
    ensures entries { IfOk result (λ made. EachIsEntry made.0.items) }
    ensures refused { IfErr result (λ e. FailsBy rule.Define ((made : Items × Theorem) → IsDefine basis.now name.now (nameless [] right.now) made.0 made.1 → ⊥) (in_kernel e)) }
{
    let (larger, th) = basis.define(alloc, name, right)?;
    th.promise();
    let entries = made_entries(alloc, &larger, ItemKind::Constant, name)?;
    Ok((entries, th))
}

/// The names that a type definition makes.
#[derive(Clone, Copy)]
pub struct DefinedNames<'a> {
    /// The type constructor.
    pub name: &'a Name,
    /// The constant to the new type.
    pub abs: &'a Name,
    /// The constant from the new type.
    pub rep: &'a Name,
    /// The theorem `|- abs (rep a) = a`.
    pub abs_rep: &'a str,
    /// The theorem `|- P r = (rep (abs r) = r)`.
    pub rep_abs: &'a str,
}

/// The entries of a type constructor whose values stand for those that a predicate `P` has, by a theorem `|- P x` over the basis (fusion.ml,
/// new_basic_type_definition): the constructor, the constants to the new type and from it, and what these satisfy.
///
/// Refused by `Rule::TypeDefine` where the theorem has a hypothesis or its conclusion is no application, where a variable is free in `P`, where
/// a name is not new in its kind, and where the two constants have one name.
pub fn new_type_definition(
    alloc: Global,
    basis: &Basis,
    names: &DefinedNames<'_>,
    member: &Thm,
) -> Result<Entries, KernelError>
    requires within { IsSubset member.now.basis basis.now }
    ensures made { IfOk result (λ entries. IsNewTypeDefinition basis.now names.now.name.now names.now.abs.now names.now.rep.now names.now.abs_rep.now names.now.rep_abs.now member.now entries.items) }
    ensures entries { IfOk result (λ entries. EachIsEntry entries.items) }
    ensures refused { IfErr result (λ e. FailsBy rule.TypeDefine ((made : TypeDefinition) → IsTypeDefine basis.now names.now.name.now names.now.abs.now names.now.rep.now member.now made.basis made.abs_rep made.rep_abs → ⊥) (in_kernel e)) }
{
    let made = basis.type_define(alloc, names.name, names.abs, names.rep, member)?;
    made.abs_rep.promise();
    made.rep_abs.promise();
    Ok(definition_entries(alloc, names, made)?)
}

// The entries of what was defined, whose type constructor the larger basis has: those of its item, and its theorems under their names.
fn definition_entries(
    alloc: Global,
    names: &DefinedNames<'_>,
    made: TypeDefinition,
) -> Result<Entries, AllocError>
    requires { is_some (item_at (type_key names.now.name.now) made.basis) ≡ true }
    ensures { (x : ItemValue) → item_at (type_key names.now.name.now) made.basis ≡ Some x → IfOk result (λ entries. entries.items ≡ item_entries x made.basis ++ (theorem_key names.now.abs_rep.now, ATheorem made.abs_rep) ∷ (theorem_key names.now.rep_abs.now, ATheorem made.rep_abs) ∷ []) }
{
    let entries = made_entries(alloc, &made.basis, ItemKind::Type, names.name)?;
    let entries = with_theorem(alloc, entries, names.abs_rep, made.abs_rep)?;
    with_theorem(alloc, entries, names.rep_abs, made.rep_abs)
}

// The entries, with a theorem under its name.
fn with_theorem(
    alloc: Global,
    mut entries: Entries,
    name: &str,
    theorem: Thm,
) -> Result<Entries, AllocError>
    ensures { IfOk result (λ more. more.items ≡ entries.items ++ (theorem_key name.now, ATheorem theorem) ∷ []) }
{
    let key = Key::new(alloc, Kind::Theorem, name)?;
    let value = Value::theorem(alloc, theorem)?;
    entries.push((key, value))?;
    Ok(entries)
}
