//! What definitions that a reader has to believe come to, said in other words: of what is derived, well typed and legal, and of the tests and orders that they go by.
ghost use Rattle.std.specs.Prelude.{◌≡◌, ◌↔◌, ℕ, true, List, [], Contains};
ghost use Rattle.std.specs.Cmp.{IsTotalOrder};
ghost use Rattle.std.specs.FinSet.{IsAntisymmetric};
ghost use Rattle.hol_types.specs.Tree.{TypeTree};
ghost use Rattle.hol_types.specs.Order.{name_cmp, type_cmp};
ghost use Rattle.hol_types.specs.Equal.{type_eq, variable_eq};
ghost use Rattle.hol_types.specs.Names.{type_names, tyvars, is_among, IsAscending};
ghost use Rattle.hol_terms.specs.Named.{Named, abs};
ghost use Rattle.hol_terms.specs.Nameless.{Nameless, nameless};
ghost use Rattle.hol_subst.specs.AlphaOrder.{nameless_cmp};
ghost use Rattle.hol_subst.specs.Closing.{bind};
ghost use Rattle.hol_kernel.specs.Item.{Item};
ghost use Rattle.hol_kernel.specs.Items.{Items, item_cmp, in_order, Holds};
ghost use Rattle.hol_kernel.specs.Typing.{is_type, HasType};
ghost use Rattle.hol_kernel.specs.Legal.{IsLegalSet};
ghost use Rattle.hol_kernel.specs.Theorem.{Theorem, IsWellTyped};
ghost use Rattle.hol_kernel.specs.Derivation.{Derives};
ghost use Rattle.hol_model.specs.WellTyped.{Stands, IsOfType, IsItemTyped};
ghost use Rattle.hol_model.specs.Names.{NamesStandOnce};

/// Each hypothesis and the conclusion of what has a derivation is a formula that is well typed over the items.
pub fn derived_is_well_typed()
    ensures { (t : Theorem) → Derives t.basis t.sequent.hyps t.sequent.concl → IsWellTyped t }
{}

/// A type that stands has constructors of the prelude and of items alone, each with its number of arguments; and a term that is well typed is so by the rules of
/// the simple theory of types, its constants being at instances of their generic types.
pub fn typed_by_rules()
    ensures types { (items : Items) (a : TypeTree) → is_type items a ≡ true → Stands items a }
    ensures terms { (items : Items) (t : Nameless) (a : TypeTree) → HasType items t a → IsOfType items [] t a }
{}

/// The types and terms of each item of a legal set are well typed over the set, statements of axioms as formulas.
pub fn legal_items_are_typed()
    ensures { (items : Items) → IsLegalSet items → (x : Item) → Holds items x → IsItemTyped items x }
{}

/// In a legal set each name stands once in its kind, and none is a name of the prelude.
pub fn names_stand_once()
    ensures { (items : Items) → IsLegalSet items → NamesStandOnce items }
{}

/// The orders by which finite sets are kept are total, and tie only what is equal. So are the orders of names and types, and the tests of equality of types and of
/// variables, which go by them, decide it; and the list of a set's items has those that the set holds.
pub fn orders_are_total()
    ensures names { IsTotalOrder name_cmp }
    ensures names_differ { IsAntisymmetric name_cmp }
    ensures types { IsTotalOrder type_cmp }
    ensures types_differ { IsAntisymmetric type_cmp }
    ensures terms { IsTotalOrder nameless_cmp }
    ensures terms_differ { IsAntisymmetric nameless_cmp }
    ensures items { IsTotalOrder item_cmp }
    ensures items_differ { IsAntisymmetric item_cmp }
    ensures same_types { (s t : TypeTree) → (type_eq s t ≡ true) ↔ (s ≡ t) }
    ensures same_variables { (v w : List ℕ × TypeTree) → (variable_eq v w ≡ true) ↔ (v ≡ w) }
    ensures listed { (items : Items) (x : Item) → Contains (in_order items) x ↔ Holds items x }
{}

/// The type variables of a type are those that occur in it, each once, in the order of their bytes.
pub fn type_variables_are_those_that_occur()
    ensures occur { (t : TypeTree) (a : List ℕ) → is_among (tyvars t) a ≡ is_among (type_names t) a }
    ensures ordered { (t : TypeTree) → IsAscending (tyvars t) }
{}

/// Leaving the names out of an abstraction is binding its variable in the body's nameless term.
pub fn abstractions_bind()
    ensures { (v : List ℕ × TypeTree) (b : Named) → nameless [] (abs v b) ≡ bind v (nameless [] b) }
{}
