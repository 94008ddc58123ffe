//! Consistency relative to a universe in which the axiom of infinity is true.
ghost use Rattle.std.specs.Prelude.{List};
ghost use Rattle.hol_formulas.specs.Formula.{falsity};
ghost use Rattle.hol_kernel.specs.Item.{Item};
ghost use Rattle.hol_kernel.specs.Items.{item_set};
ghost use Rattle.hol_kernel.specs.Sequent.{no_hyps};
ghost use Rattle.hol_kernel.specs.Legal.{IsLegal};
ghost use Rattle.hol_kernel.specs.Derivation.{Derives};
ghost use Rattle.hol_model.specs.Infinity.{HasNoAxiom};
ghost use Rattle.hol_model.specs.Universe.{UniverseOf, IsInfinite};

/// If values of some type V, with sets of them of some type S, are a universe with infinitely many individuals, then F has no derivation at all over a legal list of
/// items without an axiom. A type that a contract names has values that the toolchain codes by numbers, so that set theory has no such V and S; of any two types the
/// lemma `infinite_consistent` (proofs/Consistency.antt) says the same, and set theory has such. The toolchain's logic has none.
pub fn falsity_fails_in_infinite_universe<V, S>()
    ensures { (U : UniverseOf V S) → IsInfinite V S U → (order : List Item) → IsLegal order → HasNoAxiom (item_set order) → Derives (item_set order) no_hyps falsity → ⊥ }
{}
