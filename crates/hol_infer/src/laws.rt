//! Laws of readings.
ghost use Rattle.std.specs.Prelude.{◌≡◌, ◌≤◌, ℕ, List, [], Bool, true, Some};
ghost use Rattle.hol_types.specs.Tree.{TypeTree};
ghost use Rattle.hol_terms.specs.Nameless.{Nameless, nameless_type};
ghost use Rattle.hol_terms.specs.Size.{term_size};
ghost use Rattle.hol_notation_terms.specs.Text.{TermText, DefinitionText};
ghost use Rattle.hol_typing.specs.Raw.{RawTree};
ghost use Rattle.hol_typing.specs.Typing.{HasNoTyping};
ghost use Rattle.hol_infer.specs.Reading.{IsReading, HasLargeReading};
ghost use Rattle.hol_infer.specs.Resolving.{term_has_arities, raw_of, definition_has_arities, definition_raw};
ghost use Rattle.hol_infer.specs.Standing.{TermStands, AreStanding};

/// A reading is well typed; and the reading of a term or definition among names that stand stands: its type constructors take so many
/// arguments, its constants have instances of their generic types, and its bound variables have base names.
pub fn readings_stand()
    ensures typed { (raw : RawTree) (p : Nameless) → IsReading raw p → (t : TypeTree) × (nameless_type [] p ≡ Some t) }
    ensures terms { (takes : List ℕ → ℕ → Bool) (has : List ℕ → TypeTree → Bool) (arities : List (List ℕ × ℕ)) (constants : List (List ℕ × TypeTree)) (t : TermText) (p : Nameless) → AreStanding takes has arities constants → term_has_arities arities t ≡ true → IsReading (raw_of arities constants [] t) p → TermStands takes has p }
    ensures definitions { (takes : List ℕ → ℕ → Bool) (has : List ℕ → TypeTree → Bool) (arities : List (List ℕ × ℕ)) (constants : List (List ℕ × TypeTree)) (d : DefinitionText) (p : Nameless) → AreStanding takes has arities constants → definition_has_arities arities d ≡ true → IsReading (definition_raw arities constants d) p → TermStands takes has p }
{}

/// A term has at most one reading; and what makes it unreadable excludes a reading of at most 20,000 nodes, and the other.
pub fn one_reading()
    ensures unique { (raw : RawTree) (p q : Nameless) → IsReading raw p → IsReading raw q → p ≡ q }
    ensures typable { (raw : RawTree) (p : Nameless) → IsReading raw p → HasNoTyping raw → ⊥ }
    ensures small { (raw : RawTree) (p : Nameless) → IsReading raw p → term_size [] p ≤ 20000 → HasLargeReading raw → ⊥ }
    ensures large { (raw : RawTree) → HasNoTyping raw → HasLargeReading raw → ⊥ }
{}
