//! The law of the grammar.
ghost use Rattle.std.specs.Prelude.{◌≡◌, List, ℕ};
ghost use Rattle.hol_notation_reader.specs.Reading.{IsRead, ReadText};

/// A text reads as at most one thing: as one command, or as a break at one place.
pub fn one_reading()
    ensures { (text : List ℕ) (a b : ReadText) → IsRead text a → IsRead text b → a ≡ b }
{}
