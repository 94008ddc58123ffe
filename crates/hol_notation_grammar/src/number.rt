//! Numbers as they are written.
ghost use Rattle.std.specs.Prelude.{◌≡◌, ◌≤◌};
ghost use Rattle.hol_notation_grammar.specs.Number.{number_value};

/// The number that a word of digits says: as a number it has at most four, and further ones are passed over.
pub fn number_value(word: &str) -> usize
    ensures value { result ≡ number_value word.now }
    ensures fits { result ≤ 4294967295 }
{
    let bytes = word.as_bytes();
    let digits = if bytes.len() > 4 { &bytes[..4] } else { bytes };
    let mut number = 0;
    for digit in digits {
        number = 10 * number + digit.saturating_sub(48) as usize;
    }
    number
}
