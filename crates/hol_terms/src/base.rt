//! Base names.
ghost use Rattle.std.specs.Prelude.{◌≡◌};
ghost use Rattle.hol_terms.specs.Nameless.{base_of};

/// The name without the primes at its end.
///
/// Takes no memory: the answer is a part of the text that was passed.
pub fn base_name(name: &str) -> &str
    ensures { result.now ≡ base_of name.now }
{
    name.trim_end_matches('\'')
}
