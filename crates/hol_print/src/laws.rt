//! The law of shown names.
ghost use Rattle.std.specs.Prelude.{◌≡◌, ℕ, List, true};
ghost use Rattle.hol_types.specs.Names.{is_among};
ghost use Rattle.hol_terms.specs.Nameless.{Nameless};
ghost use Rattle.hol_terms.specs.Primes.{HasFewestPrimes};
ghost use Rattle.hol_print.specs.ShowTerm.{names_in, shown_name};

/// A shown name is the base with primes, is none of the names that the binder's variable is to differ from, and with fewer primes
/// would be one of them.
#[tactic(auto, using(crate::proofs::Fewest::shown_fewest))]
pub fn shown_names_have_fewest_primes()
    ensures { (env : List (List ℕ)) (a : List ℕ) (b : Nameless) → HasFewestPrimes (λ name. is_among (names_in 1 env b) name ≡ true) a (shown_name env a b) }
{}
