//! Formulas that expressions keep.
ghost use Rattle.std.specs.Prelude.{◌≡◌, Some, []};
ghost use Rattle.hol_terms.specs.Named.{named_type};
ghost use Rattle.hol_terms.specs.Nameless.{nameless};
ghost use Rattle.hol_formulas.specs.Equation.{bool_type};

use hol_terms::Term;
use std::marker::Model;

/// A term of type `bool`.
#[derive(Drop)]
pub struct Formula {
    term: Term,
}

impl Model for Formula {
    ghost use Rattle.std.specs.Prelude.{◌≡◌, Some, []};
    ghost use Rattle.hol_terms.specs.Named.{named_type};
    ghost use Rattle.hol_terms.specs.Nameless.{Nameless, nameless};
    ghost use Rattle.hol_terms.specs.Code.{coded_nameless};
    ghost use Rattle.hol_formulas.specs.Equation.{bool_type};

    ghost Value = { Nameless };

    ghost coded = { coded_nameless };

    ghost view = { λ f. nameless [] f.term };

    ghost invariant = { λ f. named_type f.term ≡ Some bool_type };
}

impl Formula {
    /// The formula that is this term.
    pub fn new(term: Term) -> Formula
        requires { named_type term ≡ Some bool_type }
        ensures { result ≡ nameless [] term }
    {
        Formula { term }
    }

    /// The term.
    pub fn term(&self) -> &Term
        ensures term { nameless [] result.now ≡ self.now }
        ensures typed { named_type result.now ≡ Some bool_type }
    {
        &self.term
    }
}
