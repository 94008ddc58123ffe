//! Constants that occur in readings.
ghost use Rattle.std.specs.Prelude.{◌≡◌};
ghost use Rattle.hol_terms.specs.Nameless.{nameless};
ghost use Rattle.hol_resolve.specs.ReadingView.{list_value, quoted_value};
ghost use Rattle.hol_exec.specs.Occurring.{constant_occurs};
ghost use Rattle.hol_exec.specs.Resolved.{occurs_in, occurs_in_quoted};

use hol_resolve::Quoted;
use hol_terms::{Term, TermNode};

// Whether a constant of the name occurs in the term, under whatever binders it stands.
#[tactic(auto, using(crate::proofs::Variables::place_none))]
fn constant_occurs(name: &str, term: &Term) -> bool
    ensures { (env : _) → result ≡ constant_occurs name.now (nameless env term.now) }
{
    match term.node() {
        TermNode::Var(_) => false,
        TermNode::Const(constant, _) => name == constant.as_str(),
        TermNode::Comb(function, argument) => {
            constant_occurs(name, function) || constant_occurs(name, argument)
        }
        TermNode::Abs(_, body) => constant_occurs(name, body),
    }
}

// Whether a constant of the name occurs in what a quotation reads as.
fn occurs_in_quoted(name: &str, quoted: &Quoted) -> bool
    ensures { result ≡ occurs_in_quoted name.now (quoted_value quoted.now) }
{
    match quoted {
        Quoted::Term(term) => constant_occurs(name, term),
        Quoted::Type(_) => false,
    }
}

/// Whether a constant of the name occurs in one of the readings.
pub(crate) fn occurs_in(name: &str, readings: &[(usize, Quoted)]) -> bool
    ensures { result ≡ occurs_in name.now (list_value readings.now) }
{
    for reading in readings {
        if occurs_in_quoted(name, &reading.1) {
            return true;
        }
    }
    false
}
