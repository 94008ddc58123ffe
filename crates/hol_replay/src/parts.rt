//! Terms taken apart.
ghost use Rattle.std.specs.Prelude.{◌≡◌};
ghost use Rattle.hol_terms.specs.Named.{comb, abs};
ghost use Rattle.hol_replay.specs.Parts.{IsApplication, IsAbstraction};

use hol_terms::{Term, TermNode, Variable};

/// The function and the argument of an application.
pub(crate) fn application(t: &Term) -> (&Term, &Term)
    requires { IsApplication t.now }
    ensures { t.now ≡ comb result.0.now result.1.now }
{
    match t.node() {
        TermNode::Comb(f, x) => (f, x),
        TermNode::Var(_) | TermNode::Const(_, _) | TermNode::Abs(_, _) => unreachable!(),
    }
}

/// The variable and the body of an abstraction.
pub(crate) fn abstraction(t: &Term) -> (&Variable, &Term)
    requires { IsAbstraction t.now }
    ensures { t.now ≡ abs result.0.now result.1.now }
{
    match t.node() {
        TermNode::Abs(v, b) => (v, b),
        TermNode::Var(_) | TermNode::Const(_, _) | TermNode::Comb(_, _) => unreachable!(),
    }
}
