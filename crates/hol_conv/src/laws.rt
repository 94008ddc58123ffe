//! Laws of rewriting.
ghost use Rattle.hol_conv.specs.Once.{OnceReplacesTopmost};

/// Where replacing each topmost redex once comes to an end, the term is the one with each of them replaced, and each has cost a turn.
#[tactic(auto, using(crate::proofs::OnceLaws::topmost_replaced))]
pub fn once_replaces_topmost()
    ensures { OnceReplacesTopmost }
{}
