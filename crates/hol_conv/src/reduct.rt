//! What a redex becomes.
ghost use Rattle.std.specs.Prelude.{◌≡◌, ◌∷◌, [], IfOk, IfSome, MatchOption, Some, None};
ghost use Rattle.hol_terms.specs.Named.{comb, named_type};
ghost use Rattle.hol_terms.specs.Nameless.{nameless};
ghost use Rattle.hol_subst.specs.Closing.{open_with};
ghost use Rattle.hol_conv.specs.Beta.{reduct};

use hol_subst::vsubst_good;
use hol_terms::{Term, TermNode, Variable};
use std::alloc::{AllocError, Global};

/// What `f`, applied to `x`, becomes where it is an abstraction: its body, with `x` for the variable.
#[tactic(auto, using(crate::proofs::Reducts::reducts))]
pub(crate) fn reduct(alloc: Global, f: &Term, x: &Term) -> Result<Option<Term>, AllocError>
    requires fits { named_type (comb f.now x.now) ≡ None → ⊥ }
    ensures is { IfOk result (λ found. MatchOption found (reduct (nameless [] f.now) (nameless [] x.now) ≡ None) (λ u. reduct (nameless [] f.now) (nameless [] x.now) ≡ Some (nameless [] u))) }
    ensures typed { IfOk result (λ found. IfSome found (λ u. named_type u ≡ named_type (comb f.now x.now))) }
{
    match f.node() {
        TermNode::Abs(v, b) => Ok(Some(body_at(alloc, v, b, x)?)),
        TermNode::Var(_) | TermNode::Const(_, _) | TermNode::Comb(_, _) => Ok(None),
    }
}

/// The body of an abstraction of `v`, with `x` for it.
#[tactic(auto, using(crate::proofs::Reducts::bodies))]
pub fn body_at(alloc: Global, v: &Variable, b: &Term, x: &Term) -> Result<Term, AllocError>
    requires fits { named_type x.now ≡ Some v.now.1 }
    ensures is { IfOk result (λ u. nameless [] u ≡ open_with (nameless [] x.now) 0 (nameless (v.now ∷ []) b.now)) }
    ensures typed { IfOk result (λ u. named_type u ≡ named_type b.now) }
{
    let mut pairs = Vec::new(alloc);
    pairs.push((x.copy()?, Term::var(alloc, v)?))?;
    vsubst_good(alloc, &pairs, b)
}
