//! Applications and abstractions made again of what became of their parts: the same nodes, where these are the same.
ghost use Rattle.std.specs.Prelude.{◌≡◌, IfOk, IfSome, IsSome, Some};
ghost use Rattle.hol_types.specs.Tree.{TypeTree};
ghost use Rattle.hol_terms.specs.Named.{comb, abs, named_type};

use hol_terms::{Term, TermNode, Variable};
use std::alloc::{AllocError, Global};

/// The application of what became of `f` to what became of `x`: `t`, which is that of these two, where both are the same nodes. It fits if
/// the types of `t` still fit.
#[inline(never)]
pub(crate) fn changed_application(
    alloc: Global,
    t: &Term,
    f: &Term,
    g: Term,
    x: &Term,
    y: Term,
) -> Result<Term, AllocError>
    requires is { t.now ≡ comb f.now x.now }
    requires fits { (s : TypeTree) → named_type t.now ≡ Some s → IsSome (named_type (comb g y)) }
    ensures { IfOk result (λ r. r ≡ comb g y) }
{
    if g.same_node(f) && y.same_node(x) {
        return t.copy();
    }
    // It has a type, so `t` is known to be well typed.
    let _ty = t.type_of();
    Term::application(alloc, &g, &y)
}

/// The same where `f` is the application of `h` to the argument too, of which `k` and `y` came.
#[inline(never)]
pub(crate) fn changed_twice(
    alloc: Global,
    t: &Term,
    f: &Term,
    h: &Term,
    k: Term,
    x: &Term,
    y: Term,
) -> Result<Term, AllocError>
    requires is { t.now ≡ comb f.now x.now }
    requires function { f.now ≡ comb h.now x.now }
    requires fits { (s : TypeTree) → named_type t.now ≡ Some s → IsSome (named_type (comb (comb k y) y)) }
    requires function_fits { (s : TypeTree) → named_type f.now ≡ Some s → IsSome (named_type (comb k y)) }
    ensures { IfOk result (λ r. r ≡ comb (comb k y) y) }
{
    let own = y.copy()?;
    let g = changed_application(alloc, f, h, k, x, own)?;
    changed_application(alloc, t, f, g, x, y)
}

/// `h`, where `f` is the application of `h` to a term that has the node of `x`: so what becomes of `x` is found once in `f x`, as in an
/// equation of a term and itself.
pub(crate) fn operator<'a>(f: &'a Term, x: &Term) -> Option<&'a Term>
    ensures { IfSome result (λ h. f.now ≡ comb h.now x.now) }
{
    let TermNode::Comb(h, z) = f.node() else {
        return None;
    };
    if z.same_node(x) { Some(h) } else { None }
}

/// The abstraction of `u` in what became of `b`: `t`, which is that of `v` in `b`, where `u` is `v` and `c` is the same node.
#[inline(never)]
pub(crate) fn changed_abstraction(
    alloc: Global,
    t: &Term,
    v: &Variable,
    u: &Variable,
    b: &Term,
    c: Term,
) -> Result<Term, AllocError>
    requires { t.now ≡ abs v.now b.now }
    ensures { IfOk result (λ r. r ≡ abs u.now c) }
{
    if c.same_node(b) && u.same(v) {
        return t.copy();
    }
    Term::abstraction(alloc, u, &c)
}
