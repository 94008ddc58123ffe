//! What of a term is seen without its variables and types.
ghost use Rattle.std.specs.Prelude.{◌≡◌, ◌≤◌, ◌<◌, [], MatchOption};
ghost use Rattle.hol_terms.specs.Size.{named_size};
ghost use Rattle.hol_terms.specs.Nameless.{nameless};
ghost use Rattle.hol_match.specs.Outlines.{is_named, is_abstraction, is_variable, may_match, depth};

use hol_terms::{Term, TermNode};
use hol_types::Name;

/// Whether the pattern may match the term: where it is a constant, the term is one of its name; where it is an application, so is the
/// term, and its parts may match; where it is an abstraction, so is the term.
pub(crate) fn may_match(pattern: &Term, t: &Term) -> bool
    ensures { result ≡ may_match (nameless [] pattern.now) (nameless [] t.now) }
{
    match pattern.node() {
        TermNode::Var(_) => true,
        TermNode::Const(name, _) => is_named(name, t),
        TermNode::Comb(p, q) => match t.node() {
            TermNode::Comb(f, x) => may_match(p, f) && may_match(q, x),
            TermNode::Var(_) | TermNode::Const(_, _) | TermNode::Abs(_, _) => false,
        },
        TermNode::Abs(_, _) => is_abstraction(t),
    }
}

// Whether the term is a constant of the name.
fn is_named(name: &Name, t: &Term) -> bool
    ensures { result ≡ is_named name.now (nameless [] t.now) }
{
    match t.node() {
        TermNode::Const(own, _) => name.same(own),
        TermNode::Var(_) | TermNode::Comb(_, _) | TermNode::Abs(_, _) => false,
    }
}

// Whether the term is an abstraction.
fn is_abstraction(t: &Term) -> bool
    ensures { result ≡ is_abstraction (nameless [] t.now) }
{
    match t.node() {
        TermNode::Abs(_, _) => true,
        TermNode::Var(_) | TermNode::Const(_, _) | TermNode::Comb(_, _) => false,
    }
}

/// Whether the term is a variable.
pub(crate) fn is_variable(t: &Term) -> bool
    ensures { result ≡ is_variable (nameless [] t.now) }
{
    match t.node() {
        TermNode::Var(_) => true,
        TermNode::Const(_, _) | TermNode::Comb(_, _) | TermNode::Abs(_, _) => false,
    }
}

/// How many levels of a term are looked at where this is the pattern; `None` for a pattern of more than 20,000 nodes.
pub(crate) fn depth(pattern: &Term) -> Option<usize>
    ensures { MatchOption result (20000 < named_size pattern.now) (λ d. (d ≡ depth (nameless [] pattern.now)) × (named_size pattern.now ≤ 20000)) }
{
    if pattern.size() > 20_000 {
        return None;
    }
    Some(levels(pattern))
}

// The same of such a pattern: each node is met at each place where it stands.
fn levels(pattern: &Term) -> usize
    requires { named_size pattern.now ≤ 20000 }
    ensures levels { result ≡ depth (nameless [] pattern.now) }
    ensures bounded { result ≤ named_size pattern.now }
{
    match pattern.node() {
        TermNode::Comb(p, q) => levels(p).max(levels(q)) + 1,
        TermNode::Var(_) | TermNode::Const(_, _) | TermNode::Abs(_, _) => 1,
    }
}
