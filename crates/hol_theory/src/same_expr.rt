//! Whether expressions of functions on goals are the same.
ghost use Rattle.std.specs.Prelude.{◌≡◌, ◌↔◌, IsTrue, []};
ghost use Rattle.std.specs.Option.{option_map};
ghost use Rattle.hol_terms.specs.Nameless.{nameless};
ghost use Rattle.hol_goal.specs.ArgumentsView.{args_value};
ghost use Rattle.hol_combine.specs.ExprValue.{exprs};
ghost use Rattle.hol_combine.specs.ExprView.{call_value, theorem_tac_value, expr_of_handing};

use crate::same::same_theorem;
use hol_combine::{Expr, ExprNode, Handing, TacCall, TheoremTac};
use hol_goal::TacArgs;
use hol_kernel::{Given, GivenNode};
use hol_terms::Term;

/// Whether both are the same: indices, names and numbers, terms by their nameless terms, base names included, theorems with their bases. Chains are one
/// node, so that no two nodes are one expression.
#[cycle(same_expr)]
pub(crate) fn same_expr(left: &Expr, right: &Expr) -> bool
    ensures { IsTrue result ↔ (left.now ≡ right.now) }
{
    match left.node() {
        ExprNode::Call(call) => {
            let ExprNode::Call(other_call) = right.node() else {
                return false;
            };
            same_call(call, other_call)
        }
        ExprNode::Then(first, second, more) => {
            let ExprNode::Then(other_first, other_second, other_more) = right.node() else {
                return false;
            };
            same_expr(first, other_first)
                && same_expr(second, other_second)
                && same_exprs(more, other_more)
        }
        ExprNode::ThenL(first, parts) => {
            let ExprNode::ThenL(other_first, other_parts) = right.node() else {
                return false;
            };
            same_expr(first, other_first) && same_exprs(parts, other_parts)
        }
        ExprNode::OrElse(first, second, more) => {
            let ExprNode::OrElse(other_first, other_second, other_more) = right.node() else {
                return false;
            };
            same_expr(first, other_first)
                && same_expr(second, other_second)
                && same_exprs(more, other_more)
        }
        ExprNode::Try(part) => {
            let ExprNode::Try(other_part) = right.node() else {
                return false;
            };
            same_expr(part, other_part)
        }
        ExprNode::Repeat(part) => {
            let ExprNode::Repeat(other_part) = right.node() else {
                return false;
            };
            same_expr(part, other_part)
        }
        ExprNode::Every(parts) => {
            let ExprNode::Every(other_parts) = right.node() else {
                return false;
            };
            same_exprs(parts, other_parts)
        }
        ExprNode::First(parts) => {
            let ExprNode::First(other_parts) = right.node() else {
                return false;
            };
            same_exprs(parts, other_parts)
        }
        ExprNode::Replicate(times, part) => {
            let ExprNode::Replicate(other_times, other_part) = right.node() else {
                return false;
            };
            *times == *other_times && same_expr(part, other_part)
        }
        ExprNode::Changed(part) => {
            let ExprNode::Changed(other_part) = right.node() else {
                return false;
            };
            same_expr(part, other_part)
        }
        ExprNode::Hand(how, tac) => {
            let ExprNode::Hand(other_how, other_tac) = right.node() else {
                return false;
            };
            same_handing(how, tac, other_how, other_tac)
        }
        ExprNode::Defined(more, part) => {
            let ExprNode::Defined(other_more, other_part) = right.node() else {
                return false;
            };
            *more == *other_more && same_expr(part, other_part)
        }
    }
}

// Whether the expressions are the same, one by one.
#[cycle(same_expr)]
fn same_exprs(left: &[Expr], right: &[Expr]) -> bool
    ensures { IsTrue result ↔ (left.now ≡ right.now) }
{
    if left.len() != right.len() {
        return false;
    }
    for (i, expr) in left.iter().enumerate() {
        if !same_expr(expr, &right[i]) {
            return false;
        }
    }
    true
}

fn same_call(left: &TacCall, right: &TacCall) -> bool
    ensures { IsTrue result ↔ (call_value left.now ≡ call_value right.now) }
{
    left.index == right.index
        && left.name.as_str() == right.name.as_str()
        && same_args(&left.args, &right.args)
}

// Whether a theorem from the same place is handed to the same function.
fn same_handing(
    how: &Handing,
    tac: &TheoremTac,
    other_how: &Handing,
    other_tac: &TheoremTac,
) -> bool
    ensures { IsTrue result ↔ (expr_of_handing how.now (theorem_tac_value tac.now) ≡ expr_of_handing other_how.now (theorem_tac_value other_tac.now)) }
{
    same_place(how, other_how) && same_theorem_tac(tac, other_tac)
}

// Whether the theorem that is handed comes from the same place.
fn same_place(left: &Handing, right: &Handing) -> bool
    ensures { IsTrue result ↔ (left.now ≡ right.now) }
{
    match (left, right) {
        (Handing::DischThen, Handing::DischThen)
        | (Handing::PopAssum, Handing::PopAssum)
        | (Handing::FirstAssum, Handing::FirstAssum) => true,
        (Handing::SubgoalThen(p), Handing::SubgoalThen(other_p)) => p.term().same(other_p.term()),
        (Handing::DischThen, Handing::PopAssum | Handing::FirstAssum | Handing::SubgoalThen(_))
        | (Handing::PopAssum, Handing::DischThen | Handing::FirstAssum | Handing::SubgoalThen(_))
        | (Handing::FirstAssum, Handing::DischThen | Handing::PopAssum | Handing::SubgoalThen(_))
        | (Handing::SubgoalThen(_), Handing::DischThen | Handing::PopAssum | Handing::FirstAssum) =>
            false,
    }
}

fn same_theorem_tac(left: &TheoremTac, right: &TheoremTac) -> bool
    ensures { IsTrue result ↔ (theorem_tac_value left.now ≡ theorem_tac_value right.now) }
{
    left.index == right.index
        && left.name.as_str() == right.name.as_str()
        && same_written(&left.term, &right.term)
}

fn same_written(left: &Option<Term>, right: &Option<Term>) -> bool
    ensures { IsTrue result ↔ (option_map (nameless []) left.now ≡ option_map (nameless []) right.now) }
{
    match (left, right) {
        (None, None) => true,
        (Some(t), Some(other_t)) => t.same(other_t),
        (None, Some(_)) | (Some(_), None) => false,
    }
}

fn same_args(left: &TacArgs, right: &TacArgs) -> bool
    ensures { IsTrue result ↔ (args_value left.now ≡ args_value right.now) }
{
    match left {
        TacArgs::Nothing => matches!(right, TacArgs::Nothing),
        TacArgs::Term(t) => {
            let TacArgs::Term(other_t) = right else {
                return false;
            };
            t.same(other_t)
        }
        TacArgs::Pair(s, t) => {
            let TacArgs::Pair(other_s, other_t) = right else {
                return false;
            };
            s.same(other_s) && t.same(other_t)
        }
        TacArgs::Theorem(th) => {
            let TacArgs::Theorem(other_th) = right else {
                return false;
            };
            same_given(th, other_th)
        }
        TacArgs::TermAndTheorem(t, th) => {
            let TacArgs::TermAndTheorem(other_t, other_th) = right else {
                return false;
            };
            t.same(other_t) && same_given(th, other_th)
        }
        TacArgs::Theorems(ths) => {
            let TacArgs::Theorems(other_ths) = right else {
                return false;
            };
            same_givens(ths, other_ths)
        }
    }
}

// Whether what is given is the same, one by one.
fn same_givens(left: &[Given], right: &[Given]) -> bool
    ensures { IsTrue result ↔ (left.now ≡ right.now) }
{
    if left.len() != right.len() {
        return false;
    }
    for (i, given) in left.iter().enumerate() {
        if !same_given(given, &right[i]) {
            return false;
        }
    }
    true
}

fn same_given(left: &Given, right: &Given) -> bool
    ensures { IsTrue result ↔ (left.now ≡ right.now) }
{
    match (left.node(), right.node()) {
        (GivenNode::Theorem(th), GivenNode::Theorem(other_th)) => same_theorem(th, other_th),
        (GivenNode::Assumed(p), GivenNode::Assumed(other_p)) => p.same(other_p),
        (GivenNode::Theorem(_), GivenNode::Assumed(_))
        | (GivenNode::Assumed(_), GivenNode::Theorem(_)) => false,
    }
}
