//! Sizes of expressions, up to 20,001.
ghost use Rattle.std.specs.Prelude.{◌≡◌, ◌≤◌, ◌+◌, length, min};
ghost use Rattle.hol_goal.specs.ArgumentsView.{args_value};
ghost use Rattle.hol_combine.specs.ExprSize.{given_size, givens_size, args_size, tac_size, expr_size, exprs_size};
ghost use Rattle.hol_combine.specs.ExprValue.{exprs};
ghost use Rattle.hol_combine.specs.ExprView.{expr_of_handing, expr_of_node, theorem_tac_value};

use crate::expr::{Expr, ExprNode, Handing, TheoremTac};
use hol_goal::{TacArgs, total_size};
use hol_kernel::{Given, GivenNode};

// The most that a size says.
const LARGEST_SIZE: u32 = 20_001;

/// The size of the expression with this top node, or 20,001 for more. No part is gone into: each keeps its size.
#[tactic(auto, using(crate::proofs::SizeSums::then_size, crate::proofs::SizeSums::or_size, crate::proofs::SizeSums::used_size))]
pub(crate) fn node_size(node: &ExprNode) -> u32
    ensures { result ≡ min (expr_size (expr_of_node node.now)) 20001 }
{
    match node {
        ExprNode::Call(call) => plus(1, args_size(&call.args)),
        ExprNode::Then(first, second, more) | ExprNode::OrElse(first, second, more) => {
            let two = plus(first.size(), plus(1, second.size()));
            plus(two, chain_size(more))
        }
        ExprNode::ThenL(first, parts) => plus(plus(1, first.size()), parts_size(parts)),
        ExprNode::Try(part)
        | ExprNode::Repeat(part)
        | ExprNode::Changed(part)
        | ExprNode::Replicate(_, part) => plus(1, part.size()),
        ExprNode::Every(parts) | ExprNode::First(parts) => plus(1, parts_size(parts)),
        ExprNode::Hand(how, tac) => handing_size(how, tac),
        ExprNode::Defined(_, part) => part.size(),
    }
}

// The sum of two sizes.
fn plus(size: u32, more: u32) -> u32
    requires size { size ≤ 20001 }
    requires more { more ≤ 20001 }
    ensures { result ≡ min (size + more) 20001 }
{
    (size + more).min(LARGEST_SIZE)
}

fn parts_size(parts: &[Expr]) -> u32
    ensures { result ≡ min (exprs_size (exprs parts.now)) 20001 }
{
    let mut size = 0;
    for part in parts {
        size = plus(size, part.size());
    }
    size
}

// Of expressions each of which has a tactical before it.
fn chain_size(parts: &[Expr]) -> u32
    ensures { result ≡ min (length parts.now + exprs_size (exprs parts.now)) 20001 }
{
    let mut size = 0;
    for part in parts {
        size = plus(size, plus(1, part.size()));
    }
    size
}

fn handing_size(how: &Handing, tac: &TheoremTac) -> u32
    ensures { result ≡ min (expr_size (expr_of_handing how.now (theorem_tac_value tac.now))) 20001 }
{
    match how {
        Handing::DischThen | Handing::PopAssum | Handing::FirstAssum => plus(1, tac_size(tac)),
        Handing::SubgoalThen(p) => plus(plus(2, p.term().size()), tac_size(tac)),
    }
}

fn tac_size(tac: &TheoremTac) -> u32
    ensures { result ≡ min (tac_size (theorem_tac_value tac.now)) 20001 }
{
    match &tac.term {
        None => 1,
        Some(t) => plus(2, t.size()),
    }
}

fn args_size(args: &TacArgs) -> u32
    ensures { result ≡ min (args_size (args_value args.now)) 20001 }
{
    match args {
        TacArgs::Nothing => 0,
        TacArgs::Term(t) => plus(1, t.size()),
        TacArgs::Pair(s, t) => plus(plus(1, s.size()), t.size()),
        TacArgs::Theorem(th) => plus(1, given_size(th)),
        TacArgs::TermAndTheorem(t, th) => plus(plus(2, t.size()), given_size(th)),
        TacArgs::Theorems(ths) => plus(1, givens_size(ths)),
    }
}

fn givens_size(givens: &[Given]) -> u32
    ensures { result ≡ min (givens_size givens.now) 20001 }
{
    let mut size = 0;
    for given in givens {
        size = plus(size, given_size(given));
    }
    size
}

fn given_size(given: &Given) -> u32
    ensures { result ≡ min (given_size given.now) 20001 }
{
    match given.node() {
        GivenNode::Theorem(th) => total_size(th.hyps(), th.concl()),
        GivenNode::Assumed(p) => plus(p.size(), p.size()),
    }
}
