//! What is still to be done around the part of an expression that is run.
use crate::expr::Expr;
use crate::ran::{Ran, Refusal};
use crate::work::Work;
use hol_goal::{Goal, Used};

/// What is still to be done with what a part comes to.
#[derive(Drop)]
pub(crate) enum Pending<'a> {
    /// EVERY of the first expressions on each goal that it leaves, and then each of the others on all of them.
    Then {
        parts: &'a [Expr],
        more: &'a [Expr],
    },
    /// The same, where it is that of one of these goals.
    Each {
        parts: &'a [Expr],
        more: &'a [Expr],
        work: Work,
    },
    /// Each of the expressions on the goal of its place.
    ThenL {
        parts: &'a [Expr],
    },
    /// The same, where it is that of one of these goals, and the expressions are those of the goals that wait.
    Places {
        parts: &'a [Expr],
        work: Work,
    },
    /// Where it is refused, the next expression, and where that is so too the others, on the goal.
    OrElse {
        goal: Goal,
        next: &'a Expr,
        more: &'a [Expr],
    },
    /// Where it is refused, the goal as it is.
    Try {
        goal: Goal,
    },
    /// A refusal, where it leaves the goal as it is.
    Changed {
        goal: Goal,
    },
    /// More rounds of REPEAT, on what it leaves of the goal, or where it is refused on those that wait.
    Repeat {
        part: &'a Expr,
        goal: Goal,
        work: Work,
    },
    /// So many more rounds of REPLICATE_TAC on what it leaves of one of these goals; of those that wait, each has one round and so
    /// many more, the first one last.
    Replicate {
        part: &'a Expr,
        more: usize,
        rounds: Vec<usize>,
        work: Work,
    },
}

/// What a run has come to.
#[derive(Drop)]
pub(crate) enum Reached<'a> {
    /// An expression is to be run on a goal.
    Part(&'a Expr, Goal, Used),
    /// One that was run left goals.
    Left(Ran),
    /// One that was run was refused.
    Refused(Refusal, Used),
}
