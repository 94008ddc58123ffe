//! What the productions of tactic expressions build.
ghost use Rattle.std.specs.Prelude.{◌≡◌, ◌∷◌, [], reverse, IfOk};
ghost use Rattle.hol_notation_grammar.specs.declared.grammar.Production.TheVariants.{SequenceFirst, NoAlternative, OrElseTactic, ApplicationFirst, NoStep, ThenOne, ThenEach, Called, BracketedTactic, EveryTactic, FirstTactic, RepeatTactic, TryTactic, ChangedTactic, ReplicateTactic, Discharge, PopAssumption, FirstAssumption, Subgoal, NamedAtom, ListedTactics, NoTactics, SomeTactics, NextTactic};
ghost use Rattle.hol_notation_grammar.specs.Table.{symbols};
ghost use Rattle.hol_notation_reader.specs.Piece.{AreOf};
ghost use Rattle.hol_notation_reader.specs.Build.{reduced, then_all};
ghost use Rattle.hol_notation_tactics.specs.TacView.{tac_of_node};
ghost use Rattle.hol_notation_reader.specs.Piece.{a_tactic};
ghost use Rattle.hol_notation_reader.specs.View.{then_texts};
ghost use Rattle.hol_notation_reader.specs.View.{pieces_of};

use crate::arguments::call;
use crate::piece::{
    Piece, ThenStep, pop_arguments, pop_call, pop_maybe_tactic, pop_quotation, pop_steps,
    pop_tactic, pop_tactics, pop_word, push,
};
use hol_notation_grammar::number_value;
use hol_notation_tactics::{TacExpr, TacExprNode};
use std::alloc::{AllocError, Global};

fn push_tactic(
    alloc: Global,
    pieces: &mut Vec<Piece<'_>>,
    node: TacExprNode,
) -> Result<(), AllocError>
    ensures { IfOk result (λ _. pieces_of pieces.new.items ≡ a_tactic (tac_of_node node) ∷ pieces_of pieces.old.items) }
{
    push(pieces, Piece::Tactic(TacExpr::new(alloc, node)?))
}

// What stands behind THEN and THENL applied to the tactic expression, the last of the list first.
fn then_all(alloc: Global, tactic: TacExpr, steps: Vec<ThenStep>) -> Result<TacExpr, AllocError>
    ensures { IfOk result (λ whole. whole ≡ then_all tactic (reverse (then_texts steps.items))) }
{
    let mut left = steps;
    let mut whole = tactic;
    while let Some(step) = left.pop() {
        let node = match step {
            ThenStep::One(next) => TacExprNode::Then(whole, next),
            ThenStep::Each(others) => TacExprNode::ThenL(whole, others),
        };
        whole = TacExpr::new(alloc, node)?;
    }
    Ok(whole)
}

pub(crate) fn sequence_first(alloc: Global, pieces: &mut Vec<Piece<'_>>) -> Result<(), AllocError>
    requires { AreOf (symbols SequenceFirst) (pieces_of pieces.old.items) }
    ensures { IfOk result (λ _. pieces_of pieces.new.items ≡ reduced SequenceFirst (pieces_of pieces.old.items)) }
{
    let first = pop_tactic(pieces);
    let tactic = match pop_maybe_tactic(pieces) {
        Some(second) => TacExpr::new(alloc, TacExprNode::OrElse(first, second))?,
        None => first,
    };
    push(pieces, Piece::Tactic(tactic))
}

pub(crate) fn no_alternative(pieces: &mut Vec<Piece<'_>>) -> Result<(), AllocError>
    requires { AreOf (symbols NoAlternative) (pieces_of pieces.old.items) }
    ensures { IfOk result (λ _. pieces_of pieces.new.items ≡ reduced NoAlternative (pieces_of pieces.old.items)) }
{
    push(pieces, Piece::MaybeTactic(None))
}

pub(crate) fn or_else_tactic(pieces: &mut Vec<Piece<'_>>) -> Result<(), AllocError>
    requires { AreOf (symbols OrElseTactic) (pieces_of pieces.old.items) }
    ensures { IfOk result (λ _. pieces_of pieces.new.items ≡ reduced OrElseTactic (pieces_of pieces.old.items)) }
{
    let _or_else = pop_word(pieces);
    let tactic = pop_tactic(pieces);
    push(pieces, Piece::MaybeTactic(Some(tactic)))
}

pub(crate) fn application_first(
    alloc: Global,
    pieces: &mut Vec<Piece<'_>>,
) -> Result<(), AllocError>
    requires { AreOf (symbols ApplicationFirst) (pieces_of pieces.old.items) }
    ensures { IfOk result (λ _. pieces_of pieces.new.items ≡ reduced ApplicationFirst (pieces_of pieces.old.items)) }
{
    let first = pop_tactic(pieces);
    let steps = pop_steps(pieces);
    let tactic = then_all(alloc, first, steps)?;
    push(pieces, Piece::Tactic(tactic))
}

pub(crate) fn no_step(alloc: Global, pieces: &mut Vec<Piece<'_>>) -> Result<(), AllocError>
    requires { AreOf (symbols NoStep) (pieces_of pieces.old.items) }
    ensures { IfOk result (λ _. pieces_of pieces.new.items ≡ reduced NoStep (pieces_of pieces.old.items)) }
{
    push(pieces, Piece::Steps(Vec::new(alloc)))
}

pub(crate) fn then_one(pieces: &mut Vec<Piece<'_>>) -> Result<(), AllocError>
    requires { AreOf (symbols ThenOne) (pieces_of pieces.old.items) }
    ensures { IfOk result (λ _. pieces_of pieces.new.items ≡ reduced ThenOne (pieces_of pieces.old.items)) }
{
    let _then = pop_word(pieces);
    let tactic = pop_tactic(pieces);
    let mut steps = pop_steps(pieces);
    steps.push(ThenStep::One(tactic))?;
    push(pieces, Piece::Steps(steps))
}

pub(crate) fn then_each(pieces: &mut Vec<Piece<'_>>) -> Result<(), AllocError>
    requires { AreOf (symbols ThenEach) (pieces_of pieces.old.items) }
    ensures { IfOk result (λ _. pieces_of pieces.new.items ≡ reduced ThenEach (pieces_of pieces.old.items)) }
{
    let _then = pop_word(pieces);
    let mut tactics = pop_tactics(pieces);
    let mut steps = pop_steps(pieces);
    tactics.reverse();
    steps.push(ThenStep::Each(tactics))?;
    push(pieces, Piece::Steps(steps))
}

pub(crate) fn called(alloc: Global, pieces: &mut Vec<Piece<'_>>) -> Result<(), AllocError>
    requires { AreOf (symbols Called) (pieces_of pieces.old.items) }
    ensures { IfOk result (λ _. pieces_of pieces.new.items ≡ reduced Called (pieces_of pieces.old.items)) }
{
    let name = pop_word(pieces);
    let arguments = pop_arguments(pieces);
    let tactic = call(alloc, name.text, arguments)?;
    push_tactic(alloc, pieces, TacExprNode::Call(tactic))
}

pub(crate) fn bracketed_tactic(pieces: &mut Vec<Piece<'_>>) -> Result<(), AllocError>
    requires { AreOf (symbols BracketedTactic) (pieces_of pieces.old.items) }
    ensures { IfOk result (λ _. pieces_of pieces.new.items ≡ reduced BracketedTactic (pieces_of pieces.old.items)) }
{
    let _open = pop_word(pieces);
    let tactic = pop_tactic(pieces);
    let _close = pop_word(pieces);
    push(pieces, Piece::Tactic(tactic))
}

pub(crate) fn every_tactic(alloc: Global, pieces: &mut Vec<Piece<'_>>) -> Result<(), AllocError>
    requires { AreOf (symbols EveryTactic) (pieces_of pieces.old.items) }
    ensures { IfOk result (λ _. pieces_of pieces.new.items ≡ reduced EveryTactic (pieces_of pieces.old.items)) }
{
    let _tactical = pop_word(pieces);
    let mut tactics = pop_tactics(pieces);
    tactics.reverse();
    push_tactic(alloc, pieces, TacExprNode::Every(tactics))
}

pub(crate) fn first_tactic(alloc: Global, pieces: &mut Vec<Piece<'_>>) -> Result<(), AllocError>
    requires { AreOf (symbols FirstTactic) (pieces_of pieces.old.items) }
    ensures { IfOk result (λ _. pieces_of pieces.new.items ≡ reduced FirstTactic (pieces_of pieces.old.items)) }
{
    let _tactical = pop_word(pieces);
    let mut tactics = pop_tactics(pieces);
    tactics.reverse();
    push_tactic(alloc, pieces, TacExprNode::First(tactics))
}

pub(crate) fn repeat_tactic(alloc: Global, pieces: &mut Vec<Piece<'_>>) -> Result<(), AllocError>
    requires { AreOf (symbols RepeatTactic) (pieces_of pieces.old.items) }
    ensures { IfOk result (λ _. pieces_of pieces.new.items ≡ reduced RepeatTactic (pieces_of pieces.old.items)) }
{
    let _tactical = pop_word(pieces);
    let tactic = pop_tactic(pieces);
    push_tactic(alloc, pieces, TacExprNode::Repeat(tactic))
}

pub(crate) fn try_tactic(alloc: Global, pieces: &mut Vec<Piece<'_>>) -> Result<(), AllocError>
    requires { AreOf (symbols TryTactic) (pieces_of pieces.old.items) }
    ensures { IfOk result (λ _. pieces_of pieces.new.items ≡ reduced TryTactic (pieces_of pieces.old.items)) }
{
    let _tactical = pop_word(pieces);
    let tactic = pop_tactic(pieces);
    push_tactic(alloc, pieces, TacExprNode::Try(tactic))
}

pub(crate) fn changed_tactic(alloc: Global, pieces: &mut Vec<Piece<'_>>) -> Result<(), AllocError>
    requires { AreOf (symbols ChangedTactic) (pieces_of pieces.old.items) }
    ensures { IfOk result (λ _. pieces_of pieces.new.items ≡ reduced ChangedTactic (pieces_of pieces.old.items)) }
{
    let _tactical = pop_word(pieces);
    let tactic = pop_tactic(pieces);
    push_tactic(alloc, pieces, TacExprNode::Changed(tactic))
}

pub(crate) fn replicate_tactic(alloc: Global, pieces: &mut Vec<Piece<'_>>) -> Result<(), AllocError>
    requires { AreOf (symbols ReplicateTactic) (pieces_of pieces.old.items) }
    ensures { IfOk result (λ _. pieces_of pieces.new.items ≡ reduced ReplicateTactic (pieces_of pieces.old.items)) }
{
    let _tactical = pop_word(pieces);
    let number = pop_word(pieces);
    let tactic = pop_tactic(pieces);
    let node = TacExprNode::Replicate(number_value(number.text), tactic);
    push_tactic(alloc, pieces, node)
}

pub(crate) fn discharge(alloc: Global, pieces: &mut Vec<Piece<'_>>) -> Result<(), AllocError>
    requires { AreOf (symbols Discharge) (pieces_of pieces.old.items) }
    ensures { IfOk result (λ _. pieces_of pieces.new.items ≡ reduced Discharge (pieces_of pieces.old.items)) }
{
    let _tactical = pop_word(pieces);
    let tactic = pop_call(pieces);
    push_tactic(alloc, pieces, TacExprNode::DischThen(tactic))
}

pub(crate) fn pop_assumption(alloc: Global, pieces: &mut Vec<Piece<'_>>) -> Result<(), AllocError>
    requires { AreOf (symbols PopAssumption) (pieces_of pieces.old.items) }
    ensures { IfOk result (λ _. pieces_of pieces.new.items ≡ reduced PopAssumption (pieces_of pieces.old.items)) }
{
    let _tactical = pop_word(pieces);
    let tactic = pop_call(pieces);
    push_tactic(alloc, pieces, TacExprNode::PopAssum(tactic))
}

pub(crate) fn first_assumption(alloc: Global, pieces: &mut Vec<Piece<'_>>) -> Result<(), AllocError>
    requires { AreOf (symbols FirstAssumption) (pieces_of pieces.old.items) }
    ensures { IfOk result (λ _. pieces_of pieces.new.items ≡ reduced FirstAssumption (pieces_of pieces.old.items)) }
{
    let _tactical = pop_word(pieces);
    let tactic = pop_call(pieces);
    push_tactic(alloc, pieces, TacExprNode::FirstAssum(tactic))
}

pub(crate) fn subgoal(alloc: Global, pieces: &mut Vec<Piece<'_>>) -> Result<(), AllocError>
    requires { AreOf (symbols Subgoal) (pieces_of pieces.old.items) }
    ensures { IfOk result (λ _. pieces_of pieces.new.items ≡ reduced Subgoal (pieces_of pieces.old.items)) }
{
    let _tactical = pop_word(pieces);
    let formula = pop_quotation(pieces);
    let tactic = pop_call(pieces);
    push_tactic(alloc, pieces, TacExprNode::SubgoalThen(formula, tactic))
}

pub(crate) fn named_atom(alloc: Global, pieces: &mut Vec<Piece<'_>>) -> Result<(), AllocError>
    requires { AreOf (symbols NamedAtom) (pieces_of pieces.old.items) }
    ensures { IfOk result (λ _. pieces_of pieces.new.items ≡ reduced NamedAtom (pieces_of pieces.old.items)) }
{
    let name = pop_word(pieces);
    let tactic = call(alloc, name.text, Vec::new(alloc))?;
    push_tactic(alloc, pieces, TacExprNode::Call(tactic))
}

pub(crate) fn listed_tactics(pieces: &mut Vec<Piece<'_>>) -> Result<(), AllocError>
    requires { AreOf (symbols ListedTactics) (pieces_of pieces.old.items) }
    ensures { IfOk result (λ _. pieces_of pieces.new.items ≡ reduced ListedTactics (pieces_of pieces.old.items)) }
{
    let _open = pop_word(pieces);
    let tactics = pop_tactics(pieces);
    push(pieces, Piece::Tactics(tactics))
}

pub(crate) fn no_tactics(alloc: Global, pieces: &mut Vec<Piece<'_>>) -> Result<(), AllocError>
    requires { AreOf (symbols NoTactics) (pieces_of pieces.old.items) }
    ensures { IfOk result (λ _. pieces_of pieces.new.items ≡ reduced NoTactics (pieces_of pieces.old.items)) }
{
    let _close = pop_word(pieces);
    push(pieces, Piece::Tactics(Vec::new(alloc)))
}

pub(crate) fn some_tactics(pieces: &mut Vec<Piece<'_>>) -> Result<(), AllocError>
    requires { AreOf (symbols SomeTactics) (pieces_of pieces.old.items) }
    ensures { IfOk result (λ _. pieces_of pieces.new.items ≡ reduced SomeTactics (pieces_of pieces.old.items)) }
{
    let tactic = pop_tactic(pieces);
    let mut tactics = pop_tactics(pieces);
    tactics.push(tactic)?;
    push(pieces, Piece::Tactics(tactics))
}

pub(crate) fn next_tactic(pieces: &mut Vec<Piece<'_>>) -> Result<(), AllocError>
    requires { AreOf (symbols NextTactic) (pieces_of pieces.old.items) }
    ensures { IfOk result (λ _. pieces_of pieces.new.items ≡ reduced NextTactic (pieces_of pieces.old.items)) }
{
    let _semicolon = pop_word(pieces);
    let tactic = pop_tactic(pieces);
    let mut tactics = pop_tactics(pieces);
    tactics.push(tactic)?;
    push(pieces, Piece::Tactics(tactics))
}
