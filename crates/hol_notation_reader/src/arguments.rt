//! What the productions of the arguments of TACs build.
ghost use Rattle.std.specs.Prelude.{◌≡◌, ◌∷◌, [], reverse, IfOk};
ghost use Rattle.hol_notation_grammar.specs.declared.grammar.Production.TheVariants.{NoTacticArgument, MoreTacticArguments, TheoremArgument, TermArgument, GroupedArgument, ListedArgument, OneTheorem, TwoTerms, NamedTheoremTactic, BracketedTheoremTactic};
ghost use Rattle.hol_notation_grammar.specs.Table.{symbols};
ghost use Rattle.hol_notation_reader.specs.Piece.{AreOf};
ghost use Rattle.hol_notation_reader.specs.Build.{reduced, call};
ghost use Rattle.hol_notation_reader.specs.View.{pieces_of};

use crate::piece::{
    Piece, pop_argument, pop_arguments, pop_quotation, pop_theorem, pop_theorems, pop_word, push,
};
use crate::theorems::citation;
use hol_notation_tactics::{TacArg, TacArgNode, TacCall};
use std::alloc::{AllocError, Global};

/// A call of a TAC; its arguments stand in reverse.
pub(crate) fn call(alloc: Global, name: &str, arguments: Vec<TacArg>) -> Result<TacCall, AllocError>
    ensures { IfOk result (λ tactic. tactic ≡ call name.now (reverse arguments.items)) }
{
    let mut arguments = arguments;
    arguments.reverse();
    let name = String::from_str(alloc, name)?;
    Ok(TacCall { name, arguments })
}

pub(crate) fn no_tactic_argument(
    alloc: Global,
    pieces: &mut Vec<Piece<'_>>,
) -> Result<(), AllocError>
    requires { AreOf (symbols NoTacticArgument) (pieces_of pieces.old.items) }
    ensures { IfOk result (λ _. pieces_of pieces.new.items ≡ reduced NoTacticArgument (pieces_of pieces.old.items)) }
{
    push(pieces, Piece::Arguments(Vec::new(alloc)))
}

pub(crate) fn more_tactic_arguments(pieces: &mut Vec<Piece<'_>>) -> Result<(), AllocError>
    requires { AreOf (symbols MoreTacticArguments) (pieces_of pieces.old.items) }
    ensures { IfOk result (λ _. pieces_of pieces.new.items ≡ reduced MoreTacticArguments (pieces_of pieces.old.items)) }
{
    let argument = pop_argument(pieces);
    let mut arguments = pop_arguments(pieces);
    arguments.push(argument)?;
    push(pieces, Piece::Arguments(arguments))
}

pub(crate) fn theorem_argument(alloc: Global, pieces: &mut Vec<Piece<'_>>) -> Result<(), AllocError>
    requires { AreOf (symbols TheoremArgument) (pieces_of pieces.old.items) }
    ensures { IfOk result (λ _. pieces_of pieces.new.items ≡ reduced TheoremArgument (pieces_of pieces.old.items)) }
{
    let name = pop_word(pieces);
    let theorem = citation(alloc, name.text)?;
    push(
        pieces,
        Piece::Argument(TacArg::new(TacArgNode::Theorem(theorem))),
    )
}

pub(crate) fn term_argument(pieces: &mut Vec<Piece<'_>>) -> Result<(), AllocError>
    requires { AreOf (symbols TermArgument) (pieces_of pieces.old.items) }
    ensures { IfOk result (λ _. pieces_of pieces.new.items ≡ reduced TermArgument (pieces_of pieces.old.items)) }
{
    let term = pop_quotation(pieces);
    push(pieces, Piece::Argument(TacArg::new(TacArgNode::Term(term))))
}

pub(crate) fn grouped_argument(pieces: &mut Vec<Piece<'_>>) -> Result<(), AllocError>
    requires { AreOf (symbols GroupedArgument) (pieces_of pieces.old.items) }
    ensures { IfOk result (λ _. pieces_of pieces.new.items ≡ reduced GroupedArgument (pieces_of pieces.old.items)) }
{
    let _open = pop_word(pieces);
    let argument = pop_argument(pieces);
    push(pieces, Piece::Argument(argument))
}

pub(crate) fn listed_argument(pieces: &mut Vec<Piece<'_>>) -> Result<(), AllocError>
    requires { AreOf (symbols ListedArgument) (pieces_of pieces.old.items) }
    ensures { IfOk result (λ _. pieces_of pieces.new.items ≡ reduced ListedArgument (pieces_of pieces.old.items)) }
{
    let _open = pop_word(pieces);
    let mut theorems = pop_theorems(pieces);
    theorems.reverse();
    push(
        pieces,
        Piece::Argument(TacArg::new(TacArgNode::Theorems(theorems))),
    )
}

pub(crate) fn one_theorem(pieces: &mut Vec<Piece<'_>>) -> Result<(), AllocError>
    requires { AreOf (symbols OneTheorem) (pieces_of pieces.old.items) }
    ensures { IfOk result (λ _. pieces_of pieces.new.items ≡ reduced OneTheorem (pieces_of pieces.old.items)) }
{
    let theorem = pop_theorem(pieces);
    let _close = pop_word(pieces);
    push(
        pieces,
        Piece::Argument(TacArg::new(TacArgNode::Theorem(theorem))),
    )
}

pub(crate) fn two_terms(pieces: &mut Vec<Piece<'_>>) -> Result<(), AllocError>
    requires { AreOf (symbols TwoTerms) (pieces_of pieces.old.items) }
    ensures { IfOk result (λ _. pieces_of pieces.new.items ≡ reduced TwoTerms (pieces_of pieces.old.items)) }
{
    let first = pop_quotation(pieces);
    let _comma = pop_word(pieces);
    let second = pop_quotation(pieces);
    let _close = pop_word(pieces);
    push(
        pieces,
        Piece::Argument(TacArg::new(TacArgNode::Pair(first, second))),
    )
}

pub(crate) fn named_theorem_tactic(
    alloc: Global,
    pieces: &mut Vec<Piece<'_>>,
) -> Result<(), AllocError>
    requires { AreOf (symbols NamedTheoremTactic) (pieces_of pieces.old.items) }
    ensures { IfOk result (λ _. pieces_of pieces.new.items ≡ reduced NamedTheoremTactic (pieces_of pieces.old.items)) }
{
    let name = pop_word(pieces);
    let tactic = call(alloc, name.text, Vec::new(alloc))?;
    push(pieces, Piece::Call(tactic))
}

pub(crate) fn bracketed_theorem_tactic(
    alloc: Global,
    pieces: &mut Vec<Piece<'_>>,
) -> Result<(), AllocError>
    requires { AreOf (symbols BracketedTheoremTactic) (pieces_of pieces.old.items) }
    ensures { IfOk result (λ _. pieces_of pieces.new.items ≡ reduced BracketedTheoremTactic (pieces_of pieces.old.items)) }
{
    let _open = pop_word(pieces);
    let name = pop_word(pieces);
    let arguments = pop_arguments(pieces);
    let _close = pop_word(pieces);
    let tactic = call(alloc, name.text, arguments)?;
    push(pieces, Piece::Call(tactic))
}
