//! What the productions of commands build.
ghost use Rattle.std.specs.Prelude.{◌≡◌, ◌∷◌, [], reverse, IfOk};
ghost use Rattle.hol_notation_grammar.specs.declared.grammar.Production.TheVariants.{OpenGoal, RunTactic, DefineTactic, Undo, RotateGoals, Finish, GiveUp, ImportTheory, MakeType, MakeConstant, MakeAxiom, MakeDefinition, MakeTypeDefinition};
ghost use Rattle.hol_notation_grammar.specs.Table.{symbols};
ghost use Rattle.hol_notation_reader.specs.Piece.{AreOf};
ghost use Rattle.hol_notation_reader.specs.Build.{reduced};
ghost use Rattle.hol_notation_commands.specs.Text.{Local, Direct};
ghost use Rattle.hol_notation_commands.specs.CommandView.{local_text, direct_text, making_text};
ghost use Rattle.hol_notation_reader.specs.Build.{make};
ghost use Rattle.hol_notation_reader.specs.Piece.{IsFirst, of_word, a_command, the_text, at};
ghost use Rattle.std.specs.Prelude.{drop, string_bytes};
ghost use Rattle.hol_notation_reader.specs.View.{pieces_of};

use crate::piece::{
    Piece, pop_definition, pop_quotation, pop_tactic, pop_type_quotation, pop_word, push,
};
use hol_notation_commands::{
    Command, CommandNode, DirectCommand, LocalCommand, Making, TypeDefinition,
};
use hol_notation_grammar::number_value;
use std::alloc::{AllocError, Global};

// The name that the token on top is.
fn pop_name(alloc: Global, pieces: &mut Vec<Piece<'_>>) -> Result<String, AllocError>
    requires { IsFirst of_word (pieces_of pieces.old.items) }
    ensures { IfOk result (λ name. (string_bytes name ≡ the_text (at 0 (pieces_of pieces.old.items))) × (pieces_of pieces.new.items ≡ drop 1 (pieces_of pieces.old.items))) }
{
    let name = pop_word(pieces);
    Ok(String::from_str(alloc, name.text)?)
}

fn push_local(pieces: &mut Vec<Piece<'_>>, command: LocalCommand) -> Result<(), AllocError>
    ensures { IfOk result (λ _. pieces_of pieces.new.items ≡ a_command (Local (local_text command)) ∷ pieces_of pieces.old.items) }
{
    push(
        pieces,
        Piece::Command(Command::new(CommandNode::Local(command))),
    )
}

fn push_direct(pieces: &mut Vec<Piece<'_>>, command: DirectCommand) -> Result<(), AllocError>
    ensures { IfOk result (λ _. pieces_of pieces.new.items ≡ a_command (Direct (direct_text command)) ∷ pieces_of pieces.old.items) }
{
    push(
        pieces,
        Piece::Command(Command::new(CommandNode::Direct(command))),
    )
}

fn push_making(pieces: &mut Vec<Piece<'_>>, making: Making) -> Result<(), AllocError>
    ensures { IfOk result (λ _. pieces_of pieces.new.items ≡ make (making_text making) ∷ pieces_of pieces.old.items) }
{
    push_local(pieces, LocalCommand::Make(making))
}

pub(crate) fn open_goal(alloc: Global, pieces: &mut Vec<Piece<'_>>) -> Result<(), AllocError>
    requires { AreOf (symbols OpenGoal) (pieces_of pieces.old.items) }
    ensures { IfOk result (λ _. pieces_of pieces.new.items ≡ reduced OpenGoal (pieces_of pieces.old.items)) }
{
    let _word = pop_word(pieces);
    let name = pop_name(alloc, pieces)?;
    let quotation = pop_quotation(pieces);
    push_local(pieces, LocalCommand::Goal { name, quotation })
}

pub(crate) fn run_tactic(pieces: &mut Vec<Piece<'_>>) -> Result<(), AllocError>
    requires { AreOf (symbols RunTactic) (pieces_of pieces.old.items) }
    ensures { IfOk result (λ _. pieces_of pieces.new.items ≡ reduced RunTactic (pieces_of pieces.old.items)) }
{
    let _word = pop_word(pieces);
    let tactic = pop_tactic(pieces);
    push_local(pieces, LocalCommand::Apply(tactic))
}

pub(crate) fn define_tactic(alloc: Global, pieces: &mut Vec<Piece<'_>>) -> Result<(), AllocError>
    requires { AreOf (symbols DefineTactic) (pieces_of pieces.old.items) }
    ensures { IfOk result (λ _. pieces_of pieces.new.items ≡ reduced DefineTactic (pieces_of pieces.old.items)) }
{
    let _word = pop_word(pieces);
    let name = pop_name(alloc, pieces)?;
    let tactic = pop_tactic(pieces);
    push_local(pieces, LocalCommand::DefineTac { name, tactic })
}

pub(crate) fn undo(pieces: &mut Vec<Piece<'_>>) -> Result<(), AllocError>
    requires { AreOf (symbols Undo) (pieces_of pieces.old.items) }
    ensures { IfOk result (λ _. pieces_of pieces.new.items ≡ reduced Undo (pieces_of pieces.old.items)) }
{
    let _word = pop_word(pieces);
    push_direct(pieces, DirectCommand::Back)
}

pub(crate) fn rotate_goals(pieces: &mut Vec<Piece<'_>>) -> Result<(), AllocError>
    requires { AreOf (symbols RotateGoals) (pieces_of pieces.old.items) }
    ensures { IfOk result (λ _. pieces_of pieces.new.items ≡ reduced RotateGoals (pieces_of pieces.old.items)) }
{
    let _word = pop_word(pieces);
    let number = pop_word(pieces);
    push_direct(pieces, DirectCommand::Rotate(number_value(number.text)))
}

pub(crate) fn finish(pieces: &mut Vec<Piece<'_>>) -> Result<(), AllocError>
    requires { AreOf (symbols Finish) (pieces_of pieces.old.items) }
    ensures { IfOk result (λ _. pieces_of pieces.new.items ≡ reduced Finish (pieces_of pieces.old.items)) }
{
    let _word = pop_word(pieces);
    push_local(pieces, LocalCommand::Qed)
}

pub(crate) fn give_up(pieces: &mut Vec<Piece<'_>>) -> Result<(), AllocError>
    requires { AreOf (symbols GiveUp) (pieces_of pieces.old.items) }
    ensures { IfOk result (λ _. pieces_of pieces.new.items ≡ reduced GiveUp (pieces_of pieces.old.items)) }
{
    let _word = pop_word(pieces);
    push_direct(pieces, DirectCommand::Oops)
}

pub(crate) fn import_theory(alloc: Global, pieces: &mut Vec<Piece<'_>>) -> Result<(), AllocError>
    requires { AreOf (symbols ImportTheory) (pieces_of pieces.old.items) }
    ensures { IfOk result (λ _. pieces_of pieces.new.items ≡ reduced ImportTheory (pieces_of pieces.old.items)) }
{
    let _word = pop_word(pieces);
    let name = pop_name(alloc, pieces)?;
    push_direct(pieces, DirectCommand::Import(name))
}

pub(crate) fn make_type(alloc: Global, pieces: &mut Vec<Piece<'_>>) -> Result<(), AllocError>
    requires { AreOf (symbols MakeType) (pieces_of pieces.old.items) }
    ensures { IfOk result (λ _. pieces_of pieces.new.items ≡ reduced MakeType (pieces_of pieces.old.items)) }
{
    let _word = pop_word(pieces);
    let name = pop_name(alloc, pieces)?;
    let number = pop_word(pieces);
    let arity = number_value(number.text) as u32;
    push_making(pieces, Making::Type { name, arity })
}

pub(crate) fn make_constant(alloc: Global, pieces: &mut Vec<Piece<'_>>) -> Result<(), AllocError>
    requires { AreOf (symbols MakeConstant) (pieces_of pieces.old.items) }
    ensures { IfOk result (λ _. pieces_of pieces.new.items ≡ reduced MakeConstant (pieces_of pieces.old.items)) }
{
    let _word = pop_word(pieces);
    let name = pop_name(alloc, pieces)?;
    let quotation = pop_type_quotation(pieces);
    push_making(pieces, Making::Constant { name, quotation })
}

pub(crate) fn make_axiom(alloc: Global, pieces: &mut Vec<Piece<'_>>) -> Result<(), AllocError>
    requires { AreOf (symbols MakeAxiom) (pieces_of pieces.old.items) }
    ensures { IfOk result (λ _. pieces_of pieces.new.items ≡ reduced MakeAxiom (pieces_of pieces.old.items)) }
{
    let _word = pop_word(pieces);
    let name = pop_name(alloc, pieces)?;
    let quotation = pop_quotation(pieces);
    push_making(pieces, Making::Axiom { name, quotation })
}

pub(crate) fn make_definition(alloc: Global, pieces: &mut Vec<Piece<'_>>) -> Result<(), AllocError>
    requires { AreOf (symbols MakeDefinition) (pieces_of pieces.old.items) }
    ensures { IfOk result (λ _. pieces_of pieces.new.items ≡ reduced MakeDefinition (pieces_of pieces.old.items)) }
{
    let _word = pop_word(pieces);
    let name = pop_name(alloc, pieces)?;
    let definition = pop_definition(pieces);
    push_making(pieces, Making::Definition { name, definition })
}

pub(crate) fn make_type_definition(
    alloc: Global,
    pieces: &mut Vec<Piece<'_>>,
) -> Result<(), AllocError>
    requires { AreOf (symbols MakeTypeDefinition) (pieces_of pieces.old.items) }
    ensures { IfOk result (λ _. pieces_of pieces.new.items ≡ reduced MakeTypeDefinition (pieces_of pieces.old.items)) }
{
    let _word = pop_word(pieces);
    let definition = TypeDefinition {
        ty: pop_name(alloc, pieces)?,
        abs: pop_name(alloc, pieces)?,
        rep: pop_name(alloc, pieces)?,
        abs_rep: pop_name(alloc, pieces)?,
        rep_abs: pop_name(alloc, pieces)?,
        theorem: pop_name(alloc, pieces)?,
    };
    push_making(pieces, Making::BasicTypeDefinition(definition))
}
