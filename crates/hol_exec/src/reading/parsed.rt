//! What a text reads as.
ghost use Rattle.std.specs.Prelude.{◌≡◌, IfOk, decimal};
ghost use Rattle.hol_notation_reader.specs.Reading.{IsRead};
ghost use Rattle.hol_exec.specs.declared.reports.refusal.RefusalKind.TheVariants.{Syntax};
ghost use Rattle.hol_exec.specs.OutcomeValue.{Refuses};
ghost use Rattle.hol_exec.specs.ParsedView.{parsed_value};

use crate::reports::RefusalKind;
use crate::running::{Outcome, refused_at};
use hol_notation_commands::Command;
use hol_notation_reader::read_command;
use hol_notation_tokens::SyntaxError;
use std::alloc::{AllocError, Global};

/// What a text reads as.
#[derive(Drop)]
pub enum Parsed {
    /// A command.
    Read(Command),
    /// No command: the byte where it is none any more.
    Unread(usize),
}

/// What the text reads as.
pub fn parse(alloc: Global, text: &str) -> Result<Parsed, AllocError>
    ensures { IfOk result (λ parsed. IsRead text.now (parsed_value parsed)) }
{
    match read_command(alloc, text) {
        Ok(command) => Ok(Parsed::Read(command)),
        Err(SyntaxError::Syntax(place)) => Ok(Parsed::Unread(place)),
        Err(SyntaxError::Memory) => Err(AllocError),
    }
}

/// The outcome of a text that is no command any more at the place.
pub fn unread(alloc: Global, place: usize) -> Result<Outcome, AllocError>
    ensures { IfOk result (λ outcome. outcome ≡ Refuses Syntax (decimal place)) }
{
    refused_at(alloc, RefusalKind::Syntax, place)
}
