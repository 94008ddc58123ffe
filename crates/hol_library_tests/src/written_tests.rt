//! Copies of what is written in commands: a definition, the names of a type definition, and a tactic.
use hol_exec::{Command, CommandNode, LocalCommand, Making, Parsed, parse};
use std::alloc::{AllocError, Global};
use std::test::Fail;

const COMMANDS: &str = r"new_definition D `d (x:A) = c`
new_basic_type_definition u abs rep N1 N2 N
e EVERY []";

fn is_making_copied(alloc: Global, making: &Making) -> Result<bool, AllocError> {
    match making {
        Making::Definition { definition, .. } => Ok(definition.same(&definition.copy(alloc)?)),
        Making::BasicTypeDefinition(names) => Ok(names.same(&names.copy(alloc)?)),
        _ => Ok(false),
    }
}

// Whether what is written in the command is the same as its copy.
fn is_local_copied(alloc: Global, command: &LocalCommand) -> Result<bool, AllocError> {
    match command {
        LocalCommand::Apply(tactic) => Ok(tactic.same(&tactic.copy()?)),
        LocalCommand::Make(making) => is_making_copied(alloc, making),
        _ => Ok(false),
    }
}

fn is_command_copied(alloc: Global, command: &Command) -> Result<bool, AllocError> {
    match command.node() {
        CommandNode::Local(command) => is_local_copied(alloc, command),
        CommandNode::Direct(_) => Ok(false),
    }
}

fn is_copied(alloc: Global, parsed: &Parsed) -> Result<bool, AllocError> {
    match parsed {
        Parsed::Read(command) => is_command_copied(alloc, command),
        Parsed::Unread(_) => Ok(false),
    }
}

fn is_written_copied(alloc: Global, text: &str) -> Result<bool, AllocError> {
    let parsed = parse(alloc, text)?;
    is_copied(alloc, &parsed)
}

// The first command of which this is not so, or nothing.
fn uncopied(alloc: Global) -> Result<&'static str, AllocError> {
    for text in COMMANDS.lines() {
        if !is_written_copied(alloc, text)? {
            return Ok(text);
        }
    }
    Ok("")
}

#[test]
fn what_is_written_is_copied(rt: HostRuntime) -> Result<(), Fail> {
    assert_eq!(rt; uncopied(rt.alloc())?, "");
    Ok(())
}
