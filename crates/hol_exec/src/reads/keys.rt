//! The keys that a command cites and makes.
ghost use Rattle.std.specs.Prelude.{◌≡◌, ◌++◌, ◌∷◌, [], IfOk, OnOk, map};
ghost use Rattle.hol_notation_commands.specs.Text.{NewBasicTypeDefinition};
ghost use Rattle.hol_notation_commands.specs.CommandView.{local_text, making_text};
ghost use Rattle.hol_exec.specs.Keys.{keys_of_type, keys_of_types, keys_of_annotation, keys_of_term, keys_in, keys_of_parameters, keys_of_definition, cited_by_making, made_by_making, cited_keys, made_keys};

use hol_notation_commands::{LocalCommand, Making, TypeDefinition};
use hol_notation_tactics::{Part, parts_of};
use hol_notation_terms::{Definition, PreTerm, PreTermNode, PreType, PreTypeNode, PreVariable};
use hol_theory::{Key, Kind};
use std::alloc::{AllocError, Global};

// The nesting of what is written is bounded by its tokens, of which there are 4,096 at most: no deeper do these go.

fn add_type(alloc: Global, keys: &mut Vec<Key>, ty: &PreType) -> Result<(), AllocError>
    ensures { OnOk result (keys.new.items ≡ keys.old.items ++ keys_of_type ty.now) }
{
    match ty.node() {
        PreTypeNode::Ident(name) => Ok(keys.push(Key::new(alloc, Kind::Type, name.as_str())?)?),
        PreTypeNode::Arrow(domain, codomain) => {
            add_type(alloc, keys, domain)?;
            add_type(alloc, keys, codomain)
        }
        PreTypeNode::Apply(name, arguments) => {
            for argument in arguments {
                add_type(alloc, keys, argument)?;
            }
            Ok(keys.push(Key::new(alloc, Kind::Type, name.as_str())?)?)
        }
    }
}

fn add_annotation(
    alloc: Global,
    keys: &mut Vec<Key>,
    annotation: &Option<PreType>,
) -> Result<(), AllocError>
    ensures { OnOk result (keys.new.items ≡ keys.old.items ++ keys_of_annotation annotation.now) }
{
    match annotation {
        Some(ty) => add_type(alloc, keys, ty),
        None => Ok(()),
    }
}

fn add_term(alloc: Global, keys: &mut Vec<Key>, term: &PreTerm) -> Result<(), AllocError>
    ensures { OnOk result (keys.new.items ≡ keys.old.items ++ keys_of_term term.now) }
{
    match term.node() {
        PreTermNode::Ident(name) => {
            Ok(keys.push(Key::new(alloc, Kind::Constant, name.as_str())?)?)
        }
        PreTermNode::Operator(_) => Ok(()),
        PreTermNode::Apply(function, argument) => {
            add_term(alloc, keys, function)?;
            add_term(alloc, keys, argument)
        }
        PreTermNode::Abstraction(variable, body) => {
            keys.push(Key::new(alloc, Kind::Constant, variable.name.as_str())?)?;
            add_annotation(alloc, keys, &variable.annotation)?;
            add_term(alloc, keys, body)
        }
        PreTermNode::Typed(term, ty) => {
            add_term(alloc, keys, term)?;
            add_type(alloc, keys, ty)
        }
    }
}

/// Adds the keys of what is written in an expression.
pub(crate) fn add_parts(
    alloc: Global,
    keys: &mut Vec<Key>,
    parts: &[Part],
) -> Result<(), AllocError>
    ensures { OnOk result (keys.new.items ≡ keys.old.items ++ keys_in parts.now) }
{
    for part in parts {
        match part {
            Part::Term(quotation) | Part::Formula(quotation) => {
                add_term(alloc, keys, &quotation.term)?;
            }
            Part::Type(quotation) => add_type(alloc, keys, &quotation.ty)?,
            Part::Theorem(name) => add_key(alloc, keys, Kind::Theorem, name.as_str())?,
            Part::Call(_, call) => add_key(alloc, keys, Kind::Tac, call.name.as_str())?,
        }
    }
    Ok(())
}

fn add_parameters(
    alloc: Global,
    keys: &mut Vec<Key>,
    parameters: &[PreVariable],
) -> Result<(), AllocError>
    ensures { OnOk result (keys.new.items ≡ keys.old.items ++ keys_of_parameters parameters.now) }
{
    for variable in parameters {
        keys.push(Key::new(alloc, Kind::Constant, variable.name.as_str())?)?;
        add_annotation(alloc, keys, &variable.annotation)?;
    }
    Ok(())
}

fn add_definition(
    alloc: Global,
    keys: &mut Vec<Key>,
    definition: &Definition,
) -> Result<(), AllocError>
    ensures { OnOk result (keys.new.items ≡ keys.old.items ++ keys_of_definition definition.now) }
{
    add_parameters(alloc, keys, &definition.parameters)?;
    add_annotation(alloc, keys, &definition.right.annotation)?;
    add_term(alloc, keys, &definition.right.term)
}

fn cited_by_making(alloc: Global, making: &Making) -> Result<Vec<Key>, AllocError>
    ensures { IfOk result (λ keys. keys.items ≡ cited_by_making (making_text making.now)) }
{
    let mut keys = Vec::new(alloc);
    match making {
        Making::Type { name: _, arity: _ } => {}
        Making::Constant { name: _, quotation } => add_type(alloc, &mut keys, &quotation.ty)?,
        Making::Axiom { name: _, quotation } => add_term(alloc, &mut keys, &quotation.term)?,
        Making::Definition {
            name: _,
            definition,
        } => add_definition(alloc, &mut keys, definition)?,
        Making::BasicTypeDefinition(definition) => {
            add_key(alloc, &mut keys, Kind::Theorem, definition.theorem.as_str())?;
        }
    }
    Ok(keys)
}

fn add_key(alloc: Global, keys: &mut Vec<Key>, kind: Kind, name: &str) -> Result<(), AllocError>
    ensures { OnOk result (keys.new.items ≡ keys.old.items ++ record { kind = kind; name = name.now } ∷ []) }
{
    Ok(keys.push(Key::new(alloc, kind, name)?)?)
}

fn made_by_making(alloc: Global, making: &Making) -> Result<Vec<Key>, AllocError>
    ensures { IfOk result (λ keys. keys.items ≡ made_by_making (making_text making.now)) }
{
    let mut keys = Vec::new(alloc);
    match making {
        Making::Type { name, arity: _ } => {
            add_key(alloc, &mut keys, Kind::Type, name.as_str())?;
        }
        Making::Constant { name, quotation: _ } => {
            add_key(alloc, &mut keys, Kind::Constant, name.as_str())?;
        }
        Making::Axiom { name, quotation: _ } => {
            add_key(alloc, &mut keys, Kind::Theorem, name.as_str())?;
        }
        Making::Definition { name, definition } => {
            add_key(alloc, &mut keys, Kind::Theorem, name.as_str())?;
            add_key(alloc, &mut keys, Kind::Constant, definition.name.as_str())?;
        }
        Making::BasicTypeDefinition(definition) => add_names(alloc, &mut keys, definition)?,
    }
    Ok(keys)
}

// The keys of a type definition: a type, two constants, two theorems.
fn add_names(
    alloc: Global,
    keys: &mut Vec<Key>,
    definition: &TypeDefinition,
) -> Result<(), AllocError>
    ensures { OnOk result (keys.new.items ≡ keys.old.items ++ made_by_making (NewBasicTypeDefinition definition.now)) }
{
    add_key(alloc, keys, Kind::Type, definition.ty.as_str())?;
    add_key(alloc, keys, Kind::Constant, definition.abs.as_str())?;
    add_key(alloc, keys, Kind::Constant, definition.rep.as_str())?;
    add_key(alloc, keys, Kind::Theorem, definition.abs_rep.as_str())?;
    add_key(alloc, keys, Kind::Theorem, definition.rep_abs.as_str())
}

/// The keys that the command cites, in text order.
pub(crate) fn cited_keys(alloc: Global, command: &LocalCommand) -> Result<Vec<Key>, AllocError>
    ensures { IfOk result (λ keys. keys.items ≡ cited_keys (local_text command.now)) }
{
    match command {
        LocalCommand::Goal { name: _, quotation } => {
            let mut keys = Vec::new(alloc);
            add_term(alloc, &mut keys, &quotation.term)?;
            Ok(keys)
        }
        LocalCommand::Apply(tactic) | LocalCommand::DefineTac { name: _, tactic } => {
            let mut keys = Vec::new(alloc);
            add_parts(alloc, &mut keys, &parts_of(alloc, tactic)?)?;
            Ok(keys)
        }
        LocalCommand::Qed => Ok(Vec::new(alloc)),
        LocalCommand::Make(making) => cited_by_making(alloc, making),
    }
}

/// The keys that the command makes, in text order.
pub(crate) fn made_keys(alloc: Global, command: &LocalCommand) -> Result<Vec<Key>, AllocError>
    ensures { IfOk result (λ keys. keys.items ≡ made_keys (local_text command.now)) }
{
    match command {
        LocalCommand::Goal { name, quotation: _ } => {
            let mut keys = Vec::new(alloc);
            add_key(alloc, &mut keys, Kind::Theorem, name.as_str())?;
            Ok(keys)
        }
        LocalCommand::Apply(_) | LocalCommand::Qed => Ok(Vec::new(alloc)),
        LocalCommand::DefineTac { name, tactic: _ } => {
            let mut keys = Vec::new(alloc);
            add_key(alloc, &mut keys, Kind::Tac, name.as_str())?;
            Ok(keys)
        }
        LocalCommand::Make(making) => made_by_making(alloc, making),
    }
}
