//! The text of a type.
ghost use Rattle.std.specs.Prelude.{◌≡◌, ◌++◌, IfOk, OnOk, string_bytes};
ghost use Rattle.hol_types.specs.Tree.{type_list};
ghost use Rattle.hol_print.specs.ShowType.{in_parentheses, is_function, show_type, show_arguments, show_others};

use crate::room::put_name;
use hol_types::{Ty, TyNode};
use std::alloc::{AllocError, Global};

/// The text of a type: `A->B` without spaces, `A list`, `(A,B) name`.
pub fn show_type(alloc: Global, ty: &Ty) -> Result<String, AllocError>
    ensures { IfOk result (λ text. string_bytes text ≡ show_type ty.now) }
{
    let mut text = String::new(alloc);
    write_type(ty, &mut text)?;
    Ok(text)
}

/// Puts the text of the type at the end.
#[cycle(write_type)]
#[tactic(auto, using(crate::proofs::Types::smaller))]
pub(crate) fn write_type(ty: &Ty, text: &mut String) -> Result<(), AllocError>
    ensures { OnOk result (string_bytes text.new ≡ string_bytes text.old ++ show_type ty.now) }
{
    if let Some((domain, range)) = ty.dest_fun() {
        write_operand(domain, text)?;
        text.push_str("->")?;
        return write_type(range, text);
    }
    match ty.node() {
        TyNode::Var(name) => put_name(text, name.as_str()),
        TyNode::App(name, args) => {
            write_arguments(args, text)?;
            put_name(text, name.as_str())
        }
    }
}

// Puts the text of a type on the left of `->` or alone before a constructor: a function type stands in parentheses.
#[cycle(write_type)]
fn write_operand(ty: &Ty, text: &mut String) -> Result<(), AllocError>
    ensures { OnOk result (string_bytes text.new ≡ string_bytes text.old ++ in_parentheses (is_function ty.now) (show_type ty.now)) }
{
    if ty.dest_fun().is_none() {
        return write_type(ty, text);
    }
    text.push_str("(")?;
    write_type(ty, text)?;
    text.push_str(")")
}

// Puts what stands before a constructor other than `->`.
#[cycle(write_type)]
#[tactic(auto, using(crate::proofs::Types::arguments, crate::proofs::Types::sizes))]
fn write_arguments(args: &[Ty], text: &mut String) -> Result<(), AllocError>
    ensures { OnOk result (string_bytes text.new ≡ string_bytes text.old ++ show_arguments (type_list args.now)) }
{
    match args {
        [] => Ok(()),
        [only] => {
            write_operand(only, text)?;
            text.push_str(" ")
        }
        [first, others @ ..] => {
            text.push_str("(")?;
            write_type(first, text)?;
            write_others(others, text)?;
            text.push_str(") ")
        }
    }
}

// Puts the arguments after the first.
#[cycle(write_type)]
#[tactic(auto, using(crate::proofs::Types::others, crate::proofs::Types::sizes))]
fn write_others(others: &[Ty], text: &mut String) -> Result<(), AllocError>
    ensures { OnOk result (string_bytes text.new ≡ string_bytes text.old ++ show_others (type_list others.now)) }
{
    for other in others {
        text.push_str(",")?;
        write_type(other, text)?;
    }
    Ok(())
}
