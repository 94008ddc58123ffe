//! A TAC with its arguments, as they are written.
ghost use Rattle.std.specs.Prelude.{◌≡◌, ◌↔◌, IfOk, IsTrue};

use crate::tac_arg::TacArg;
use std::alloc::{AllocError, Global};
use std::marker::Model;

/// A TAC by its name, with the arguments that are written after it.
#[derive(Drop)]
pub struct TacCall {
    /// The name.
    pub name: String,
    /// The arguments, in order.
    pub arguments: Vec<TacArg>,
}

impl Model for TacCall {
    ghost use Rattle.std.specs.Prelude.{string_bytes};
    ghost use Rattle.hol_notation_tactics.specs.Text.{CallText};
    ghost use Rattle.hol_notation_tactics.specs.Code.{coded_call};

    ghost Value = { CallText };

    ghost coded = { coded_call };

    ghost view = { λ a. record { name = string_bytes a.name; arguments = a.arguments.items } };
}

impl TacCall {
    /// The same call, sharing the nodes of its arguments.
    pub fn copy(&self, alloc: Global) -> Result<TacCall, AllocError>
        ensures { IfOk result (λ call. call ≡ self.now) }
    {
        let mut arguments = Vec::with_capacity(alloc, self.arguments.len())?;
        for argument in &self.arguments {
            arguments.push(argument.copy(alloc)?)?;
        }
        let name = String::from_str(alloc, self.name.as_str())?;
        Ok(TacCall { name, arguments })
    }

    /// Whether the two calls are the same, their places included.
    pub fn same(&self, other: &TacCall) -> bool
        ensures { IsTrue result ↔ (self.now ≡ other.now) }
    {
        self.name.as_str() == other.name.as_str()
            && same_arguments(&self.arguments, &other.arguments)
    }
}

// Whether the arguments are the same, one by one.
fn same_arguments(arguments: &[TacArg], others: &[TacArg]) -> bool
    ensures { IsTrue result ↔ (arguments.now ≡ others.now) }
{
    if arguments.len() != others.len() {
        return false;
    }
    for (i, argument) in arguments.iter().enumerate() {
        if !argument.same(&others[i]) {
            return false;
        }
    }
    true
}
