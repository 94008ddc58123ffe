//! Calls of functions on goals, as they are written: what a name calls, and the arguments of its kind.
ghost use Rattle.std.specs.Prelude.{◌≡◌, Some, option_copied};
ghost use Rattle.std.specs.Option.{option_map};
ghost use Rattle.hol_theory.specs.Key.{key_eq, tac_key};
ghost use Rattle.hol_exec.specs.Callee.{kind_of, kind_for, registered, value_at, expression_in, named, called};
ghost use Rattle.hol_exec.specs.CalleeView.{callee_value, callee_option, called_with};

use crate::reads::Reads;
use crate::resolving::looks_up::LooksUp;
use crate::running::RegisteredTac;
use hol_combine::Expr;
use hol_goal::ArgumentKind;
use hol_kernel::Basis;
use hol_notation_tactics::{Role, TacCall};
use hol_resolve::{WrittenArgs, written_as};
use hol_theory::{Key, Kind, Value, ValueNode};

/// What a name calls.
#[derive(Clone, Copy)]
pub(crate) enum Callee<'a> {
    /// A registered function on goals.
    Registered(RegisteredTac),
    /// An expression that was named, with what each theorem that is written in it rests on by itself.
    Defined(&'a Expr, &'a [Basis]),
}

// The kind of arguments of what is called.
fn kind_of(called: Callee<'_>) -> ArgumentKind
    ensures { result ≡ kind_of (callee_value called.entry) }
{
    match called {
        Callee::Registered(tac) => tac.code.arguments(),
        Callee::Defined(_, _) => ArgumentKind::Nothing,
    }
}

// The kind of what is written as arguments of that kind.
fn kind_for(role: Role, kind: ArgumentKind) -> Option<ArgumentKind>
    ensures { result ≡ kind_for role kind }
{
    match role {
        Role::Whole => Some(kind),
        Role::TheoremTactic => match kind {
            ArgumentKind::Theorem => Some(ArgumentKind::Nothing),
            ArgumentKind::TermAndTheorem => Some(ArgumentKind::Term),
            ArgumentKind::Nothing
            | ArgumentKind::Term
            | ArgumentKind::Pair
            | ArgumentKind::Theorems => None,
        },
    }
}

// What stands under the key of a function on goals of the name, among what is cited.
fn tac_at<'a>(cited: &'a [(Key, Option<Value>)], name: &str) -> Option<&'a Value>
    ensures { option_copied result ≡ value_at (tac_key name.now) cited.now }
{
    for value in cited {
        if is_tac_key(&value.0, name) {
            return value.1.as_ref();
        }
    }
    None
}

// Whether it is the key of a function on goals of the name.
fn is_tac_key(key: &Key, name: &str) -> bool
    ensures { result ≡ key_eq (tac_key name.now) key.now }
{
    matches!(key.kind(), Kind::Tac) && name == key.name()
}

// The expression that it is, if it is one.
fn expression_in(value: &Value) -> Option<Callee<'_>>
    ensures { callee_option result ≡ expression_in (Some value.now) }
{
    match value.node() {
        ValueNode::Tac { expr, bases, .. } => Some(Callee::Defined(expr, bases.as_slice())),
        ValueNode::Type { .. } | ValueNode::Constant { .. } | ValueNode::Theorem(_) => None,
    }
}

// What the name of the call stands for.
fn named<'a, N: LooksUp>(names: &N, call: &TacCall, reads: &'a Reads) -> Option<Callee<'a>>
    ensures { callee_option result ≡ named call.now.name (registered call.now.name (N.LooksUp.table_of names.now)) reads.now.cited }
{
    if let Some(tac) = names.look_up(call.name.as_str()) {
        return Some(Callee::Registered(tac));
    }
    expression_in(tac_at(reads.cited(), call.name.as_str())?)
}

/// What a call of the role calls, with its arguments, where the name stands for something and these are of its kind.
pub(crate) fn called<'a, N: LooksUp>(
    names: &N,
    role: Role,
    call: &'a TacCall,
    reads: &'a Reads,
) -> Option<(Callee<'a>, WrittenArgs<'a>)>
    ensures { option_map called_with result ≡ called (N.LooksUp.table_of names.now) role call.now reads.now.cited }
{
    let callee = named(names, call, reads)?;
    let kind = kind_for(role, kind_of(callee))?;
    let arguments = written_as(kind, &call.arguments)?;
    Some((callee, arguments))
}
