//! The theorems that a command cites.
ghost use Rattle.std.specs.Prelude.{◌≡◌, ◌++◌, IfOk, OnOk, MatchOption, None, Some};
ghost use Rattle.hol_exec.specs.Resolved.{prelude_theorem_at, theorem_at, named_theorem, cited_theorems};

use crate::running::Setup;
use hol_kernel::Thm;
use hol_theory::{Key, Kind, Value, ValueNode};
use hol_types::Name;
use std::alloc::{AllocError, Global};

/// Theorems by their names.
pub(crate) type Cited = Vec<(Name, Thm)>;

/// The theorems that are cited, by their names: those that stand under the keys, else the prelude's.
pub(crate) fn cited_theorems(
    alloc: Global,
    setup: &Setup,
    values: &[(Key, Option<Value>)],
) -> Result<Cited, AllocError>
    ensures { IfOk result (λ theorems. theorems.items ≡ cited_theorems values.now) }
{
    let mut theorems = Vec::new(alloc);
    for value in values {
        add_theorem(alloc, setup, &mut theorems, value)?;
    }
    Ok(theorems)
}

// Adds the theorem that is cited by a key, if there is one.
fn add_theorem(
    alloc: Global,
    setup: &Setup,
    theorems: &mut Cited,
    value: &(Key, Option<Value>),
) -> Result<(), AllocError>
    ensures { OnOk result (theorems.new.items ≡ theorems.old.items ++ named_theorem value.now.0.name (theorem_at value.now.0 value.now.1)) }
{
    match theorem_at(setup, value) {
        Some(theorem) => {
            let name = Name::new(alloc, value.0.name())?;
            Ok(theorems.push((name, theorem.copy()?))?)
        }
        None => Ok(()),
    }
}

/// What stands under the key, or the prelude's theorem of its name.
pub(crate) fn theorem_at<'a>(setup: &'a Setup, value: &'a (Key, Option<Value>)) -> Option<&'a Thm>
    ensures { MatchOption result (theorem_at value.now.0 value.now.1 ≡ None) (λ th. theorem_at value.now.0 value.now.1 ≡ Some th.now) }
{
    match &value.1 {
        Some(entry) => match entry.node() {
            ValueNode::Type { .. } | ValueNode::Constant { .. } | ValueNode::Tac { .. } => None,
            ValueNode::Theorem(theorem) => Some(theorem),
        },
        None => prelude_theorem_at(setup, &value.0),
    }
}

fn prelude_theorem_at<'a>(setup: &'a Setup, key: &Key) -> Option<&'a Thm>
    ensures { MatchOption result (prelude_theorem_at key.now.kind key.now.name ≡ None) (λ th. prelude_theorem_at key.now.kind key.now.name ≡ Some th.now) }
{
    match key.kind() {
        Kind::Type | Kind::Constant | Kind::Tac => None,
        Kind::Theorem => setup.prelude_theorem(key.name()),
    }
}
