//! The constants and types that stand for a command's readings.
ghost use Rattle.std.specs.Prelude.{◌≡◌, ◌++◌, IfOk, OnOk};
ghost use Rattle.hol_resolve.specs.SignatureView.{signature_value};
ghost use Rattle.hol_exec.specs.Signature.{signature_of, value_constants, value_types};

use crate::running::Setup;
use hol_resolve::Signature;
use hol_theory::{Key, Value, ValueNode};
use hol_types::Name;
use std::alloc::{AllocError, Global};

/// What stands where these entries are cited: what the prelude has, and what they are.
pub(crate) fn signature_of(
    alloc: Global,
    setup: &Setup,
    cited: &[(Key, Option<Value>)],
) -> Result<Signature, AllocError>
    ensures { IfOk result (λ signature. signature_value signature ≡ signature_of cited.now) }
{
    let mut signature = setup.signature().copy(alloc)?;
    for value in cited {
        add_value(alloc, &mut signature, value)?;
    }
    Ok(signature)
}

// Adds what stands under the key: a theorem is no constant and no type, nor is an expression.
fn add_value(
    alloc: Global,
    signature: &mut Signature,
    value: &(Key, Option<Value>),
) -> Result<(), AllocError>
    ensures constants { OnOk result (signature.new.constants.items ≡ signature.old.constants.items ++ value_constants value.now.0 value.now.1) }
    ensures types { OnOk result (signature.new.types.items ≡ signature.old.types.items ++ value_types value.now.0 value.now.1) }
{
    let Some(entry) = &value.1 else {
        return Ok(());
    };
    match entry.node() {
        ValueNode::Type { arity, .. } => {
            let name = Name::new(alloc, value.0.name())?;
            signature.types.push((name, *arity))?;
        }
        ValueNode::Constant { ty, .. } => {
            let name = Name::new(alloc, value.0.name())?;
            signature.constants.push((name, ty.copy()?))?;
        }
        ValueNode::Theorem(_) | ValueNode::Tac { .. } => {}
    }
    Ok(())
}
