//! The names of the prelude.
ghost use Rattle.std.specs.Prelude.{◌≡◌};
ghost use Rattle.hol_kernel.specs.Signature.{prelude_has};
ghost use Rattle.hol_kernel.specs.Clashing.{key_at};

use crate::item_kind::ItemKind;
use hol_formulas::{has_axiom_name, has_constant_name, has_type_name};
use hol_types::Name;

/// Whether the prelude has the name, as one of this kind.
pub(crate) fn has_name(kind: ItemKind, name: &Name) -> bool
    ensures { result ≡ prelude_has (key_at kind name.now) }
{
    match kind {
        ItemKind::Type => has_type_name(name),
        ItemKind::Constant => has_constant_name(name),
        ItemKind::Axiom => has_axiom_name(name),
    }
}
