//! The types for type variables that are written.
ghost use Rattle.std.specs.Prelude.{◌≡◌, IfOk};
ghost use Rattle.std.specs.Option.{option_map};
ghost use Rattle.hol_resolve.specs.Forward.{pairs_at, pair_at};
ghost use Rattle.hol_resolve.specs.ReadingView.{readings_value};

use crate::readings::Readings;
use hol_notation_tactics::TypePair;
use hol_types::{Name, Ty, TyNode};
use std::alloc::{AllocError, Global};

/// The types for type variables that the pairs read as, where each old type is a type variable.
pub(crate) fn pairs_at(
    alloc: Global,
    readings: &Readings,
    pairs: &[TypePair],
) -> Result<Option<Vec<(Ty, Name)>>, AllocError>
    ensures { IfOk result (λ read. option_map (λ list. list.items) read ≡ pairs_at (readings_value readings.now) pairs.now) }
{
    let mut read = Vec::with_capacity(alloc, pairs.len())?;
    for pair in pairs {
        let Some(one) = pair_at(readings, pair)? else {
            return Ok(None);
        };
        read.push(one)?;
    }
    Ok(Some(read))
}

fn pair_at(readings: &Readings, pair: &TypePair) -> Result<Option<(Ty, Name)>, AllocError>
    ensures { IfOk result (λ one. one ≡ pair_at (readings_value readings.now) pair.now) }
{
    let Some(new_type) = readings.type_at(pair.new_type.place) else {
        return Ok(None);
    };
    let Some(old_type) = readings.type_at(pair.old_type.place) else {
        return Ok(None);
    };
    match old_type.node() {
        TyNode::Var(name) => Ok(Some((new_type.copy()?, name.copy()?))),
        TyNode::App(_, _) => Ok(None),
    }
}
