//! Which type constructors stand over every basis.
ghost use Rattle.std.specs.Prelude.{◌≡◌};
ghost use Rattle.hol_types.specs.Basic.{is_basic_constructor};

use crate::known::KnownName;
use crate::name::Name;

/// Whether the constructor is one of the prelude's, and has this arity.
pub fn is_basic_constructor(constructor: &Name, arity: usize) -> bool
    ensures { result ≡ is_basic_constructor constructor.now arity }
{
    if constructor.is(KnownName::BoolType) {
        return arity == 0;
    }
    if constructor.is(KnownName::FunType) {
        return arity == 2;
    }
    constructor.is(KnownName::IndType) && arity == 0
}
