//! The calls in an expression of TACs, as they are written.
ghost use Rattle.std.specs.Prelude.{◌≡◌, option_copied};
ghost use Rattle.hol_exec.specs.SetupView.{setup_value};
ghost use Rattle.hol_exec.specs.Expr.{is_own, first_unfit};

use crate::reads::Reads;
use crate::resolving::callee::called;
use crate::running::Setup;
use hol_notation_tactics::{Role, TacCall};

// Whether a name is that of the expression which the command itself names, if it names one.
fn is_own(own: Option<&str>, name: &str) -> bool
    ensures { result ≡ is_own (option_copied own.entry) name.now }
{
    match own {
        Some(own) => own == name,
        None => false,
    }
}

/// The name of the first call whose name is that of the expression which the command itself names, or stands for nothing, or whose arguments aren't of its kind.
pub(crate) fn first_unfit<'a>(
    setup: &Setup,
    own: Option<&str>,
    calls: &'a [(Role, TacCall)],
    reads: &Reads,
) -> Option<&'a str>
    ensures { option_copied result ≡ first_unfit (setup_value setup.now) (option_copied own.entry) calls.now reads.now.cited }
{
    for call in calls {
        if is_own(own, call.1.name.as_str()) || called(setup, call.0, &call.1, reads).is_none() {
            return Some(call.1.name.as_str());
        }
    }
    None
}
