//! Outcomes of commands, and the states after them.

mod direct_outcome;
mod meter;
mod naming;
mod next;
mod outcome;
mod refused;
mod registered;
mod run;
mod setup;
mod setup_table;
mod tested;

pub use direct_outcome::{EarlierTheory, direct, promise_each};
pub use meter::Meter;
pub use next::{apply, resume};
pub(crate) use outcome::Change;
pub use outcome::Outcome;
pub(crate) use refused::{name_taken, refused, refused_at, refused_name};
pub(crate) use registered::RegisteredTac;
pub use run::run_local;
pub use setup::Setup;
pub use setup_table::SetupTable;
pub use tested::{Tested, agrees};
