//! Requests, whose texts are those of the JSON value that they are read from.

/// A request to documents.
#[derive(Clone, Copy, Drop)]
pub enum Request<'v> {
    /// A new theory of this name at this place among the theories.
    NewTheory {
        name: &'v str,
        at: u64,
    },
    /// The theory of this name goes.
    DropTheory {
        name: &'v str,
    },
    /// A new command at this place of a theory.
    Insert {
        theory: &'v str,
        at: u64,
        text: &'v str,
    },
    /// Another text for the command at this place of a theory.
    Replace {
        theory: &'v str,
        at: u64,
        text: &'v str,
    },
    /// The command at this place of a theory goes.
    Remove {
        theory: &'v str,
        at: u64,
    },
    /// What running afresh reports of the command at this place of a theory.
    Report {
        theory: &'v str,
        at: u64,
    },
    /// The theorems at the end of a theory.
    Theorems {
        theory: &'v str,
    },
    /// The items that a theorem of a theory rests on.
    Basis {
        theory: &'v str,
        name: &'v str,
    },
    /// How many commands were run.
    Stats,
    /// The session ends.
    Close,
}
