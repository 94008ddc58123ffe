//! The constants that have a notation.

/// The constants that have a notation of their own.
#[derive(Clone, Copy, Debug, PartialEq, Eq)]
pub enum Operator {
    /// `<=>`: equality of truth values.
    Iff,
    /// `==>`
    Implies,
    /// `\/`
    Or,
    /// `/\`
    And,
    /// `=`
    Equals,
    /// `~`
    Not,
    /// `!`
    ForAll,
    /// `?`
    Exists,
    /// `?!`
    ExistsUnique,
    /// `@`
    Choice,
}
