//! Where a term stands.

/// Where a term stands.
#[derive(Clone, Copy)]
pub(crate) enum Site<'a> {
    /// Where what binds less than this needs parentheses.
    Within(u32),
    /// Right after the variable of a binder of this symbol.
    After(&'a str),
}
