//! Kinds of names.

/// What a name is of. A type, a constant and an axiom may have one name.
#[derive(Clone, Copy, Debug, PartialEq, Eq)]
pub enum ItemKind {
    /// A type constructor.
    Type,
    /// A constant.
    Constant,
    /// An axiom.
    Axiom,
}
