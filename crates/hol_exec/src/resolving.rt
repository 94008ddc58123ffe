//! What an expression of functions on goals stands for: its calls, with their arguments, over one basis.

mod basis;
mod callee;
mod calls;
mod cited;
mod expressions;
mod formulas;
mod looks_up;
mod occurring;
mod resolution;
mod theorem_bases;
mod unresolved;

pub(crate) use basis::{term_basis, type_basis};
pub(crate) use cited::theorem_at;
pub(crate) use resolution::{Resolution, resolve};
pub(crate) use theorem_bases::own_bases;
