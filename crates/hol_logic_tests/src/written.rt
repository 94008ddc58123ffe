//! Terms for tests, as they are written.
use hol_infer::{elaborate, elaborate_type};
use hol_kernel::{prelude_constants, prelude_types};
use hol_notation_reader::{read_term, read_type};
use hol_notation_terms::PreTerm;
use hol_notation_tokens::scan;
use hol_terms::Term;
use hol_types::{Name, Ty};
use std::alloc::{AllocError, Global};
use std::test::Fail;

/// What a text may name: the constants and the type constructors of the prelude, and a type `foo`, which stands over no items.
#[derive(Drop)]
pub(crate) struct Written {
    pub(crate) alloc: Global,
    constants: Vec<(Name, Ty)>,
    types: Vec<(Name, usize)>,
}

impl Written {
    pub(crate) fn new(alloc: Global) -> Result<Written, AllocError> {
        let constants = prelude_constants(alloc)?;
        let mut types = prelude_types(alloc)?;
        types.push((Name::new(alloc, "foo")?, 0))?;
        Ok(Written {
            alloc,
            constants,
            types,
        })
    }

    fn read(&self, text: &str) -> Result<PreTerm, Fail> {
        let (words, end) = scan(self.alloc, text)?;
        Ok(read_term(self.alloc, &words, end)?)
    }

    /// The type that is written so.
    pub(crate) fn ty(&self, text: &str) -> Result<Ty, Fail> {
        let (words, end) = scan(self.alloc, text)?;
        let written = read_type(self.alloc, &words, end)?;
        Ok(elaborate_type(self.alloc, &written, &self.types)?)
    }

    /// The term that is written so.
    pub(crate) fn term(&self, text: &str) -> Result<Term, Fail> {
        let written = self.read(text)?;
        Ok(elaborate(self.alloc, &written, &self.constants, &self.types)?)
    }

    /// The terms between commas, of which there may be none.
    pub(crate) fn terms(&self, text: &str) -> Result<Vec<Term>, Fail> {
        let mut list = Vec::new(self.alloc);
        for part in text.split(", ") {
            if !part.is_empty() {
                list.push(self.term(part)?)?;
            }
        }
        Ok(list)
    }
}
