//! The line that is being read.

ghost use Rattle.std.specs.Prelude.{◌≡◌, ◌≤◌, ◌<◌, ℕ, List, [], ◌∷◌, ◌++◌, IfOk, if◌then◌else◌, vec_capacity, length};
ghost use Rattle.hol_session.specs.Lines.{line_limit, StandsFor, unless_empty};

use std::alloc::{AllocError, Global};

/// The longest line that is served, in bytes.
pub(crate) const LINE_LIMIT: usize = 65536;

/// The line that is being read, in a buffer that is taken once.
#[derive(Drop)]
pub(crate) struct Line {
    /// Its bytes so far, or the first of them where there are too many.
    pub(crate) kept: Vec<u8>,
    /// Whether it has more than `LINE_LIMIT` bytes.
    pub(crate) overlong: bool,
    ghost room: { line_limit ≤ vec_capacity kept },
    ghost short: { length kept.items ≤ line_limit },
}

impl Line {
    /// A line without bytes. The error is that its buffer, `LINE_LIMIT` bytes, isn't had.
    pub(crate) fn new(alloc: Global) -> Result<Line, AllocError>
        ensures { IfOk result (λ line. StandsFor line.kept.items line.overlong []) }
    {
        let kept = Vec::with_capacity(alloc, LINE_LIMIT)?;
        Ok(Line {
            kept,
            overlong: false,
        })
    }

    /// Whether there is no byte of it yet.
    pub(crate) fn is_empty(&self) -> bool
        ensures { (begun : List ℕ) → StandsFor self.now.kept.items self.now.overlong begun
            → unless_empty begun ≡ (if result then [] else begun ∷ []) }
    {
        !self.overlong && self.kept.is_empty()
    }

    /// Begins the next line.
    pub(crate) fn clear(&mut self)
        ensures { StandsFor self.new.kept.items self.new.overlong [] }
    {
        self.kept.clear();
        self.overlong = false;
    }

    /// One byte more. It is dropped where the line is too long.
    pub(crate) fn push(&mut self, byte: u8)
        ensures { (begun : List ℕ) → StandsFor self.old.kept.items self.old.overlong begun
            → StandsFor self.new.kept.items self.new.overlong (begun ++ byte ∷ []) }
    {
        if self.overlong {
            return;
        }
        if self.kept.len() < LINE_LIMIT {
            self.kept.push_reserved(byte);
        } else {
            self.overlong = true;
        }
    }
}
