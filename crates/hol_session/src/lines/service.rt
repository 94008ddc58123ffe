//! Readers and writers that tell whether they failed, and what answers lines.

ghost use Rattle.std.specs.Prelude.{◌≡◌, ◌<◌, ◌≤◌, ℕ, List, Bool, length, Ok, IfOk, OnOk, OnErr};
ghost use Rattle.std.specs.Io.{ReadsAtMost, WritesAtMost};
ghost use Rattle.std.specs.Io.KnownBytes.{ReadConsumes, WriteAppends};
ghost use Rattle.hol_session.specs.Lines.{line_limit};
ghost use Rattle.hol_session.specs.Session.{CountsUp};

use hol_wire::Reply;
use std::alloc::Global;
use std::io;
use std::io::{Read, Write};

/// A reader that counts its reads, and tells whether one failed.
pub trait Source: Read {
    // A read failed. It then stays so.
    ghost has_failed: { Self → Type 0 };

    // How often it was read.
    ghost reads: { Self → ℕ };

    /// Reads some bytes to the front of the buffer, as `Read::read`. The answer 0 is the end, where there is room.
    fn read_some(&mut self, buffer: &mut [u8]) -> io::Result<usize>
        ensures bound { ReadsAtMost result buffer.new }
        ensures bytes { ReadConsumes (Self.remaining self.old) (Self.remaining self.new) result buffer.new }
        ensures counts { CountsUp 1 (reads self.old) (reads self.new) }
        ensures stays { has_failed self.old → has_failed self.new }
        ensures failed { OnErr result (has_failed self.new) }
        ensures only { OnOk result (has_failed self.new → has_failed self.old) };
}

/// A writer that tells whether it failed, or took no byte of some.
pub trait Sink: Write {
    // A write failed, or took no byte. It then stays so.
    ghost has_failed: { Self → Type 0 };

    /// Writes some of the bytes, from the first on, as `Write::write`, and tells how many.
    fn write_some(&mut self, buffer: &[u8]) -> io::Result<usize>
        ensures bound { WritesAtMost result buffer.now }
        ensures bytes { WriteAppends (Self.contents self.old) (Self.contents self.new) result buffer.now }
        ensures stays { has_failed self.old → has_failed self.new }
        ensures failed { OnErr result (has_failed self.new) }
        ensures stuck { 0 < length buffer.now → result ≡ Ok 0 → has_failed self.new }
        ensures only { IfOk result (λ count. 0 < count → has_failed self.new → has_failed self.old) };
}

/// What answers lines over a state.
pub(crate) trait Service<D> {
    ghost use Rattle.hol_wire.specs.ReplyBytes.{reply_bytes};

    // From the old state the line may get this reply, which closes the session or not, and leave the new one.
    ghost may_answer: { D → List ℕ → List ℕ → Bool → D → Type 0 };

    /// The reply to a line.
    fn answer(&self, alloc: Global, state: &mut D, line: &[u8]) -> Reply
        requires { length line.now ≤ line_limit }
        ensures { may_answer state.old line.now (reply_bytes result.text) result.closes state.new };

    /// The reply to a line that is too long, whose bytes are gone.
    fn answer_overlong(&self, state: &mut D) -> Reply
        ensures { (line : List ℕ) → line_limit < length line
            → may_answer state.old line (reply_bytes result.text) result.closes state.new };
}
