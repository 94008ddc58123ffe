//! The loop: lines of a reader, answered on a writer.

ghost use Rattle.std.specs.Prelude.{◌≡◌, ◌≢◌, ◌⊎◌, ◌++◌, ℕ, List, [], Bool, true, false, Ok, Err, IfOk, OnOk, OnErr};
ghost use Rattle.std.specs.Io.KnownBytes.{Appends};
ghost use Rattle.hol_session.specs.Lines.{StandsFor, ended_lines, begun_line, unless_empty, read_limit};
ghost use Rattle.hol_session.specs.Session.{Answers, AnswersInPart, CountsUp, Finishes, StopsReading, StopsWriting};

use crate::lines::line::Line;
use crate::lines::service::{Service, Sink, Source};
use crate::lines::writing::{WriteFault, write_reply};
use std::alloc::{AllocError, AllocFailed, Global};
use thiserror::Error;

const NEWLINE: u8 = b'\n';

/// After so many reads a session ends as at a failed read.
pub(crate) const READ_LIMIT: u64 = 1 << 32;

/// Why a session ended before its end.
#[derive(Clone, Copy, Debug, Drop, PartialEq, Eq, Error)]
pub enum Fault {
    /// The reader failed, or was read 2^32 times.
    #[error("read fault")]
    Read,
    /// The writer failed, or took no byte.
    #[error("write fault")]
    Write,
    /// What a session begins with wasn't had. Nothing was read or written.
    #[error("no memory")]
    Memory,
}

impl From<AllocError> for Fault {
    ghost use Rattle.std.specs.Prelude.{◌≡◌};
    ghost use Rattle.hol_session.specs.declared.lines.session.Fault.TheVariants.{Memory};

    ghost from_gives = { λ _ e. e ≡ Memory };

    fn from(_refused: AllocError) -> Fault {
        Fault::Memory
    }
}

impl<T: Drop> From<AllocFailed<T>> for Fault {
    ghost use Rattle.std.specs.Prelude.{◌≡◌};
    ghost use Rattle.hol_session.specs.declared.lines.session.Fault.TheVariants.{Memory};

    ghost from_gives = { λ _ e. e ≡ Memory };

    fn from(_refused: AllocFailed<T>) -> Fault {
        Fault::Memory
    }
}

// Answers the line, and tells whether the session ends with it.
fn serve_line<W: Sink, D, S: Service<D>>(
    alloc: Global,
    line: &Line,
    writer: &mut W,
    service: &S,
    state: &mut D,
) -> Result<bool, WriteFault>
    ensures answered { IfOk result (λ closes. (text : List ℕ) → StandsFor line.now.kept.items line.now.overlong text
        → (reply : List ℕ) × Appends (W.contents writer.old) (W.contents writer.new) reply
        × S.may_answer state.old text reply closes state.new) }
    ensures in_part { OnErr result ((text : List ℕ) → StandsFor line.now.kept.items line.now.overlong text
        → (part : List ℕ) × (missing : List ℕ) × (closes : Bool) × Appends (W.contents writer.old) (W.contents writer.new) part
        × S.may_answer state.old text (part ++ missing) closes state.new × (missing ≢ [])) }
    ensures failed { OnErr result (W.has_failed writer.new) }
    ensures only { OnOk result (W.has_failed writer.new → W.has_failed writer.old) }
{
    let reply = if line.overlong {
        service.answer_overlong(state)
    } else {
        service.answer(alloc, state, &line.kept)
    };
    write_reply(writer, reply.as_bytes())?;
    Ok(reply.closes)
}

// Answers the lines that end in the chunk, and tells whether one of them closed the session.
fn serve_chunk<W: Sink, D, S: Service<D>>(
    alloc: Global,
    line: &mut Line,
    chunk: &[u8],
    writer: &mut W,
    service: &S,
    state: &mut D,
) -> Result<bool, WriteFault>
    ensures open { result ≡ Ok false → (begun : List ℕ) → StandsFor line.old.kept.items line.old.overlong begun
        → StandsFor line.new.kept.items line.new.overlong (begun_line begun chunk.now)
        × (replies : List ℕ) × Appends (W.contents writer.old) (W.contents writer.new) replies
        × Answers S.may_answer state.old (ended_lines begun chunk.now) replies false state.new }
    ensures closed { result ≡ Ok true → (begun : List ℕ) → StandsFor line.old.kept.items line.old.overlong begun
        → (replies : List ℕ) × Appends (W.contents writer.old) (W.contents writer.new) replies
        × Answers S.may_answer state.old (ended_lines begun chunk.now) replies true state.new }
    ensures in_part { OnErr result ((begun : List ℕ) → StandsFor line.old.kept.items line.old.overlong begun
        → (written : List ℕ) × Appends (W.contents writer.old) (W.contents writer.new) written
        × AnswersInPart S.may_answer state.old (ended_lines begun chunk.now) written state.new) }
    ensures failed { OnErr result (W.has_failed writer.new) }
    ensures only { OnOk result (W.has_failed writer.new → W.has_failed writer.old) }
{
    for byte in chunk {
        if *byte != NEWLINE {
            line.push(*byte);
            continue;
        }
        let closes = serve_line(alloc, line, writer, service, state)?;
        line.clear();
        if closes {
            return Ok(true);
        }
    }
    Ok(false)
}

// Answers what follows the last newline, unless that is empty.
fn serve_last<W: Sink, D, S: Service<D>>(
    alloc: Global,
    line: &Line,
    writer: &mut W,
    service: &S,
    state: &mut D,
) -> Result<(), WriteFault>
    ensures answered { OnOk result ((text : List ℕ) → StandsFor line.now.kept.items line.now.overlong text
        → (replies : List ℕ) × (closed : Bool) × Appends (W.contents writer.old) (W.contents writer.new) replies
        × Answers S.may_answer state.old (unless_empty text) replies closed state.new) }
    ensures in_part { OnErr result ((text : List ℕ) → StandsFor line.now.kept.items line.now.overlong text
        → (written : List ℕ) × Appends (W.contents writer.old) (W.contents writer.new) written
        × AnswersInPart S.may_answer state.old (unless_empty text) written state.new) }
    ensures failed { OnErr result (W.has_failed writer.new) }
    ensures only { OnOk result (W.has_failed writer.new → W.has_failed writer.old) }
{
    if line.is_empty() {
        return Ok(());
    }
    let _closes = serve_line(alloc, line, writer, service, state)?;
    Ok(())
}

/// Answers the reader's lines in order, up to its end or to a reply that closes the session.
pub(crate) fn run_lines<R: Source, W: Sink, D, S: Service<D>>(
    alloc: Global,
    reader: &mut R,
    writer: &mut W,
    service: &S,
    state: &mut D,
) -> Result<(), Fault>
    // The replies to the lines of what was read, up to the end or to a close, and nothing else.
    ensures ok { OnOk result (Finishes S.may_answer state.old state.new
        (R.remaining reader.old) (R.remaining reader.new) (W.contents writer.old) (W.contents writer.new)) }
    // The replies to the whole lines of what was read.
    ensures read_fault { result ≡ Err Fault.Read → StopsReading S.may_answer state.old state.new
        (R.remaining reader.old) (R.remaining reader.new) (W.contents writer.old) (W.contents writer.new)
        × (R.has_failed reader.new ⊎ CountsUp read_limit (R.reads reader.old) (R.reads reader.new)) }
    // The replies but for an end of the last.
    ensures write_fault { result ≡ Err Fault.Write → StopsWriting S.may_answer state.old state.new
        (R.remaining reader.old) (R.remaining reader.new) (W.contents writer.old) (W.contents writer.new)
        × W.has_failed writer.new }
    // No fault is passed over.
    ensures reads { result ≢ Err Fault.Read → R.has_failed reader.new → R.has_failed reader.old }
    ensures writes { result ≢ Err Fault.Write → W.has_failed writer.new → W.has_failed writer.old }
    ensures memory { result ≡ Err Fault.Memory
        → (reader.new ≡ reader.old) × (writer.new ≡ writer.old) × (state.new ≡ state.old) }
{
    let Ok(mut line) = Line::new(alloc) else {
        return Err(Fault::Memory);
    };
    let mut chunk = [0u8; 4096];
    for _ in 0..READ_LIMIT {
        let Ok(count) = reader.read_some(&mut chunk) else {
            return Err(Fault::Read);
        };
        if count == 0 {
            let Ok(()) = serve_last(alloc, &line, writer, service, state) else {
                return Err(Fault::Write);
            };
            return Ok(());
        }
        match serve_chunk(alloc, &mut line, &chunk[..count], writer, service, state) {
            Ok(false) => {}
            Ok(true) => return Ok(()),
            Err(_fault) => return Err(Fault::Write),
        }
    }
    Err(Fault::Read)
}
