//! The lines of a reader, answered over documents.

ghost use Rattle.std.specs.Prelude.{◌≡◌, ◌≢◌, ◌⊎◌, Bool, Err, IfOk, OnOk};
ghost use Rattle.hol_session.specs.Lines.{lines_of, read_limit};
ghost use Rattle.hol_session.specs.Machine.{MayAnswer, counted};
ghost use Rattle.hol_session.specs.Session.{Answers, CountsUp, Finishes, StopsReading, StopsWriting};

use crate::answering::answer;
use crate::lines::{Fault, Service, Sink, Source, Watched, run_lines};
use hol_document::Editable;
use hol_wire::{Reply, line_too_long};
use std::alloc::Global;

// Requests in lines of JSON.
#[derive(Clone, Copy)]
struct JsonLines;

impl<D: Editable> Service<D> for JsonLines {
    ghost may_answer = { λ old line text closed new. MayAnswer (counted (D.value old) (D.ran old)) line text closed (counted (D.value new) (D.ran new)) };

    fn answer(&self, alloc: Global, state: &mut D, line: &[u8]) -> Reply {
        answer(alloc, state, line)
    }

    fn answer_overlong(&self, _state: &mut D) -> Reply {
        line_too_long()
    }
}

/// Answers the reader's lines over the documents, each by one line, up to the reader's end or to a reply that closes the session.
///
/// The buffer of one line, 65,536 bytes, is taken first. A longer line is read to its newline and dropped.
///
/// # Errors
/// - `Fault::Memory` where that buffer isn't had: nothing is read or written then.
/// - `Fault::Read` where the reader fails, or after 2^32 reads: the whole lines of what was read are answered.
/// - `Fault::Write` where the writer fails or takes no byte: of the last line's reply only a part is written.
pub fn run<R: Source, W: Sink, D: Editable>(
    alloc: Global,
    reader: &mut R,
    writer: &mut W,
    docs: &mut D,
) -> Result<(), Fault>
    // The replies of a run of the machine over the lines of what was read, and nothing else.
    ensures ok { OnOk result (Finishes MayAnswer (counted (D.value docs.old) (D.ran docs.old)) (counted (D.value docs.new) (D.ran docs.new))
        (R.remaining reader.old) (R.remaining reader.new) (W.contents writer.old) (W.contents writer.new)) }
    // The replies to the whole lines of what was read.
    ensures read_fault { result ≡ Err Fault.Read → StopsReading MayAnswer (counted (D.value docs.old) (D.ran docs.old)) (counted (D.value docs.new) (D.ran docs.new))
        (R.remaining reader.old) (R.remaining reader.new) (W.contents writer.old) (W.contents writer.new)
        × (R.has_failed reader.new ⊎ CountsUp read_limit (R.reads reader.old) (R.reads reader.new)) }
    // The replies but for an end of the last, which was served.
    ensures write_fault { result ≡ Err Fault.Write → StopsWriting MayAnswer (counted (D.value docs.old) (D.ran docs.old)) (counted (D.value docs.new) (D.ran docs.new))
        (R.remaining reader.old) (R.remaining reader.new) (W.contents writer.old) (W.contents writer.new)
        × W.has_failed writer.new }
    // No fault is passed over.
    ensures reads { result ≢ Err Fault.Read → R.has_failed reader.new → R.has_failed reader.old }
    ensures writes { result ≢ Err Fault.Write → W.has_failed writer.new → W.has_failed writer.old }
    ensures memory { result ≡ Err Fault.Memory
        → (reader.new ≡ reader.old) × (writer.new ≡ writer.old) × (D.value docs.new ≡ D.value docs.old) × (D.ran docs.new ≡ D.ran docs.old) }
{
    run_lines(alloc, reader, writer, &JsonLines, docs)
}

/// Answers the lines of a text over the documents, as `run` does those of a reader: the bytes of the replies, up to the last line or to a reply that closes
/// the session. The documents go on.
///
/// # Errors
/// - `Fault::Memory` where the buffer of one line isn't had: nothing was answered.
/// - `Fault::Write` where memory for the replies isn't had: some of the lines were answered, and the documents are those after them.
/// - `Fault::Read` after 2^32 pieces of 4,096 bytes, with the same.
pub fn answer_all<D: Editable>(alloc: Global, text: &[u8], docs: &mut D) -> Result<Vec<u8>, Fault>
    ensures { IfOk result (λ bytes. (closed : Bool)
        × Answers MayAnswer (counted (D.value docs.old) (D.ran docs.old)) (lines_of text.now) bytes.items closed (counted (D.value docs.new) (D.ran docs.new))) }
{
    let mut reader = Watched::new(text);
    let mut writer = Watched::new(Vec::new(alloc));
    run(alloc, &mut reader, &mut writer, docs)?;
    Ok(writer.inner)
}
