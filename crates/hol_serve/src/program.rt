//! The program, as a function of its words, its input and its outputs.

ghost use Rattle.std.specs.Prelude.{◌≡◌, ◌≢◌, ◌⊎◌, ◌≤◌, Err, IsOkAnd, MatchResult, OnOk, map};
ghost use Rattle.hol_serve.specs.Begun.{Begins};
ghost use Rattle.hol_session.specs.Ending.{Tells};
ghost use Rattle.hol_session.specs.Lines.{read_limit};
ghost use Rattle.hol_session.specs.Machine.{MayAnswer};
ghost use Rattle.hol_session.specs.Session.{CountsUp, Finishes, StopsReading, StopsWriting};
ghost use Rattle.hol_serve.specs.Settings.{AreBad};
ghost use Rattle.hol_session.specs.declared.ending.Ending.TheVariants as ending;

use crate::begun::serve_begun;
use crate::settings::{Words, settings};
use hol_session::{Ending, Fault, Sink, Source, write_reply};
use std::alloc::Global;

// Serves the reader's lines as the words say, over documents that begin so.
fn serve<'a, R: Source, W: Sink>(
    alloc: Global,
    words: Result<&'a [&'a str], Words>,
    reader: &mut R,
    writer: &mut W,
) -> Result<(), Ending>
    ensures ok { OnOk result (IsOkAnd words.entry (λ texts. Begins (map (λ w. w.now) texts.now) (λ old new. Finishes MayAnswer old new
        (R.remaining reader.old) (R.remaining reader.new) (W.contents writer.old) (W.contents writer.new)))) }
    ensures read_fault { result ≡ Err Ending.Read → (IsOkAnd words.entry (λ texts. Begins (map (λ w. w.now) texts.now) (λ old new. StopsReading MayAnswer old new
        (R.remaining reader.old) (R.remaining reader.new) (W.contents writer.old) (W.contents writer.new))))
        × (R.has_failed reader.new ⊎ CountsUp read_limit (R.reads reader.old) (R.reads reader.new)) }
    ensures write_fault { result ≡ Err Ending.Write → (IsOkAnd words.entry (λ texts. Begins (map (λ w. w.now) texts.now) (λ old new. StopsWriting MayAnswer old new
        (R.remaining reader.old) (R.remaining reader.new) (W.contents writer.old) (W.contents writer.new))))
        × W.has_failed writer.new }
    ensures memory { result ≡ Err Ending.Memory → (reader.new ≡ reader.old) × (writer.new ≡ writer.old) }
    ensures untouched { result ≡ Err Ending.BadWords → (reader.new ≡ reader.old) × (writer.new ≡ writer.old) }
    ensures words { result ≡ Err Ending.BadWords → MatchResult words.entry (λ texts. AreBad (map (λ w. w.now) texts.now)) (λ why. why ≡ Words.Bad) }
    ensures reads { result ≢ Err Ending.Read → R.has_failed reader.new → R.has_failed reader.old }
    ensures writes { result ≢ Err Ending.Write → W.has_failed writer.new → W.has_failed writer.old }
{
    let (turns, cache) = settings(alloc, words?)?;
    match serve_begun(alloc, turns, cache, reader, writer) {
        Ok(()) => Ok(()),
        Err(Fault::Read) => Err(Ending::Read),
        Err(Fault::Write) => Err(Ending::Write),
        Err(Fault::Memory) => Err(Ending::Memory),
    }
}

/// What the program does with its words, or with the reason why it hasn't them: serves the reader's lines over documents that begin without
/// theories, and answers the exit status. Where that isn't 0, a line on `errors` says why; where that can't be written, it is left out.
pub(crate) fn program<'a, R: Source, W: Sink, E: Sink>(
    alloc: Global,
    words: Result<&'a [&'a str], Words>,
    reader: &mut R,
    writer: &mut W,
    errors: &mut E,
) -> u8
    ensures range { result ≤ 2 }
    // The session came to its end, and no fault was passed over.
    ensures served { result ≡ 0 → (IsOkAnd words.entry (λ texts. Begins (map (λ w. w.now) texts.now) (λ old new. Finishes MayAnswer old new
        (R.remaining reader.old) (R.remaining reader.new) (W.contents writer.old) (W.contents writer.new))))
        × (R.has_failed reader.new → R.has_failed reader.old) × (W.has_failed writer.new → W.has_failed writer.old)
        × (errors.new ≡ errors.old) }
    // A fault of the reader, one of the writer, or no memory to begin with.
    ensures failed { result ≡ 1
        → ((IsOkAnd words.entry (λ texts. Begins (map (λ w. w.now) texts.now) (λ old new. StopsReading MayAnswer old new
        (R.remaining reader.old) (R.remaining reader.new) (W.contents writer.old) (W.contents writer.new))))
        × (R.has_failed reader.new ⊎ CountsUp read_limit (R.reads reader.old) (R.reads reader.new))
        × Tells ending.Read (E.contents errors.old) (E.contents errors.new) (E.has_failed errors.new))
        ⊎ (((IsOkAnd words.entry (λ texts. Begins (map (λ w. w.now) texts.now) (λ old new. StopsWriting MayAnswer old new
        (R.remaining reader.old) (R.remaining reader.new) (W.contents writer.old) (W.contents writer.new))))
        × W.has_failed writer.new
        × Tells ending.Write (E.contents errors.old) (E.contents errors.new) (E.has_failed errors.new))
        ⊎ ((reader.new ≡ reader.old) × (writer.new ≡ writer.old)
        × Tells ending.Memory (E.contents errors.old) (E.contents errors.new) (E.has_failed errors.new))) }
    // The words aren't the program's. Nothing was read or written.
    ensures refused { result ≡ 2 → MatchResult words.entry (λ texts. AreBad (map (λ w. w.now) texts.now)) (λ why. why ≡ Words.Bad)
        × (reader.new ≡ reader.old) × (writer.new ≡ writer.old)
        × Tells ending.BadWords (E.contents errors.old) (E.contents errors.new) (E.has_failed errors.new) }
{
    match serve(alloc, words, reader, writer) {
        Ok(()) => 0,
        Err(ending) => {
            let _ = write_reply(errors, ending.line());
            ending.status()
        }
    }
}
