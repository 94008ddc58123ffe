//! Writing a reply.

ghost use Rattle.std.specs.Prelude.{◌≡◌, ◌≢◌, ◌++◌, ℕ, List, [], OnOk, OnErr};
ghost use Rattle.std.specs.Io.KnownBytes.{Appends};

use crate::lines::service::Sink;
use thiserror::Error;

/// The writer failed, or took no byte.
#[derive(Debug, Drop, Error)]
#[error("write fault")]
pub struct WriteFault;

/// Writes all the bytes, or a part of them.
pub fn write_reply<W: Sink>(writer: &mut W, bytes: &[u8]) -> Result<(), WriteFault>
    ensures ok { OnOk result (Appends (W.contents writer.old) (W.contents writer.new) bytes.now) }
    ensures part { OnErr result ((part : List ℕ) × (missing : List ℕ) × (bytes.now ≡ part ++ missing) × (missing ≢ [])
        × Appends (W.contents writer.old) (W.contents writer.new) part) }
    ensures failed { OnErr result (W.has_failed writer.new) }
    ensures only { OnOk result (W.has_failed writer.new → W.has_failed writer.old) }
{
    let mut rest = bytes;
    while !rest.is_empty() {
        let Ok(count) = writer.write_some(rest) else {
            return Err(WriteFault);
        };
        if count == 0 {
            return Err(WriteFault);
        }
        rest = &rest[count..];
    }
    Ok(())
}
