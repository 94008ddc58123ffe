//! The replies that are the same for each request.
#![tactic(auto, unfolding(crate::proofs::Literals::replies_on_literals))]

ghost use Rattle.std.specs.Prelude.{◌≡◌, false};
ghost use Rattle.hol_wire.specs.ReplyBytes.{reply_bytes};
ghost use Rattle.hol_wire.specs.Replies.{Done, Closed, Refused, LineTooLong, NotJson, Shape, ByDocuments, Memory};
ghost use Rattle.hol_wire.specs.Texts.{Says};

use crate::reply::{Reply, ReplyText};
use hol_document::Refusal;

// A reply of these bytes, after which the session goes on.
fn constant(text: &'static [u8]) -> Reply
    ensures bytes { reply_bytes result.text ≡ text.now }
    ensures stays { result.closes ≡ false }
{
    Reply {
        text: ReplyText::Constant(text),
        closes: false,
    }
}

/// The edit is made.
pub fn done() -> Reply
    ensures { Says Done result }
{
    constant(b"{\"ok\":true}\n")
}

/// The session ends.
pub fn closed() -> Reply
    ensures { Says Closed result }
{
    Reply {
        text: ReplyText::Constant(b"{\"ok\":true}\n"),
        closes: true,
    }
}

/// The line is longer than 65,536 bytes.
pub fn line_too_long() -> Reply
    ensures { Says (Refused LineTooLong) result }
{
    constant(b"{\"error\":1,\"ok\":false,\"text\":\"line too long\"}\n")
}

/// The line is no JSON.
pub fn not_json() -> Reply
    ensures { Says (Refused NotJson) result }
{
    constant(b"{\"error\":2,\"ok\":false,\"text\":\"not JSON\"}\n")
}

/// The line is no object with an op that is known and its keys.
pub fn shape() -> Reply
    ensures { Says (Refused Shape) result }
{
    constant(b"{\"error\":3,\"ok\":false,\"text\":\"shape\"}\n")
}

/// The documents refuse the request.
pub fn refused(refusal: Refusal) -> Reply
    ensures { Says (Refused (ByDocuments refusal)) result }
{
    match refusal {
        Refusal::UnknownTheory => {
            constant(b"{\"error\":4,\"ok\":false,\"text\":\"unknown theory\"}\n")
        }
        Refusal::TheoryNameTaken => {
            constant(b"{\"error\":5,\"ok\":false,\"text\":\"theory name taken\"}\n")
        }
        Refusal::BadTheoryName => {
            constant(b"{\"error\":6,\"ok\":false,\"text\":\"bad theory name\"}\n")
        }
        Refusal::PositionOutOfRange => {
            constant(b"{\"error\":7,\"ok\":false,\"text\":\"position out of range\"}\n")
        }
        Refusal::TooMany => constant(b"{\"error\":8,\"ok\":false,\"text\":\"too many\"}\n"),
    }
}

/// A growth was refused.
pub fn memory() -> Reply
    ensures { Says (Refused Memory) result }
{
    constant(b"{\"error\":9,\"ok\":false,\"text\":\"memory\"}\n")
}
