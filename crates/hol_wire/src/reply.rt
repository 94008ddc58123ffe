//! A reply, and its bytes.

ghost use Rattle.std.specs.Prelude.{◌≡◌};

/// A reply to a line.
#[derive(Drop)]
pub struct Reply {
    /// Its bytes.
    pub text: ReplyText,
    /// Whether the session ends with it.
    pub closes: bool,
}

/// A reply's bytes, with its newline.
#[derive(Drop)]
pub enum ReplyText {
    /// The same for each request. It takes no memory.
    Constant(&'static [u8]),
    /// Made for one request.
    Owned(Vec<u8>),
}

impl Reply {
    ghost use Rattle.hol_wire.specs.ReplyBytes.{reply_bytes};

    /// Its bytes, with its newline.
    pub fn as_bytes(&self) -> &[u8]
        ensures { result.now ≡ reply_bytes self.now.text }
    {
        match &self.text {
            ReplyText::Constant(text) => text,
            ReplyText::Owned(text) => text.as_slice(),
        }
    }
}
