//! How much room the texts that are told at once have.
ghost use Rattle.std.specs.Prelude.{◌≡◌, ◌<◌, ◌+◌, ◌++◌, length, OnOk, OnErr, string_bytes};

use std::alloc::AllocError;
use std::marker::Model;

// The most bytes of a term's or a type's text. One that would be longer finds no memory.
const LARGEST_TEXT: usize = 16_777_216;

// The most bytes of the texts that are told at once.
const LARGEST_TEXTS: usize = 67_108_864;

/// How many bytes more the texts that are told at once may have: 64 MiB at first. A text for which no room is left finds no memory.
#[derive(Drop)]
pub struct Room {
    left: usize,
}

impl Model for Room {
    ghost use Rattle.std.specs.Prelude.{ℕ};

    ghost Value = { ℕ };

    ghost view = { λ r. r.left };
}

impl Room {
    /// That of texts of which none was told yet.
    pub fn new() -> Room
        ensures { result ≡ 67108864 }
    {
        Room {
            left: LARGEST_TEXTS,
        }
    }

    /// Takes that of a text.
    pub fn take(&mut self, text: &str) -> Result<(), AllocError>
        ensures ok { OnOk result (self.old ≡ self.new + length text.now) }
        ensures err { OnErr result (self.old < length text.now) }
        ensures kept { OnErr result (self.new ≡ self.old) }
    {
        if text.len() > self.left {
            return Err(AllocError);
        }
        self.left -= text.len();
        Ok(())
    }
}

/// Puts the name at the end, where there is room for it.
pub(crate) fn put_name(text: &mut String, name: &str) -> Result<(), AllocError>
    ensures { OnOk result (string_bytes text.new ≡ string_bytes text.old ++ name.now) }
{
    if text.len() >= LARGEST_TEXT || name.len() >= LARGEST_TEXT - text.len() {
        return Err(AllocError);
    }
    text.push_str(name)
}
