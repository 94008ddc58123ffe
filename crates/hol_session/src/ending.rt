//! How the program ends.

ghost use Rattle.std.specs.Prelude.{◌≡◌};
ghost use Rattle.hol_session.specs.Ending.{status_of, told_of};

/// Why the program ends before the end of its input.
#[derive(Clone, Copy, Debug, Drop, PartialEq, Eq)]
pub enum Ending {
    /// The program's words were refused.
    BadWords,
    /// Standard input failed.
    Read,
    /// Standard output failed.
    Write,
    /// There was no memory to begin with.
    Memory,
}

impl Ending {
    /// The program's exit status.
    pub fn status(self) -> u8
        ensures { result ≡ status_of self }
    {
        match self {
            Ending::BadWords => 2,
            Ending::Read | Ending::Write | Ending::Memory => 1,
        }
    }

    /// Its line on standard error, with its newline.
    pub fn line(self) -> &'static [u8]
        ensures { result.now ≡ told_of self }
    {
        match self {
            Ending::BadWords => b"hol-serve: bad words\n",
            Ending::Read => b"hol-serve: read fault\n",
            Ending::Write => b"hol-serve: write fault\n",
            Ending::Memory => b"hol-serve: no memory\n",
        }
    }
}
