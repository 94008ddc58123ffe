//! Marks, which tell whether two references lead to one place.
#![tactic(auto)]

ghost use Rattle.std.specs.Prelude.{◌≡◌, Bool, true};
ghost use base.Stored.{Gv};
ghost use base.Fml.{fex};
ghost use Rattle.hol_mark.specs.Mark.{coded_shape, mark_shares};

use std::marker::{Move, Owns};

/// A mark in a value that others share: where two marks are one, so are the values around them. A clause sees what it says of its value,
/// which never changes.
#[derive(Drop)]
pub struct Mark {
    byte: u8,
}

impl Owns for Mark {
    ghost Value = { Gv };

    ghost coded = { coded_shape };

    ghost shr_at = { λ d p κ. mark_shares Fields d p κ };
}

impl Move for Mark {
    ghost own_val = { λ _ vs. fex Inside (λ i. Fields.own_val i vs) };
}

impl Mark {
    // A mark that says what the caller picks.
    fn new() -> Mark
        ghost says: { Gv }
        ensures { result ≡ says }
    {
        Mark { byte: 0 }
    }

    /// A mark that says something of the value, which the call picks.
    pub fn about<T>(value: &T) -> Mark
        ghost says: { Gv }
        ensures { result ≡ says }
    {
        let _ = value;
        Mark::new()
    }

    /// Whether the two are one mark, and so say the same. No clause says that one mark is found to be one.
    ///
    /// It writes to both, and reads what the first has then: so it needs no addresses, of which the logic knows nothing.
    pub fn same(&self, other: &Mark) -> bool
        ensures { result ≡ true → self.now ≡ other.now }
    {
        let mine = &raw const self.byte as *mut u8;
        let its = &raw const other.byte as *mut u8;
        unsafe {
            mine.write(0);
            its.write(1);
            mine.read() != 0
        }
    }
}
