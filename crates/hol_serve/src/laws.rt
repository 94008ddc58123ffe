//! The law of the machine.
ghost use Rattle.std.specs.Prelude.{◌≡◌, ◌⊎◌, ℕ, List};
ghost use Rattle.hol_wire.specs.Replies.{ReplyValue, Refused, Memory};
ghost use Rattle.hol_session.specs.Machine.{Counted, Machine};

/// The machine answers a line in one way at most, and leaves the same documents, but for want of memory.
pub(crate) fn one_answer_or_memory()
    ensures { (old : Counted) (line : List ℕ) (a b : ReplyValue) (m n : Counted) → Machine old line a m → Machine old line b n
        → (a ≡ Refused Memory) ⊎ ((b ≡ Refused Memory) ⊎ ((a ≡ b) × (m.documents ≡ n.documents))) }
{}
