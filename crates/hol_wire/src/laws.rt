//! Laws of replies.
ghost use Rattle.std.specs.Prelude.{◌≡◌, ◌⊎◌};
ghost use Rattle.hol_wire.specs.Apart.{AreDoneAndClosed, HasCount};
ghost use Rattle.hol_wire.specs.Replies.{Closed, Done, ReplyValue, reply_line};

/// Two different replies have different lines, but for the one to an edit that is made and the one to `close`: a client knows what it sent.
pub fn replies_are_told_apart()
    ensures apart { (a b : ReplyValue) → HasCount a → HasCount b → reply_line a ≡ reply_line b → (a ≡ b) ⊎ AreDoneAndClosed a b }
    ensures alike { reply_line Done ≡ reply_line Closed }
{}
