//! The rules by which theorems are written.
ghost use Rattle.std.specs.Prelude.{◌≡◌};
ghost use Rattle.hol_resolve.specs.Forward.{rule_word};

/// The rules by which theorems are written, under the names that the HOL Light Reference Manual has for them.
#[derive(Clone, Copy, Debug, PartialEq, Eq)]
pub enum ForwardRule {
    /// `ASSUME p`: `{p} |- p`.
    Assume,
    /// `REFL t`: `|- t = t`.
    Refl,
    /// `SPEC t th`: from `!x. p`, `p` with `t` for `x`.
    Spec,
    /// `SYM th`: from `s = t`, `t = s`.
    Sym,
    /// `CONJUNCT1 th`: from `p /\ q`, `p`.
    Conjunct1,
    /// `CONJUNCT2 th`: from `p /\ q`, `q`.
    Conjunct2,
    /// `MP a b`: from `p ==> q` and `p`, `q`.
    Mp,
    /// `INST_TYPE [ty, v; ..] th`: types for type variables.
    InstType,
}

impl ForwardRule {
    /// The word that is written for it.
    pub fn word(self) -> &'static str
        ensures { result.now ≡ rule_word self }
    {
        match self {
            ForwardRule::Assume => "ASSUME",
            ForwardRule::Refl => "REFL",
            ForwardRule::Spec => "SPEC",
            ForwardRule::Sym => "SYM",
            ForwardRule::Conjunct1 => "CONJUNCT1",
            ForwardRule::Conjunct2 => "CONJUNCT2",
            ForwardRule::Mp => "MP",
            ForwardRule::InstType => "INST_TYPE",
        }
    }
}
