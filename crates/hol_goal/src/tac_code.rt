//! The functions on goals whose names end in `_TAC` (HOL Light Reference Manual), by their codes.
ghost use Rattle.std.specs.Prelude.{◌≡◌};
ghost use Rattle.hol_goal.specs.Arguments.{arguments_of};
ghost use Rattle.hol_goal.specs.TacNames.{tac_name};

use crate::tac_args::ArgumentKind;

/// The functions on goals, each by the name that the HOL Light Reference Manual has for it.
#[derive(Clone, Copy, Debug, PartialEq, Eq)]
pub enum TacCode {
    /// ALL_TAC leaves the goal as it is.
    AllTac,
    /// NO_TAC fits no goal.
    NoTac,
    /// REFL_TAC closes `s = s`.
    ReflTac,
    /// ACCEPT_TAC closes a goal that the theorem concludes.
    AcceptTac,
    /// CONJ_TAC leaves `p` and `q` of `p /\ q`.
    ConjTac,
    /// DISJ1_TAC leaves `p` of `p \/ q`.
    Disj1Tac,
    /// DISJ2_TAC leaves `q` of `p \/ q`.
    Disj2Tac,
    /// EQ_TAC leaves `p ==> q` and `q ==> p` of `p <=> q`.
    EqTac,
    /// DISCH_TAC assumes `p` of `p ==> q` or `~p`.
    DischTac,
    /// GEN_TAC leaves `p` of `!x. p`, at a fresh variable.
    GenTac,
    /// X_GEN_TAC leaves `p` of `!x. p`, at a variable.
    XGenTac,
    /// EXISTS_TAC leaves `p` of `?x. p`, at a term.
    ExistsTac,
    /// SPEC_TAC leaves `!x. p`, with a variable in the places of a term.
    SpecTac,
    /// MP_TAC leaves `c ==> w` of `w`, for a theorem `c`.
    MpTac,
    /// ASSUME_TAC assumes a theorem.
    AssumeTac,
    /// CONTR_TAC closes a goal by a theorem `F`.
    ContrTac,
    /// CHOOSE_TAC assumes `p` of a theorem `?x. p`, at a fresh variable.
    ChooseTac,
    /// X_CHOOSE_TAC assumes `p` of a theorem `?x. p`, at a variable.
    XChooseTac,
    /// DISJ_CASES_TAC assumes `p`, and then `q`, of a theorem `p \/ q`.
    DisjCasesTac,
    /// SUBST1_TAC puts `t` in the places of `s`, for a theorem `s = t`.
    Subst1Tac,
    /// AP_TERM_TAC leaves `x = y` of `f x = f y`.
    ApTermTac,
    /// AP_THM_TAC leaves `f = g` of `f x = g x`.
    ApThmTac,
    /// MK_COMB_TAC leaves `f = g` and `x = y` of `f x = g y`.
    MkCombTac,
    /// UNDISCH_TAC leaves `p ==> w` of `w`, for an assumption `p`.
    UndischTac,
    /// STRIP_ASSUME_TAC assumes the parts of a theorem.
    StripAssumeTac,
    /// STRIP_TAC takes the outermost connective or quantifier off.
    StripTac,
    /// MATCH_MP_TAC leaves what an implication asks for.
    MatchMpTac,
    /// BETA_TAC contracts each beta redex.
    BetaTac,
    /// REWRITE_TAC rewrites by theorems and the basic rewrites.
    RewriteTac,
    /// ONCE_REWRITE_TAC does so once.
    OnceRewriteTac,
    /// ASM_REWRITE_TAC rewrites by theorems, the assumptions and the basic rewrites.
    AsmRewriteTac,
    /// ONCE_ASM_REWRITE_TAC does so once.
    OnceAsmRewriteTac,
    /// PURE_REWRITE_TAC rewrites by theorems alone.
    PureRewriteTac,
}

impl TacCode {
    /// The name that the Reference Manual has for it.
    pub fn name(self) -> &'static str
        ensures { result.now ≡ tac_name self }
    {
        match self {
            TacCode::AllTac => "ALL_TAC",
            TacCode::NoTac => "NO_TAC",
            TacCode::ReflTac => "REFL_TAC",
            TacCode::AcceptTac => "ACCEPT_TAC",
            TacCode::ConjTac => "CONJ_TAC",
            TacCode::Disj1Tac => "DISJ1_TAC",
            TacCode::Disj2Tac => "DISJ2_TAC",
            TacCode::EqTac => "EQ_TAC",
            TacCode::DischTac => "DISCH_TAC",
            TacCode::GenTac => "GEN_TAC",
            TacCode::XGenTac => "X_GEN_TAC",
            TacCode::ExistsTac => "EXISTS_TAC",
            TacCode::SpecTac => "SPEC_TAC",
            TacCode::MpTac => "MP_TAC",
            TacCode::AssumeTac => "ASSUME_TAC",
            TacCode::ContrTac => "CONTR_TAC",
            TacCode::ChooseTac => "CHOOSE_TAC",
            TacCode::XChooseTac => "X_CHOOSE_TAC",
            TacCode::DisjCasesTac => "DISJ_CASES_TAC",
            TacCode::Subst1Tac => "SUBST1_TAC",
            TacCode::ApTermTac => "AP_TERM_TAC",
            TacCode::ApThmTac => "AP_THM_TAC",
            TacCode::MkCombTac => "MK_COMB_TAC",
            TacCode::UndischTac => "UNDISCH_TAC",
            TacCode::StripAssumeTac => "STRIP_ASSUME_TAC",
            TacCode::StripTac => "STRIP_TAC",
            TacCode::MatchMpTac => "MATCH_MP_TAC",
            TacCode::BetaTac => "BETA_TAC",
            TacCode::RewriteTac => "REWRITE_TAC",
            TacCode::OnceRewriteTac => "ONCE_REWRITE_TAC",
            TacCode::AsmRewriteTac => "ASM_REWRITE_TAC",
            TacCode::OnceAsmRewriteTac => "ONCE_ASM_REWRITE_TAC",
            TacCode::PureRewriteTac => "PURE_REWRITE_TAC",
        }
    }

    /// The kind of arguments that it takes.
    pub fn arguments(self) -> ArgumentKind
        ensures { result ≡ arguments_of self }
    {
        match self {
            TacCode::AllTac => ArgumentKind::Nothing,
            TacCode::NoTac => ArgumentKind::Nothing,
            TacCode::ReflTac => ArgumentKind::Nothing,
            TacCode::AcceptTac => ArgumentKind::Theorem,
            TacCode::ConjTac => ArgumentKind::Nothing,
            TacCode::Disj1Tac => ArgumentKind::Nothing,
            TacCode::Disj2Tac => ArgumentKind::Nothing,
            TacCode::EqTac => ArgumentKind::Nothing,
            TacCode::DischTac => ArgumentKind::Nothing,
            TacCode::GenTac => ArgumentKind::Nothing,
            TacCode::XGenTac => ArgumentKind::Term,
            TacCode::ExistsTac => ArgumentKind::Term,
            TacCode::SpecTac => ArgumentKind::Pair,
            TacCode::MpTac => ArgumentKind::Theorem,
            TacCode::AssumeTac => ArgumentKind::Theorem,
            TacCode::ContrTac => ArgumentKind::Theorem,
            TacCode::ChooseTac => ArgumentKind::Theorem,
            TacCode::XChooseTac => ArgumentKind::TermAndTheorem,
            TacCode::DisjCasesTac => ArgumentKind::Theorem,
            TacCode::Subst1Tac => ArgumentKind::Theorem,
            TacCode::ApTermTac => ArgumentKind::Nothing,
            TacCode::ApThmTac => ArgumentKind::Nothing,
            TacCode::MkCombTac => ArgumentKind::Nothing,
            TacCode::UndischTac => ArgumentKind::Term,
            TacCode::StripAssumeTac => ArgumentKind::Theorem,
            TacCode::StripTac => ArgumentKind::Nothing,
            TacCode::MatchMpTac => ArgumentKind::Theorem,
            TacCode::BetaTac => ArgumentKind::Nothing,
            TacCode::RewriteTac => ArgumentKind::Theorems,
            TacCode::OnceRewriteTac => ArgumentKind::Theorems,
            TacCode::AsmRewriteTac => ArgumentKind::Theorems,
            TacCode::OnceAsmRewriteTac => ArgumentKind::Theorems,
            TacCode::PureRewriteTac => ArgumentKind::Theorems,
        }
    }
}
