//! The functions on goals by their codes.
ghost use Rattle.std.specs.Prelude.{IfOk};
ghost use Rattle.hol_goal.specs.ArgumentsView.{args_value};
ghost use Rattle.hol_just.specs.Answering.{AnswersCode, IsJustified};

use crate::applications::{ap_term_tac, ap_thm_tac, mk_comb_tac};
use crate::assumptions::undisch_tac;
use crate::choosing::{choose_tac, x_choose_tac};
use crate::connectives::{
    accept_tac, assume_tac, conj_tac, contr_tac, disch_tac, disj_cases_tac, disj1_tac, disj2_tac,
    mp_tac,
};
use crate::converting::beta_tac;
use crate::equations::{eq_tac, refl_tac};
use crate::matching::match_mp_tac;
use crate::quantifiers::{exists_tac, gen_tac, x_gen_tac};
use crate::rewriting::{
    asm_rewrite_tac, once_asm_rewrite_tac, once_rewrite_tac, pure_rewrite_tac, rewrite_tac,
};
use crate::stripping::{strip_assume_tac, strip_tac};
use crate::substituting::{spec_tac, subst1_tac};
use crate::trivial::{all_tac, no_tac};
use hol_goal::{Goal, Names, TacArgs, TacCode};
use hol_just::{TacFault, Tried};
use hol_prelude::Prelude;
use std::alloc::Global;

/// What the function of a code answers. Those that rewrite take the basic rewrites from the prelude.
pub fn tac(
    alloc: Global,
    prelude: &Prelude,
    code: TacCode,
    args: &TacArgs,
    goal: &Goal,
    names: &Names,
    turns: u32,
) -> Result<Tried, TacFault>
    ensures answer { AnswersCode code (args_value args.now) goal.now names.now turns result }
    ensures valid { IfOk result (λ tried. IsJustified (args_value args.now) goal.now tried.step) }
{
    match code {
        TacCode::AllTac => all_tac(alloc, args, goal, names, turns),
        TacCode::NoTac => no_tac(alloc, args, goal, names, turns),
        TacCode::ReflTac => refl_tac(alloc, args, goal, names, turns),
        TacCode::AcceptTac => accept_tac(alloc, args, goal, names, turns),
        TacCode::ConjTac => conj_tac(alloc, args, goal, names, turns),
        TacCode::Disj1Tac => disj1_tac(alloc, args, goal, names, turns),
        TacCode::Disj2Tac => disj2_tac(alloc, args, goal, names, turns),
        TacCode::EqTac => eq_tac(alloc, args, goal, names, turns),
        TacCode::DischTac => disch_tac(alloc, args, goal, names, turns),
        TacCode::GenTac => gen_tac(alloc, args, goal, names, turns),
        TacCode::XGenTac => x_gen_tac(alloc, args, goal, names, turns),
        TacCode::ExistsTac => exists_tac(alloc, args, goal, names, turns),
        TacCode::MpTac => mp_tac(alloc, args, goal, names, turns),
        TacCode::AssumeTac => assume_tac(alloc, args, goal, names, turns),
        TacCode::ContrTac => contr_tac(alloc, args, goal, names, turns),
        TacCode::ApTermTac => ap_term_tac(alloc, args, goal, names, turns),
        TacCode::ApThmTac => ap_thm_tac(alloc, args, goal, names, turns),
        TacCode::MkCombTac => mk_comb_tac(alloc, args, goal, names, turns),
        TacCode::UndischTac => undisch_tac(alloc, args, goal, names, turns),
        TacCode::ChooseTac => choose_tac(alloc, args, goal, names, turns),
        TacCode::XChooseTac => x_choose_tac(alloc, args, goal, names, turns),
        TacCode::DisjCasesTac => disj_cases_tac(alloc, args, goal, names, turns),
        TacCode::Subst1Tac => subst1_tac(alloc, args, goal, names, turns),
        TacCode::SpecTac => spec_tac(alloc, args, goal, names, turns),
        TacCode::StripAssumeTac => strip_assume_tac(alloc, args, goal, names, turns),
        TacCode::StripTac => strip_tac(alloc, args, goal, names, turns),
        TacCode::BetaTac => beta_tac(alloc, args, goal, names, turns),
        TacCode::MatchMpTac => match_mp_tac(alloc, args, goal, names, turns),
        TacCode::RewriteTac => rewrite_tac(alloc, prelude, args, goal, names, turns),
        TacCode::OnceRewriteTac => once_rewrite_tac(alloc, prelude, args, goal, names, turns),
        TacCode::AsmRewriteTac => asm_rewrite_tac(alloc, prelude, args, goal, names, turns),
        TacCode::OnceAsmRewriteTac => once_asm_rewrite_tac(
            alloc, prelude, args, goal, names, turns,
        ),
        TacCode::PureRewriteTac => pure_rewrite_tac(alloc, args, goal, names, turns),
    }
}
