//! The functions that rewrite the conclusion. Each rewrite costs a turn, and where the conclusion is `T` in the end the goal is closed.
ghost use Rattle.std.specs.Prelude.{◌≡◌, ◌++◌, [], List, map, IfOk, OnOk};
ghost use Rattle.hol_terms.specs.Nameless.{nameless};
ghost use Rattle.hol_kernel.specs.Given.{Given, assumed};
ghost use Rattle.hol_match.specs.Contracta.{contracta};
ghost use Rattle.hol_match.specs.SetView.{set_rules, AreOf};
ghost use Rattle.hol_goal.specs.Answer.{starting};
ghost use Rattle.hol_goal.specs.ArgumentsView.{args_value};
ghost use Rattle.hol_goal.specs.Formulas.{AreFormulas};
ghost use Rattle.hol_goal.specs.declared.tac_code.TacCode.TheVariants as code;
ghost use Rattle.hol_just.specs.ConversionTacs.{basic, rules_by, rewritten_by, rewritten_once_by, converted};
ghost use Rattle.hol_just.specs.Answering.{IsAnswered, AnswersCode, IsJustified};
ghost use Rattle.hol_steps.specs.Converting.{LeadsBy};

use hol_conv::{once, rewrite};
use hol_goal::{Goal, Names, TacArgs};
use hol_just::{TacFault, Tried, assumption};
use hol_kernel::Given;
use hol_match::RuleSet;
use hol_prelude::Prelude;
use hol_steps::converted;
use hol_terms::Term;
use std::alloc::{AllocError, Global};

/// REWRITE_TAC rewrites the conclusion to the end, by the theorems and then the basic rewrites.
pub fn rewrite_tac(
    alloc: Global,
    prelude: &Prelude,
    args: &TacArgs,
    goal: &Goal,
    names: &Names,
    turns: u32,
) -> Result<Tried, TacFault>
    ensures answer { AnswersCode code.RewriteTac (args_value args.now) goal.now names.now turns result }
    ensures valid { IfOk result (λ tried. IsJustified (args_value args.now) goal.now tried.step) }
{
    let TacArgs::Theorems(ths) = args else {
        return Err(TacFault::Refused(turns, Vec::new(alloc)));
    };
    let rules = with_basic(alloc, prelude, ths)?;
    rewritten(alloc, goal, turns, &rules)
}

/// ONCE_REWRITE_TAC rewrites each topmost part of the conclusion once, by the theorems and then the basic rewrites.
pub fn once_rewrite_tac(
    alloc: Global,
    prelude: &Prelude,
    args: &TacArgs,
    goal: &Goal,
    names: &Names,
    turns: u32,
) -> Result<Tried, TacFault>
    ensures answer { AnswersCode code.OnceRewriteTac (args_value args.now) goal.now names.now turns result }
    ensures valid { IfOk result (λ tried. IsJustified (args_value args.now) goal.now tried.step) }
{
    let TacArgs::Theorems(ths) = args else {
        return Err(TacFault::Refused(turns, Vec::new(alloc)));
    };
    let rules = with_basic(alloc, prelude, ths)?;
    rewritten_once(alloc, goal, turns, &rules)
}

/// ASM_REWRITE_TAC rewrites the conclusion to the end, by the theorems, the assumptions, the newest first, and then the basic rewrites.
pub fn asm_rewrite_tac(
    alloc: Global,
    prelude: &Prelude,
    args: &TacArgs,
    goal: &Goal,
    names: &Names,
    turns: u32,
) -> Result<Tried, TacFault>
    ensures answer { AnswersCode code.AsmRewriteTac (args_value args.now) goal.now names.now turns result }
    ensures valid { IfOk result (λ tried. IsJustified (args_value args.now) goal.now tried.step) }
{
    let TacArgs::Theorems(ths) = args else {
        return Err(TacFault::Refused(turns, Vec::new(alloc)));
    };
    let rules = with_assumed(alloc, prelude, goal, ths)?;
    rewritten(alloc, goal, turns, &rules)
}

/// ONCE_ASM_REWRITE_TAC rewrites each topmost part of the conclusion once, by the same.
pub fn once_asm_rewrite_tac(
    alloc: Global,
    prelude: &Prelude,
    args: &TacArgs,
    goal: &Goal,
    names: &Names,
    turns: u32,
) -> Result<Tried, TacFault>
    ensures answer { AnswersCode code.OnceAsmRewriteTac (args_value args.now) goal.now names.now turns result }
    ensures valid { IfOk result (λ tried. IsJustified (args_value args.now) goal.now tried.step) }
{
    let TacArgs::Theorems(ths) = args else {
        return Err(TacFault::Refused(turns, Vec::new(alloc)));
    };
    let rules = with_assumed(alloc, prelude, goal, ths)?;
    rewritten_once(alloc, goal, turns, &rules)
}

/// PURE_REWRITE_TAC rewrites the conclusion to the end, by the theorems alone.
pub fn pure_rewrite_tac(
    alloc: Global,
    args: &TacArgs,
    goal: &Goal,
    names: &Names,
    turns: u32,
) -> Result<Tried, TacFault>
    ensures answer { AnswersCode code.PureRewriteTac (args_value args.now) goal.now names.now turns result }
    ensures valid { IfOk result (λ tried. IsJustified (args_value args.now) goal.now tried.step) }
{
    let TacArgs::Theorems(ths) = args else {
        return Err(TacFault::Refused(turns, Vec::new(alloc)));
    };
    let rules = RuleSet::new(alloc, ths)?;
    rewritten(alloc, goal, turns, &rules)
}

// The conclusion is rewritten to the end by the rules.
fn rewritten(alloc: Global, goal: &Goal, turns: u32, rules: &RuleSet) -> Result<Tried, TacFault>
    ensures answer { (givens : List Given) → contracta (set_rules rules.now.rules.items) ≡ contracta (rules_by givens) → IsAnswered (converted (rewritten_by givens goal.now turns) goal.now (starting turns)) result }
    ensures valid { (givens : List Given) → AreOf givens rules.now.rules.items → IfOk result (λ tried. LeadsBy goal.now givens tried.step) }
{
    let outcome = rewrite(alloc, rules, goal.conclusion(), turns);
    converted(alloc, goal, outcome)
}

// Each topmost part of the conclusion is rewritten once by the rules.
fn rewritten_once(
    alloc: Global,
    goal: &Goal,
    turns: u32,
    rules: &RuleSet,
) -> Result<Tried, TacFault>
    ensures answer { (givens : List Given) → contracta (set_rules rules.now.rules.items) ≡ contracta (rules_by givens) → IsAnswered (converted (rewritten_once_by givens goal.now turns) goal.now (starting turns)) result }
    ensures valid { (givens : List Given) → AreOf givens rules.now.rules.items → IfOk result (λ tried. LeadsBy goal.now givens tried.step) }
{
    let outcome = once(alloc, rules, goal.conclusion(), turns);
    converted(alloc, goal, outcome)
}

// The rules of the theorems, and then the basic rewrites.
fn with_basic(alloc: Global, prelude: &Prelude, ths: &[Given]) -> Result<RuleSet, AllocError>
    ensures rules { IfOk result (λ set. contracta (set_rules set.rules.items) ≡ contracta (rules_by (ths.now ++ basic))) }
    ensures given { IfOk result (λ set. AreOf (ths.now ++ basic) set.rules.items) }
{
    RuleSet::with_kept(alloc, ths, prelude.basic())
}

// The rules of the theorems and the assumptions, and then the basic rewrites.
fn with_assumed(
    alloc: Global,
    prelude: &Prelude,
    goal: &Goal,
    ths: &[Given],
) -> Result<RuleSet, AllocError>
    ensures rules { IfOk result (λ set. contracta (set_rules set.rules.items) ≡ contracta (rules_by (ths.now ++ (map assumed goal.now.assumptions ++ basic)))) }
    ensures given { IfOk result (λ set. AreOf (ths.now ++ (map assumed goal.now.assumptions ++ basic)) set.rules.items) }
{
    let mut givens = Vec::new(alloc);
    add_givens(&mut givens, ths)?;
    add_assumed(&mut givens, goal.assumptions())?;
    RuleSet::with_kept(alloc, &givens, prelude.basic())
}

// Puts copies at the end.
fn add_givens(to: &mut Vec<Given>, ths: &[Given]) -> Result<(), AllocError>
    ensures { OnOk result (to.new.items ≡ to.old.items ++ ths.now) }
{
    for th in ths {
        to.push(th.copy()?)?;
    }
    Ok(())
}

// Puts the formulas at the end, as assumed.
fn add_assumed(to: &mut Vec<Given>, formulas: &[Term]) -> Result<(), AllocError>
    requires { AreFormulas formulas.now }
    ensures { OnOk result (to.new.items ≡ to.old.items ++ map assumed (map (nameless []) formulas.now)) }
{
    for p in formulas {
        to.push(assumption(p)?)?;
    }
    Ok(())
}
