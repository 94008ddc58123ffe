//! Rules that are kept, to be put into sets.
ghost use Rattle.std.specs.Prelude.{◌≡◌, ◌+◌, ◌<◌, ◌^◌, ◌++◌, List, IfOk, OnOk, length};
ghost use Rattle.hol_kernel.specs.Given.{Given, given_sequent};
ghost use Rattle.hol_match.specs.Apart.{AddsVariables};
ghost use Rattle.hol_match.specs.RulesKept.{FirstOf};
ghost use Rattle.hol_match.specs.SetView.{Adds, AddsFrom, AreOf, set_rules};

use crate::binder::add_rule_variables;
use crate::rule::Rule;
use crate::rule_set::{add_rules, hypotheses};
use crate::set_rule::SetRule;
use crate::source::Source;
use hol_kernel::Given;
use hol_terms::Variable;
use std::alloc::{AllocError, Global};
use std::marker::Model;
use std::rc::Rc;

/// The rules of a theorem, or of an assumed term, which are made once and put into as many sets as are wanted.
#[derive(Drop)]
pub struct KeptRules {
    source: Rc<Source>,
    rules: Vec<Rule>,
}

impl Model for KeptRules {
    ghost use Rattle.hol_kernel.specs.Given.{Given, given_code};
    ghost use Rattle.hol_match.specs.RulesKept.{AreKeptOf};

    ghost Value = { Given };

    ghost coded = { given_code };

    ghost view = { λ k. k.source.value.given };

    ghost invariant = { λ k. AreKeptOf k.source.value k.rules.items };
}

impl KeptRules {
    /// The rules of the theorem, or of an assumed term `p`, which is read as `{p} |- p`.
    pub fn of(alloc: Global, given: &Given) -> Result<KeptRules, AllocError>
        ensures { IfOk result (λ kept. kept ≡ given.now) }
    {
        let hyps = hypotheses(given);
        let source = Source::of(alloc, given, hyps)?;
        let rules = source.rules(alloc, hyps)?;
        Ok(KeptRules {
            source: Rc::new(alloc, source)?,
            rules,
        })
    }

    /// Puts the rules at the end, as those of the theorem of number `i`, and their variables that are not there.
    pub(crate) fn add_to(
        &self,
        alloc: Global,
        all: &mut Vec<SetRule>,
        variables: &mut Vec<Variable>,
        i: usize,
    ) -> Result<(), AllocError>
        ensures adds { OnOk result (Adds i (given_sequent self.now) (set_rules all.old.items) (set_rules all.new.items)) }
        ensures given { OnOk result (AddsFrom i self.now all.old.items all.new.items) }
        ensures variables { OnOk result (AddsVariables (set_rules all.old.items) (set_rules all.new.items) variables.old.items variables.new.items) }
    {
        add_rule_variables(alloc, variables, self.source.fixed(), &self.rules)?;
        add_rules(alloc, all, i, &self.source, &self.rules)?;
        Ok(())
    }
}

/// Puts the rules of each of these at the end, as those of the theorems of number `from` and on, and their variables that are not there.
pub(crate) fn add_kept(
    alloc: Global,
    all: &mut Vec<SetRule>,
    variables: &mut Vec<Variable>,
    from: usize,
    kept: &[KeptRules],
) -> Result<(), AllocError>
    requires { from + length kept.now < 2 ^ 64 }
    ensures first { OnOk result ((thms : List Given) → length thms ≡ from → FirstOf thms (set_rules all.old.items) → FirstOf (thms ++ kept.now) (set_rules all.new.items)) }
    ensures given { OnOk result ((thms : List Given) → length thms ≡ from → AreOf thms all.old.items → AreOf (thms ++ kept.now) all.new.items) }
    ensures variables { OnOk result (AddsVariables (set_rules all.old.items) (set_rules all.new.items) variables.old.items variables.new.items) }
{
    for (i, rules) in kept.iter().enumerate() {
        rules.add_to(alloc, all, variables, from + i)?;
    }
    Ok(())
}
