//! What rules were made of.
ghost use Rattle.std.specs.Prelude.{◌≡◌, ℕ, List, [], true, map, IfOk, IsTrue};
ghost use Rattle.std.specs.FinSet as set;
ghost use Rattle.std.specs.Coded.{Coded-set, coded_list};
ghost use Rattle.hol_types.specs.Tree.{TypeTree};
ghost use Rattle.hol_types.specs.Names.{is_among};
ghost use Rattle.hol_terms.specs.Nameless.{nameless};
ghost use Rattle.hol_terms.specs.Code.{coded_variable};
ghost use Rattle.hol_terms.specs.Scoped.{binds};
ghost use Rattle.hol_subst.specs.Variant.{is_free_in};
ghost use Rattle.hol_subst.specs.Hypotheses.{hyps_of};
ghost use Rattle.hol_formulas.specs.Equation.{bool_type};
ghost use Rattle.hol_kernel.specs.Given.{given_sequent};
ghost use Rattle.hol_kernel.specs.Items.{Items};
ghost use Rattle.hol_kernel.specs.Typing.{has_type, HasType};
ghost use Rattle.hol_match.specs.Fixed.{AreFixed};
ghost use Rattle.hol_match.specs.Givens.{holds_given};
ghost use Rattle.hol_match.specs.Rules.{pattern_variables};
ghost use Rattle.hol_match.specs.Opening.{has_type_var_in};

use crate::fixed::Fixed;
use crate::rule::Rule;
use crate::rules::{pattern_variables, rules_of};
use hol_kernel::{Given, GivenNode};
use hol_terms::{Term, Variable};
use std::alloc::{AllocError, Global};

/// A theorem or an assumed term, from which rules were made.
#[derive(Drop)]
pub struct Source {
    given: Given,
    fixed: Fixed,
    variables: Vec<Variable>,
    ghost own: { variables.items ≡ pattern_variables fixed.variables.items (given_sequent given).concl } by { Coded-set (coded_list coded_variable) variables.items (pattern_variables fixed.variables.items (given_sequent given).concl) },
    ghost variables_stay: { (v : List ℕ × TypeTree) → is_free_in (set.items (given_sequent given).hyps) v ≡ true → binds fixed.variables.items v ≡ true },
    ghost names_stay: { (a : List ℕ) → has_type_var_in (set.items (given_sequent given).hyps) a ≡ true → is_among fixed.names.items a ≡ true },
    ghost formula: { (basis : Items) → holds_given given basis ≡ true → has_type basis (given_sequent given).concl bool_type ≡ true },
}

impl Source {
    ghost use Rattle.std.specs.List.{AllByRecursion};
    ghost use Rattle.hol_match.specs.Rules.{rules_of};
    ghost use Rattle.hol_match.specs.RuleView.{rule_values};
    ghost use Rattle.hol_match.specs.Ways.{rule_ways};
    ghost use Rattle.hol_match.specs.Sources.{IsSound, IsFrom};

    /// What the rules of the theorem, or of the assumed term, are made of, for its hypotheses.
    #[tactic(auto, using(crate::proofs::Keeping::staying))]
    pub(crate) fn of(alloc: Global, given: &Given, hyps: &[Term]) -> Result<Source, AllocError>
        requires { hyps_of hyps.now ≡ (given_sequent given.now).hyps }
        ensures given { IfOk result (λ s. s.given ≡ given.now) }
        ensures fixed { IfOk result (λ s. AreFixed (map (λ t. nameless [] t) hyps.now) s.fixed) }
    {
        let fixed = Fixed::of(alloc, hyps)?;
        let variables = pattern_variables(alloc, &fixed, given.concl())?;
        conclusion_typed(given);
        Ok(Source {
            given: given.copy()?,
            fixed,
            variables,
        })
    }

    /// The rules, for its hypotheses.
    #[tactic(auto, using(crate::proofs::Keeping::rules_from))]
    pub(crate) fn rules(&self, alloc: Global, hyps: &[Term]) -> Result<Vec<Rule>, AllocError>
        requires { AreFixed (map (λ t. nameless [] t) hyps.now) self.now.fixed }
        ensures are { IfOk result (λ rules. rule_values rules.items ≡ rules_of (map (λ t. nameless [] t) hyps.now) (given_sequent self.now.given).concl) }
        ensures from { IfOk result (λ rules. AllByRecursion (IsFrom self.now) (rule_ways rules.items)) }
    {
        rules_of(
            alloc,
            hyps,
            &self.fixed,
            self.variables.as_slice(),
            self.given.concl(),
        )
    }

    /// What was given.
    pub(crate) fn given(&self) -> &Given
        ensures { result.now ≡ self.now.given }
    {
        &self.given
    }

    /// The variables and type variables of the hypotheses, which stay.
    pub(crate) fn fixed(&self) -> &Fixed
        ensures { result.now ≡ self.now.fixed }
    {
        &self.fixed
    }

    /// The free variables of the conclusion that may be instantiated.
    pub(crate) fn variables(&self) -> &[Variable]
        ensures { result.now ≡ self.now.variables.items }
    {
        self.variables.as_slice()
    }

    /// The variables that may be instantiated are those of the conclusion alone, what the hypotheses have is kept, and the conclusion is a
    /// formula wherever what was given can be read.
    pub(crate) fn sound(&self)
        ensures { IsSound self.now }
    {
        let _given = &self.given;
    }
}

/// The conclusion is a formula over each basis that contains the theorem's, or over which the term can be assumed.
pub fn conclusion_typed(given: &Given)
    ensures { (basis : Items) → IsTrue (holds_given given.now basis) → HasType basis (given_sequent given.now).concl bool_type }
{
    match given.node() {
        GivenNode::Theorem(theorem) => theorem.well_typed(),
        GivenNode::Assumed(_) => {}
    }
}
