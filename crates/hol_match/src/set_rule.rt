//! Rules of sets.
ghost use Rattle.std.specs.Prelude.{◌≡◌, [], IfOk, IfSome, IsTrue, MatchOption, Some, None};
ghost use Rattle.std.specs.Option.{option_map};
ghost use Rattle.std.specs.Coded.{Coded-set, coded_option};
ghost use Rattle.hol_terms.specs.Nameless.{nameless};
ghost use Rattle.hol_match.specs.RuleSets.{IsTypedRule, fit};
ghost use Rattle.hol_match.specs.Matches.{IsMatch};
ghost use Rattle.hol_match.specs.Rules.{single_rule};
ghost use Rattle.hol_match.specs.RuleView.{rule_value};
ghost use Rattle.hol_match.specs.Fixed.{all_stay, stays};
ghost use Rattle.hol_match.specs.Heads.{is_settled};
ghost use Rattle.hol_match.specs.Ways.{rule_way, rule_code, way};
ghost use Rattle.hol_match.specs.Sources.{source_whole, IsFrom, IsSound};

use crate::fixed::Fixed;
use crate::instance::Instance;
use crate::matching::match_with;
use crate::rule::Rule;
use crate::rules::is_determined;
use crate::source::Source;
use crate::way::Way;
use hol_kernel::Given;
use hol_terms::{Term, Variable};
use std::alloc::{AllocError, Global};
use std::rc::Rc;

/// A rule of a set.
#[derive(Drop)]
pub struct SetRule {
    rule: Rule,
    theorem: usize,
    place: usize,
    source: Rc<Source>,
    settled: bool,
    ghost all_stay: { settled ≡ all_stay source.value.fixed.names.items source.value.fixed.variables.items (nameless [] rule.left) },
    ghost way: { IsFrom source.value (rule_way rule) } by { Coded-set (coded_option rule_code) (option_map (single_rule source.value.fixed.names.items source.value.fixed.variables.items) (way rule.way (source_whole source.value))) (Some (rule_value rule)) },
}

impl SetRule {
    ghost use Rattle.hol_match.specs.SetView.{set_rule, set_given, set_variables, set_takes};

    /// The rule, of the theorem of number `theorem` and at that place among its rules.
    #[tactic(auto, using(crate::proofs::Ways::way_kept))]
    pub(crate) fn of(
        alloc: Global,
        rule: &Rule,
        theorem: usize,
        place: usize,
        source: &Rc<Source>,
    ) -> Result<SetRule, AllocError>
        requires { IsFrom source.now.value (rule_way rule.now) }
        ensures rule { IfOk result (λ r. set_rule r ≡ record { rule = rule_value rule.now; theorem = theorem; place = place; stays = stays source.now.value.fixed }) }
        ensures given { IfOk result (λ r. set_given r ≡ source.now.value.given) }
    {
        let settled = source.fixed().has_all(alloc, rule.left())?;
        Ok(SetRule {
            rule: rule.copy()?,
            theorem,
            place,
            source: source.clone()?,
            settled,
        })
    }

    /// An equal rule of the same theorem.
    #[tactic(auto, using(crate::proofs::Ways::way_kept))]
    pub fn copy(&self) -> Result<SetRule, AllocError>
        ensures rule { IfOk result (λ r. set_rule r ≡ set_rule self.now) }
        ensures given { IfOk result (λ r. set_given r ≡ set_given self.now) }
    {
        Ok(SetRule {
            rule: self.rule.copy()?,
            theorem: self.theorem,
            place: self.place,
            source: self.source.clone()?,
            settled: self.settled,
        })
    }

    /// What stays in the theorem's rules.
    pub(crate) fn fixed(&self) -> &Fixed
        ensures { stays result.now ≡ (set_rule self.now).stays }
    {
        self.source.fixed()
    }

    /// The theorem, or the assumed term.
    pub fn given(&self) -> &Given
        ensures { result.now ≡ set_given self.now }
    {
        self.source.given()
    }

    /// The free variables of the theorem's conclusion that may be instantiated: the rule is one of the conclusion, generalized over each
    /// of them in turn.
    pub fn variables(&self) -> &[Variable]
        ensures { result.now ≡ set_variables self.now }
    {
        self.source.variables()
    }

    /// The way from the generalized conclusion to the rule's formula.
    pub fn way(&self) -> &Way
        ensures { result.now ≡ self.now.rule.way }
    {
        self.rule.way()
    }

    /// Whether the rule of a formula `l = r` of the theorem is `l` to `r`: each variable and type variable of `r` stays, or is in `l`.
    pub fn takes(&self, alloc: Global, l: &Term, r: &Term) -> Result<bool, AllocError>
        ensures { IfOk result (λ b. b ≡ set_takes self.now (nameless [] l.now) (nameless [] r.now)) }
    {
        is_determined(alloc, self.source.fixed(), l, r)
    }

    /// The rule comes from its theorem.
    pub fn sound(&self)
        ensures source { IsSound self.now.source.value }
        ensures way { IsFrom self.now.source.value (rule_way self.now.rule) }
    {
        let _rule = &self.rule;
        self.source.sound();
    }

    /// The left side, which is rewritten. The variables that may be instantiated have names that no other variable of the theorem has.
    #[tactic(auto, using(crate::proofs::RuleSets::typed_rule))]
    pub fn left(&self) -> &Term
        ensures side { nameless [] result.now ≡ (set_rule self.now).rule.left }
        ensures typed { IsTypedRule (set_rule self.now).rule }
    {
        let _ty = self.rule.left().type_of();
        self.rule.left()
    }

    /// The right side.
    pub fn right(&self) -> &Term
        ensures { nameless [] result.now ≡ (set_rule self.now).rule.right }
    {
        self.rule.right()
    }

    /// The match of its left side with the term.
    #[tactic(auto, using(crate::proofs::RuleSets::fitting))]
    pub fn fit(&self, alloc: Global, t: &Term) -> Result<Option<Instance>, AllocError>
        ensures fit { IfOk result (λ found. MatchOption found (fit (set_rule self.now) (nameless [] t.now) ≡ None) (λ a. fit (set_rule self.now) (nameless [] t.now) ≡ Some a)) }
        ensures matches { IfOk result (λ found. IfSome found (λ a. IsMatch (set_rule self.now).stays (set_rule self.now).rule.left (nameless [] t.now) a)) }
    {
        match_with(alloc, self.fixed(), self.left(), t)
    }

    /// Whether the term is seen at once not to match: all of the left side stays, and the term is another one.
    ///
    /// Takes no memory.
    #[tactic(auto, using(crate::proofs::Ground::apart))]
    pub(crate) fn is_apart_from(&self, t: &Term) -> bool
        ensures { IsTrue result → fit (set_rule self.now) (nameless [] t.now) ≡ None }
    {
        self.settled && !self.rule.left().alpha_equivalent(t)
    }

    /// Whether all of the left side stays.
    #[tactic(auto, using(crate::proofs::Ground::settled))]
    pub(crate) fn is_settled(&self) -> bool
        ensures { result ≡ is_settled (set_rule self.now) }
    {
        self.settled
    }

    /// The number of its theorem in the list from which the set was made.
    pub fn theorem(&self) -> usize
        ensures { result ≡ (set_rule self.now).theorem }
    {
        self.theorem
    }

    /// Its place among the rules of its theorem.
    pub fn place(&self) -> usize
        ensures { result ≡ (set_rule self.now).place }
    {
        self.place
    }
}
