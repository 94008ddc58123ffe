//! Sets of rules, and the first one that fits a term.
ghost use Rattle.std.specs.Prelude.{◌≡◌, ℕ, List, true, false, ◌<◌, ◌++◌, [], map, length, not, ◌||◌, IfOk, IfSome, IsFalse, IsTrue, OnOk, MatchOption, is_none, slice_get, Some, None};
ghost use Rattle.std.specs.List.{AllByRecursion};
ghost use Rattle.std.specs.List.Sorted.{IsStrictlySortedBy};
ghost use Rattle.std.specs.BTreeMap.{get};
ghost use Rattle.std.specs.Option.{option_map};
ghost use Rattle.std.specs.Coded.{Coded-set, coded_ℕ, coded_option};
ghost use Rattle.hol_types.specs.Tree.{TypeTree};
ghost use Rattle.hol_terms.specs.Named.{abs, named_type};
ghost use Rattle.hol_terms.specs.Nameless.{nameless};
ghost use Rattle.hol_subst.specs.AlphaOrder.{nameless_cmp};
ghost use Rattle.hol_subst.specs.Hypotheses.{hyp_of, hyps_of};
ghost use Rattle.hol_kernel.specs.Given.{given_sequent};
ghost use Rattle.hol_match.specs.RuleSets.{rule_entries, IsTypedRule, IsFit, entries, fit, first_entry, first_fit};
ghost use Rattle.hol_match.specs.Contracta.{contracta, contracted, contractum, HasNoRedex};
ghost use Rattle.hol_match.specs.Apart.{IsApart, AddsVariables, rule_variables, is_named, are_apart};
ghost use Rattle.hol_match.specs.SetView.{set_rule, set_rules, set_given, set_givens, IsGivenIn, IsStated, AreOf, Adds, AddsFrom};
ghost use Rattle.hol_match.specs.RuleView.{rule_values};
ghost use Rattle.hol_match.specs.Ways.{rule_ways};
ghost use Rattle.hol_match.specs.Sources.{IsFrom};
ghost use Rattle.hol_match.specs.Fixed.{stays};
ghost use Rattle.hol_match.specs.Matches.{IsMatch};
ghost use Rattle.hol_match.specs.Outlines.{is_variable, may_match, rules_depth, has_large_side, rules_pass_over};
ghost use Rattle.hol_match.specs.Heads.{is_in, is_bucketed, is_settled, first_in, first_settled, bucket_passes_over, earlier};
ghost use Rattle.hol_match.specs.HeadView.{AreFirst, AreNext, ArePlaces, side_cmp};
ghost use Rattle.hol_match.specs.HeadNames.{head_bits};
ghost use Rattle.hol_match.specs.Spared.{IsSpared};

use crate::binder::{Binder, binder_apart};
use crate::head_names::head_names;
use crate::heads::Heads;
use crate::instance::Instance;
use crate::kept_rules::{KeptRules, add_kept};
use crate::matching::match_with;
use crate::once::{FEW, each_once};
use crate::outline::{depth, is_variable, may_match};
use crate::rule::Rule;
use crate::set_rule::SetRule;
use crate::settled::settled_rules;
use crate::side::Side;
use crate::source::Source;
use hol_kernel::{Given, GivenNode};
use hol_terms::{Term, Variable};
use hol_types::NameFilter;
use std::alloc::{AllocError, Global};
use std::collections::BTreeMap;
use std::rc::Rc;
use std::slice;

/// The rules of a list of theorems and assumed terms, in order. They are found by the constants at the heads of their left sides, and of many
/// rules those of whose left sides all stays by these.
///
/// That `l = r` follows from a rule's theorem is shown by those who use it: from the theorem, generalized over the free variables that its
/// hypotheses don't have, SPEC at the variables of the rule and CONJUNCT1, CONJUNCT2 on the way to its place, and then EQT_INTRO or EQF_INTRO
/// where the part is no equation that the rule could take.
#[derive(Drop)]
pub struct RuleSet {
    rules: Vec<SetRule>,
    variables: Vec<Variable>,
    heads: Heads,
    many: bool,
    loose: Heads,
    settled: BTreeMap<Side, usize>,
    names: Option<NameFilter>,
    ghost own: { (v : List ℕ × TypeTree) → is_named variables.items v.0 ≡ false → are_apart (set_rules rules.items) v ≡ true },
    ghost named: { option_map (λ n. n.bits) names ≡ head_bits (set_rules rules.items) } by { Coded-set (coded_option coded_ℕ) (option_map (λ n. n.bits) names) (head_bits (set_rules rules.items)) },
    ghost some: { 0 < length heads.first.items },
    ghost long: { length heads.next.items ≡ length rules.items },
    ghost first: { AreFirst false rules.items heads.first.items },
    ghost next: { AreNext false (length heads.first.items) rules.items heads.next.items },
    ghost loose_some: { 0 < length loose.first.items },
    ghost loose_long: { length loose.next.items ≡ length rules.items },
    ghost loose_first: { AreFirst many rules.items loose.first.items },
    ghost loose_next: { AreNext many (length loose.first.items) rules.items loose.next.items },
    ghost places: { ArePlaces rules.items settled } by { λ f g i q. Coded-set (coded_option coded_ℕ) (get side_cmp settled q) (first_settled 0 (set_rules rules.items) (nameless [] q.term)) (f q) (g q) i },
}

impl RuleSet {
    /// The rules of the theorems, and of assumed terms `p`, which are read as `{p} |- p`. The first of them that matches a term is the set's
    /// first, so that a theorem that comes again adds none, and of many rules none stands twice.
    pub fn new(alloc: Global, thms: &[Given]) -> Result<RuleSet, AllocError>
        ensures first { IfOk result (λ set. first_entry (set_rules set.rules.items) ≡ first_entry (rule_entries 0 (map given_sequent thms.now))) }
        ensures rules { IfOk result (λ set. contracta (set_rules set.rules.items) ≡ contracta (rule_entries 0 (map given_sequent thms.now))) }
        ensures given { IfOk result (λ set. AreOf thms.now set.rules.items) }
    {
        let (all, variables) = all_rules(alloc, thms)?;
        RuleSet::made(alloc, all, variables)
    }

    /// The rules of the theorems, and of assumed terms, and then those that are kept, which aren't made anew.
    pub fn with_kept(
        alloc: Global,
        thms: &[Given],
        kept: &[KeptRules],
    ) -> Result<RuleSet, AllocError>
        ensures rules { IfOk result (λ set. contracta (set_rules set.rules.items) ≡ contracta (rule_entries 0 (map given_sequent (thms.now ++ kept.now)))) }
        ensures given { IfOk result (λ set. AreOf (thms.now ++ kept.now) set.rules.items) }
    {
        let (mut all, mut variables) = all_rules(alloc, thms)?;
        add_kept(alloc, &mut all, &mut variables, thms.len(), kept)?;
        RuleSet::made(alloc, all, variables)
    }

    // The set of these rules, of which these are the variables; of many rules none stands twice.
    #[tactic(auto, using(crate::proofs::Spared::sparing))]
    fn made(
        alloc: Global,
        all: Vec<SetRule>,
        variables: Vec<Variable>,
    ) -> Result<RuleSet, AllocError>
        requires { variables.items ≡ rule_variables [] (set_rules all.items) }
        ensures { IfOk result (λ set. IsSpared all.items set.rules.items) }
    {
        let rules = each_once(alloc, all)?;
        let heads = Heads::of(alloc, &rules, false)?;
        let many = rules.len() > FEW;
        let loose = Heads::of(alloc, &rules, many)?;
        let settled = settled_rules(alloc, &rules)?;
        let names = head_names(&rules);
        Ok(RuleSet {
            rules,
            variables,
            heads,
            many,
            loose,
            settled,
            names,
        })
    }

    /// The number of the first rule that matches the term, and the match: the instance of its left side that is the term up to bound
    /// names, and leaves the variables and type variables of the theorem's hypotheses as they are.
    ///
    /// Those tried are the rules in the bucket of the term's head constant, and those that have none at their heads. Of many rules those of
    /// whose left sides all stays are in no bucket: of these the first is tried that is the term up to bound names.
    pub fn find(&self, alloc: Global, t: &Term) -> Result<Option<(usize, Instance)>, AllocError>
        ensures first { IfOk result (λ found. MatchOption found (first_fit 0 (set_rules self.now.rules.items) (nameless [] t.now) ≡ None) (λ f. first_fit 0 (set_rules self.now.rules.items) (nameless [] t.now) ≡ Some (f.0, f.1))) }
        ensures fits { IfOk result (λ found. IfSome found (λ f. IsFit (set_rules self.now.rules.items) (nameless [] t.now) (f.0, f.1))) }
    {
        if !self.many {
            return self.bucketed_rule(alloc, t);
        }
        let bucketed = self.bucketed_rule(alloc, t)?;
        let settled = self.settled_rule(alloc, t)?;
        Ok(earlier(bucketed, settled))
    }

    // The number of the first rule in a bucket that matches the term, and the match.
    fn bucketed_rule(
        &self,
        alloc: Global,
        t: &Term,
    ) -> Result<Option<(usize, Instance)>, AllocError>
        ensures first { IfOk result (λ found. MatchOption found (first_in (is_bucketed self.now.many) 0 (set_rules self.now.rules.items) (nameless [] t.now) ≡ None) (λ f. first_in (is_bucketed self.now.many) 0 (set_rules self.now.rules.items) (nameless [] t.now) ≡ Some (f.0, f.1))) }
        ensures fits { IfOk result (λ found. IfSome found (λ f. IsFit (set_rules self.now.rules.items) (nameless [] t.now) (f.0, f.1))) }
    {
        let bucket = self.loose.bucket_of(t, self.many);
        if bucket == 0 {
            return self.first_in(alloc, 0, t);
        }
        let beside = self.first_in(alloc, 0, t)?;
        let own = self.first_in(alloc, bucket, t)?;
        Ok(earlier(beside, own))
    }

    // The number of the first rule that matches the term of those of which all stays, and the match.
    #[tactic(auto, using(crate::proofs::Ground::finding, crate::proofs::RuleSets::is_fit))]
    fn settled_rule(&self, alloc: Global, t: &Term) -> Result<Option<(usize, Instance)>, AllocError>
        ensures first { IfOk result (λ found. MatchOption found (first_in is_settled 0 (set_rules self.now.rules.items) (nameless [] t.now) ≡ None) (λ f. first_in is_settled 0 (set_rules self.now.rules.items) (nameless [] t.now) ≡ Some (f.0, f.1))) }
        ensures fits { IfOk result (λ found. IfSome found (λ f. IsFit (set_rules self.now.rules.items) (nameless [] t.now) (f.0, f.1))) }
    {
        let Some(i) = self.settled_place(t)? else {
            return Ok(None);
        };
        match match_of(alloc, &self.rules[i], t)? {
            Some(found) => Ok(Some((i, found))),
            None => Ok(None),
        }
    }

    // The number of the first rule of which all stays whose left side is the term up to bound names.
    #[tactic(auto, using(crate::proofs::Ground::places))]
    fn settled_place(&self, t: &Term) -> Result<Option<usize>, AllocError>
        ensures place { IfOk result (λ place. place ≡ first_settled 0 (set_rules self.now.rules.items) (nameless [] t.now)) }
        ensures within { IfOk result (λ place. IfSome place (λ i. i < length self.now.rules.items)) }
    {
        let side = Side::of(t)?;
        Ok(self.settled.get(&side).copied())
    }

    // The number of the first rule in the bucket that matches the term, and the match.
    fn first_in(
        &self,
        alloc: Global,
        bucket: usize,
        t: &Term,
    ) -> Result<Option<(usize, Instance)>, AllocError>
        requires { bucket < length self.now.loose.first.items }
        ensures first { IfOk result (λ found. MatchOption found (first_in (is_in self.now.many (length self.now.loose.first.items) bucket) 0 (set_rules self.now.rules.items) (nameless [] t.now) ≡ None) (λ f. first_in (is_in self.now.many (length self.now.loose.first.items) bucket) 0 (set_rules self.now.rules.items) (nameless [] t.now) ≡ Some (f.0, f.1))) }
        ensures fits { IfOk result (λ found. IfSome found (λ f. IsFit (set_rules self.now.rules.items) (nameless [] t.now) (f.0, f.1))) }
    {
        let mut i = self.loose.first[bucket];
        'rules: while i < self.rules.len() {
            if let Some(found) = match_of(alloc, &self.rules[i], t)? {
                return Ok(Some((i, found)));
            }
            i = self.loose.next[i];
        }
        Ok(None)
    }

    /// The first rule that matches the term, and what it makes of it: the match of its right side.
    #[tactic(auto, using(crate::proofs::Contracta::contracting, crate::proofs::FirstEntries::no_entry))]
    pub fn contract(&self, alloc: Global, t: &Term) -> Result<Option<(&SetRule, Term)>, AllocError>
        ensures first { IfOk result (λ found. MatchOption found (first_entry (set_rules self.now.rules.items) [] (nameless [] t.now) ≡ None) (λ c. first_entry (set_rules self.now.rules.items) [] (nameless [] t.now) ≡ Some (set_rule c.0.now))) }
        ensures is { IfOk result (λ found. MatchOption found (contractum [] (set_rules self.now.rules.items) (nameless [] t.now) ≡ None) (λ c. contractum [] (set_rules self.now.rules.items) (nameless [] t.now) ≡ Some (nameless [] c.1))) }
        ensures typed { IfOk result (λ found. IfSome found (λ c. named_type c.1 ≡ named_type t.now)) }
        ensures rule { IfOk result (λ found. IfSome found (λ c. contracted [] (set_rule c.0.now) (nameless [] t.now) ≡ Some (nameless [] c.1))) }
        ensures given { IfOk result (λ found. IfSome found (λ c. IsGivenIn (set_givens self.now.rules.items) (set_given c.0.now))) }
    {
        match self.find(alloc, t)? {
            Some((i, found)) => {
                let rule = self.rule(i);
                let term = found.apply(alloc, rule.right())?;
                Ok(Some((rule, term)))
            }
            None => Ok(None),
        }
    }

    /// Whether a rule may match the term or a part of it, under whatever binders: where one does, the answer is `true`. So `false` says
    /// that none does, and spares a walk.
    ///
    /// Takes no memory and no more time for a larger term. Each term keeps the names of its constants, as 64 bits of which each name has
    /// one, and so does the set those of the constants at the heads of its rules' left sides. Where one of these has none there, the answer
    /// is `true`.
    #[tactic(auto, using(crate::proofs::HeadNames::no_redex))]
    pub fn may_have_redex(&self, t: &Term) -> bool
        ensures { IsFalse result → HasNoRedex (set_rules self.now.rules.items) (nameless [] t.now) }
    {
        match self.names {
            Some(names) => t.constants().meets(names),
            None => true,
        }
    }

    /// The variable and the body of the abstraction of `v`, where the variable is called by a name, with primes if need be, that keeps
    /// it apart from the rules: it stays in none and has the name of no variable of a right side. So what a rule makes of a part of the
    /// body is free of it where it was.
    #[tactic(auto, using(crate::proofs::Apartness::apart_rules))]
    pub fn opened(&self, alloc: Global, v: &Variable, body: &Term) -> Result<Binder, AllocError>
        ensures same { IfOk result (λ o. nameless [] (abs o.variable o.body) ≡ nameless [] (abs v.now body.now)) }
        ensures typed { IfOk result (λ o. named_type o.body ≡ named_type body.now) }
        ensures domain { IfOk result (λ o. o.variable.1 ≡ v.now.1) }
        ensures apart { IfOk result (λ o. IsApart (set_rules self.now.rules.items) o.variable) }
    {
        binder_apart(alloc, &self.variables, v, body)
    }

    /// How many levels of a term's outline are looked at to see whether the rules pass over it; `None` where a left side has more than
    /// 20,000 nodes.
    pub fn depth(&self) -> Option<usize>
        ensures depth { IfSome result (λ d. d ≡ rules_depth (set_rules self.now.rules.items)) }
        ensures none { is_none result ≡ has_large_side (set_rules self.now.rules.items) }
    {
        rules_depth(&self.rules)
    }

    /// Whether each rule's left side is a variable or of another outline than the term. Then no rule matches an application or an
    /// abstraction of the same outline and type, if none matches the term: a variable matches either any term of a type, or itself alone.
    pub fn passes_over(&self, t: &Term) -> bool
        ensures { result ≡ rules_pass_over (set_rules self.now.rules.items) (nameless [] t.now) }
    {
        let bucket = self.heads.bucket_of(t, false);
        self.bucket_passes_over(0, t) && self.bucket_passes_over(bucket, t)
    }

    // Whether each left side in the bucket is a variable or of another outline than the term.
    fn bucket_passes_over(&self, bucket: usize, t: &Term) -> bool
        requires { bucket < length self.now.heads.first.items }
        ensures { result ≡ bucket_passes_over (length self.now.heads.first.items) bucket (set_rules self.now.rules.items) (nameless [] t.now) }
    {
        let mut i = self.heads.first[bucket];
        'rules: while i < self.rules.len() {
            if !is_passed_over(&self.rules[i], t) {
                return false;
            }
            i = self.heads.next[i];
        }
        true
    }

    /// The number of rules.
    pub fn len(&self) -> usize
        ensures { result ≡ length self.now.rules.items }
    {
        self.rules.len()
    }

    /// The rule of this number.
    pub fn rule(&self, i: usize) -> &SetRule
        requires { i < length self.now.rules.items }
        ensures { slice_get self.now.rules.items i ≡ Some result.now }
    {
        &self.rules[i]
    }
}

// Of two rules that match, the one with the lower number. (It is asked at each part of a term.)
#[inline(always)]
fn earlier(a: Option<(usize, Instance)>, b: Option<(usize, Instance)>) -> Option<(usize, Instance)>
    ensures { result ≡ earlier a b }
{
    match (a, b) {
        (Some(a), Some(b)) => { if b.0 < a.0 { Some(b) } else { Some(a) } }
        (Some(a), None) => Some(a),
        (None, b) => b,
    }
}

// The match of the rule's left side with the term.
#[inline(always)]
#[tactic(auto, using(crate::proofs::RuleSets::fitting))]
fn match_of(alloc: Global, rule: &SetRule, t: &Term) -> Result<Option<Instance>, AllocError>
    ensures fit { IfOk result (λ found. MatchOption found (fit (set_rule rule.now) (nameless [] t.now) ≡ None) (λ a. fit (set_rule rule.now) (nameless [] t.now) ≡ Some a)) }
    ensures matches { IfOk result (λ found. IfSome found (λ a. IsMatch (set_rule rule.now).stays (set_rule rule.now).rule.left (nameless [] t.now) a)) }
    ensures typed { IsTypedRule (set_rule rule.now).rule }
{
    let left = rule.left();
    if !may_match(left, t) {
        return Ok(None);
    }
    if rule.is_apart_from(t) {
        return Ok(None);
    }
    match_with(alloc, rule.fixed(), left, t)
}

// Whether the rule's left side is a variable or of another outline than the term.
fn is_passed_over(rule: &SetRule, t: &Term) -> bool
    ensures { result ≡ (is_variable (set_rule rule.now).rule.left || not (may_match (set_rule rule.now).rule.left (nameless [] t.now))) }
{
    let left = rule.left();
    is_variable(left) || !may_match(left, t)
}

// How many levels of a term are looked at for the rules' left sides.
#[tactic(auto, using(crate::proofs::Outlines::looked_at))]
fn rules_depth(rules: &[SetRule]) -> Option<usize>
    ensures depth { IfSome result (λ d. d ≡ rules_depth (set_rules rules.now)) }
    ensures none { is_none result ≡ has_large_side (set_rules rules.now) }
{
    let mut most = 1;
    for rule in rules {
        most = depth(rule.left())?.max(most);
    }
    Some(most)
}

// The rules of the theorems, each theorem's once, and the variables that stay in some rule or stand in a right side, each once.
#[tactic(auto, using(crate::proofs::Repeated::making, crate::proofs::RuleSets::given_more))]
fn all_rules(alloc: Global, thms: &[Given]) -> Result<(Vec<SetRule>, Vec<Variable>), AllocError>
    ensures first { IfOk result (λ all. first_entry (set_rules all.0.items) ≡ first_entry (rule_entries 0 (map given_sequent thms.now))) }
    ensures rules { IfOk result (λ all. contracta (set_rules all.0.items) ≡ contracta (rule_entries 0 (map given_sequent thms.now))) }
    ensures given { IfOk result (λ all. AreOf thms.now all.0.items) }
    ensures variables { IfOk result (λ all. all.1.items ≡ rule_variables [] (set_rules all.0.items)) }
{
    let mut all = Vec::new(alloc);
    let mut variables = Vec::new(alloc);
    for (i, given) in thms.iter().enumerate() {
        if is_repeated(&thms[..i], given) {
            continue;
        }
        add_theorem(alloc, &mut all, &mut variables, i, given)?;
    }
    Ok((all, variables))
}

// Whether one of the theorems has the nodes of this one. Where none has, this one may still be equal to one of them.
#[tactic(auto, using(crate::proofs::Repeated::stated))]
fn is_repeated(earlier: &[Given], given: &Given) -> bool
    ensures { IsTrue result → IsStated (map given_sequent earlier.now) (given_sequent given.now) }
{
    for one in earlier {
        if is_same(one, given) {
            return true;
        }
    }
    false
}

// Whether the two have the same nodes.
#[tactic(auto, using(crate::proofs::Repeated::same_sequent))]
fn is_same(one: &Given, other: &Given) -> bool
    ensures { IsTrue result → given_sequent one.now ≡ given_sequent other.now }
{
    one.concl().same_node(other.concl()) && are_same(one.hyps(), other.hyps())
}

// Whether each term has the node of the other's at its place.
fn are_same(terms: &[Term], others: &[Term]) -> bool
    ensures { IsTrue result → terms.now ≡ others.now }
{
    if terms.len() != others.len() {
        return false;
    }
    for (i, t) in terms.iter().enumerate() {
        if !t.same_node(&others[i]) {
            return false;
        }
    }
    true
}

// Puts the rules of the theorem of number `i` at the end, and their variables that are not there.
fn add_theorem(
    alloc: Global,
    all: &mut Vec<SetRule>,
    variables: &mut Vec<Variable>,
    i: usize,
    given: &Given,
) -> Result<(), AllocError>
    ensures adds { OnOk result (Adds i (given_sequent given.now) (set_rules all.old.items) (set_rules all.new.items)) }
    ensures given { OnOk result (AddsFrom i given.now all.old.items all.new.items) }
    ensures variables { OnOk result (AddsVariables (set_rules all.old.items) (set_rules all.new.items) variables.old.items variables.new.items) }
{
    let own = KeptRules::of(alloc, given)?;
    own.add_to(alloc, all, variables, i)
}

/// The hypotheses, in the order of their set.
#[tactic(auto, using(crate::proofs::RuleSets::one_ordered))]
pub(crate) fn hypotheses(given: &Given) -> &[Term]
    ensures set { hyps_of result.now ≡ (given_sequent given.now).hyps }
    ensures ordered { IsStrictlySortedBy nameless_cmp (map hyp_of result.now) }
{
    match given.node() {
        GivenNode::Theorem(th) => th.hyps(),
        GivenNode::Assumed(p) => slice::from_ref(p),
    }
}

/// Puts the rules at the end, as those of the theorem of number `theorem`.
#[tactic(auto, using(crate::proofs::RuleSets::way_at, crate::proofs::RuleSets::given_pushed))]
pub(crate) fn add_rules(
    alloc: Global,
    all: &mut Vec<SetRule>,
    theorem: usize,
    source: &Rc<Source>,
    rules: &[Rule],
) -> Result<(), AllocError>
    requires { AllByRecursion (IsFrom source.now.value) (rule_ways rules.now) }
    ensures rules { OnOk result (set_rules all.new.items ≡ set_rules all.old.items ++ entries theorem 0 (stays source.now.value.fixed) (rule_values rules.now)) }
    ensures given { OnOk result (AddsFrom theorem source.now.value.given all.old.items all.new.items) }
{
    for (place, rule) in rules.iter().enumerate() {
        let entry = SetRule::of(alloc, rule, theorem, place, source)?;
        all.push(entry)?;
    }
    Ok(())
}
