//! Rules in buckets by the constants at the heads of their left sides.
ghost use Rattle.std.specs.Prelude.{◌≡◌, ◌<◌, ◌&&◌, [], cond, length, get_or, set, IfOk, OnOk};
ghost use Rattle.hol_terms.specs.Nameless.{nameless};
ghost use Rattle.hol_match.specs.Heads.{name_number, head_bucket, rule_bucket, term_bucket, is_settled};
ghost use Rattle.hol_match.specs.HeadView.{AreFirst, AreNext, is_known};
ghost use Rattle.hol_match.specs.SetView.{set_rule};

use crate::fixed::Fixed;
use crate::set_rule::SetRule;
use hol_terms::{Term, TermNode};
use hol_types::Name;
use std::alloc::{AllocError, Global};

/// For each bucket the number of its first rule, and for each rule the number of the next one in its bucket; the number of rules, where
/// there is none.
///
/// The rules of one head constant are in one bucket, and of loose rules those that have a variable there that stays. Those whose left side
/// has neither are in bucket 0, and so are those of more than 16 arguments: no more are looked through.
#[derive(Drop)]
pub(crate) struct Heads {
    pub(crate) first: Vec<usize>,
    pub(crate) next: Vec<usize>,
}

impl Heads {
    /// The buckets of the rules; of loose ones those of which all stays are in none.
    pub(crate) fn of(alloc: Global, rules: &[SetRule], loose: bool) -> Result<Heads, AllocError>
        ensures some { IfOk result (λ h. 0 < length h.first.items) }
        ensures long { IfOk result (λ h. length h.next.items ≡ length rules.now) }
        ensures first { IfOk result (λ h. AreFirst loose rules.now h.first.items) }
        ensures next { IfOk result (λ h. AreNext loose (length h.first.items) rules.now h.next.items) }
    {
        let end = rules.len();
        let mut heads = Heads {
            first: vec![in alloc; end; end.max(1)]?,
            next: vec![in alloc; end; end]?,
        };
        let mut left = end;
        'rules: while left > 0 {
            left -= 1;
            heads.put_rule(alloc, left, &rules[left], loose)?;
        }
        Ok(heads)
    }

    // Puts the rule of this number at the head of its bucket; where they are loose, one of which all stays in none.
    fn put_rule(
        &mut self,
        alloc: Global,
        i: usize,
        rule: &SetRule,
        loose: bool,
    ) -> Result<(), AllocError>
        requires some { 0 < length self.old.first.items }
        requires within { i < length self.old.next.items }
        ensures bucket { OnOk result (rule_bucket loose (length self.old.first.items) (set_rule rule.now) < length self.old.first.items) }
        ensures first { OnOk result (self.new.first.items ≡ cond (loose && is_settled (set_rule rule.now)) self.old.first.items (set self.old.first.items (rule_bucket loose (length self.old.first.items) (set_rule rule.now)) i)) }
        ensures next { OnOk result (self.new.next.items ≡ cond (loose && is_settled (set_rule rule.now)) self.old.next.items (set self.old.next.items i (get_or self.old.first.items (rule_bucket loose (length self.old.first.items) (set_rule rule.now)) 0))) }
    {
        let bucket = self.bucket_of_rule(alloc, rule, loose)?;
        if is_left_out(rule, loose) {
            return Ok(());
        }
        self.put(i, bucket);
        Ok(())
    }

    // The bucket of the rule.
    #[tactic(auto, using(crate::proofs::Ground::rule_known))]
    fn bucket_of_rule(
        &self,
        alloc: Global,
        rule: &SetRule,
        loose: bool,
    ) -> Result<usize, AllocError>
        requires { 0 < length self.now.first.items }
        ensures bucket { IfOk result (λ b. b ≡ rule_bucket loose (length self.now.first.items) (set_rule rule.now)) }
        ensures within { IfOk result (λ b. b < length self.now.first.items) }
    {
        let left = rule.left();
        if !loose {
            return Ok(head_bucket(left, 16, self.first.len(), false));
        }
        own_bucket(alloc, rule.fixed(), left, 16, self.first.len())
    }

    // Puts the rule of this number at the head of the bucket.
    fn put(&mut self, i: usize, bucket: usize)
        requires bucket { bucket < length self.old.first.items }
        requires within { i < length self.old.next.items }
        ensures first { self.new.first.items ≡ set self.old.first.items bucket i }
        ensures next { self.new.next.items ≡ set self.old.next.items i (get_or self.old.first.items bucket 0) }
    {
        self.next[i] = self.first[bucket];
        self.first[bucket] = i;
    }

    /// The bucket of the rules that have what the term has at its head; 0 where it has nothing there, or, unless they are loose, a variable.
    pub(crate) fn bucket_of(&self, t: &Term, loose: bool) -> usize
        requires { 0 < length self.now.first.items }
        ensures bucket { result ≡ term_bucket loose (length self.now.first.items) (nameless [] t.now) }
        ensures within { result < length self.now.first.items }
    {
        head_bucket(t, 16, self.first.len(), loose)
    }
}

// Whether the rule is put in no bucket.
fn is_left_out(rule: &SetRule, loose: bool) -> bool
    ensures { result ≡ (loose && is_settled (set_rule rule.now)) }
{
    loose && rule.is_settled()
}

// The bucket, of so many, of the constant at the term's head, or of a variable there if these are known, if it has no more than so many
// arguments.
#[tactic(auto, using(crate::proofs::Buckets::one_argument))]
fn head_bucket(t: &Term, arguments: usize, buckets: usize, known: bool) -> usize
    requires { 0 < buckets }
    ensures bucket { result ≡ head_bucket (λ v. known) buckets (nameless [] t.now) arguments }
    ensures within { result < buckets }
{
    match t.node() {
        TermNode::Const(name, _) => number_of(name) as usize % buckets,
        TermNode::Comb(f, _) => {
            if arguments == 0 {
                return 0;
            }
            head_bucket(f, arguments - 1, buckets, known)
        }
        TermNode::Var(v) => {
            if !known {
                return 0;
            }
            number_of(v.name()) as usize % buckets
        }
        TermNode::Abs(_, _) => 0,
    }
}

// The same of a left side, where the variables that stay are known.
#[tactic(auto, using(crate::proofs::Buckets::one_argument))]
fn own_bucket(
    alloc: Global,
    fixed: &Fixed,
    side: &Term,
    arguments: usize,
    buckets: usize,
) -> Result<usize, AllocError>
    requires { 0 < buckets }
    ensures bucket { IfOk result (λ b. b ≡ head_bucket (is_known fixed.now) buckets (nameless [] side.now) arguments) }
    ensures within { IfOk result (λ b. b < buckets) }
{
    match side.node() {
        TermNode::Const(name, _) => Ok(number_of(name) as usize % buckets),
        TermNode::Comb(f, _) => {
            if arguments == 0 {
                return Ok(0);
            }
            own_bucket(alloc, fixed, f, arguments - 1, buckets)
        }
        TermNode::Var(v) => {
            if !fixed.has_all(alloc, side)? {
                return Ok(0);
            }
            Ok(number_of(v.name()) as usize % buckets)
        }
        TermNode::Abs(_, _) => Ok(0),
    }
}

// A number for the name, below 2 ^ 24: its bytes, mixed.
fn number_of(name: &Name) -> u32
    ensures { result ≡ name_number 0 name.now }
{
    let mut number = 0;
    for byte in name.as_str().as_bytes() {
        number = (31 * number + *byte as u32) % 16_777_216;
    }
    number
}
