//! Rules.
ghost use Rattle.std.specs.Prelude.{◌≡◌, [], IfOk};
ghost use Rattle.std.specs.Coded.{Coded-set, coded_option};
ghost use Rattle.hol_types.specs.Code.{coded_type};
ghost use Rattle.hol_terms.specs.Named.{named_type};

use crate::way::Way;
use hol_terms::Term;
use std::alloc::AllocError;

/// A rule: the left side is rewritten to the right side, which has its type. The way leads to its formula.
#[derive(Drop)]
pub struct Rule {
    left: Term,
    right: Term,
    way: Way,
    ghost typed: { named_type left ≡ named_type right } by { Coded-set (coded_option coded_type) (named_type left) (named_type right) },
}

impl Rule {
    ghost use Rattle.hol_terms.specs.Nameless.{nameless};
    ghost use Rattle.hol_match.specs.Rules.{rule};
    ghost use Rattle.hol_match.specs.RuleView.{rule_value};
    ghost use Rattle.hol_match.specs.Ways.{rule_way};

    /// The rule of copies of these sides, on a copy of this way.
    pub(crate) fn of(left: &Term, right: &Term, way: &Way) -> Result<Rule, AllocError>
        requires { named_type left.now ≡ named_type right.now }
        ensures sides { IfOk result (λ r. rule_value r ≡ rule (nameless [] left.now) (nameless [] right.now)) }
        ensures way { IfOk result (λ r. r.way ≡ way.now) }
    {
        Ok(Rule {
            left: left.copy()?,
            right: right.copy()?,
            way: way.copy()?,
        })
    }

    /// The left side.
    pub(crate) fn left(&self) -> &Term
        ensures side { result.now ≡ self.now.left }
        ensures typed { named_type result.now ≡ named_type self.now.right }
    {
        &self.left
    }

    /// The right side.
    pub(crate) fn right(&self) -> &Term
        ensures { result.now ≡ self.now.right }
    {
        &self.right
    }

    /// The way from the theorem's generalized conclusion to the rule's formula.
    pub(crate) fn way(&self) -> &Way
        ensures { result.now ≡ self.now.way }
    {
        &self.way
    }

    /// An equal rule.
    pub(crate) fn copy(&self) -> Result<Rule, AllocError>
        ensures { IfOk result (λ r. rule_way r ≡ rule_way self.now) }
    {
        Ok(Rule {
            left: self.left.copy()?,
            right: self.right.copy()?,
            way: self.way.copy()?,
        })
    }
}
