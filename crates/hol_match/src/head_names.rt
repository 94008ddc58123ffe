//! The names of the constants at the heads of rules' left sides.
ghost use Rattle.std.specs.Prelude.{◌≡◌, [], MatchOption, None, Some};
ghost use Rattle.std.specs.Option.{option_map};
ghost use Rattle.hol_terms.specs.Nameless.{nameless};
ghost use Rattle.hol_match.specs.HeadNames.{head_bit, head_bits};
ghost use Rattle.hol_match.specs.SetView.{set_rules};

use crate::set_rule::SetRule;
use hol_terms::{Term, TermNode};
use hol_types::NameFilter;

/// The names of the constants at the heads of the rules' left sides; `None` where a left side has none there.
pub(crate) fn head_names(rules: &[SetRule]) -> Option<NameFilter>
    ensures { option_map (λ n. n.bits) result ≡ head_bits (set_rules rules.now) }
{
    let mut names = NameFilter::empty();
    for rule in rules {
        names = names.union(head_name(rule.left())?);
    }
    Some(names)
}

// The name of the constant at the term's head, if it has one.
fn head_name(t: &Term) -> Option<NameFilter>
    ensures { MatchOption result (head_bit (nameless [] t.now) ≡ None) (λ n. head_bit (nameless [] t.now) ≡ Some n.bits) }
{
    match t.node() {
        TermNode::Const(name, _) => Some(NameFilter::of_name(name)),
        TermNode::Comb(f, _) => head_name(f),
        TermNode::Var(_) | TermNode::Abs(_, _) => None,
    }
}
