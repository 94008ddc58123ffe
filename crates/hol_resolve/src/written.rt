//! The forms of arguments as they are written.
ghost use Rattle.std.specs.Prelude.{◌≡◌, option_copied};
ghost use Rattle.std.specs.Option.{option_map};
ghost use Rattle.hol_resolve.specs.Forms.{a_term, a_theorem, a_pair, a_list, none_of, the_one, two_of, written_as};
ghost use Rattle.hol_resolve.specs.FormsView.{written_value};

use hol_goal::ArgumentKind;
use hol_notation_tactics::{TacArg, TacArgNode, ThmExpr};
use hol_notation_terms::Quotation;

/// Arguments as they are written, of one of the kinds.
#[derive(Clone, Copy)]
pub enum WrittenArgs<'a> {
    /// None.
    Nothing,
    /// A term.
    Term(&'a Quotation),
    /// Two terms.
    Pair(&'a Quotation, &'a Quotation),
    /// A theorem.
    Theorem(&'a ThmExpr),
    /// A term and a theorem.
    TermAndTheorem(&'a Quotation, &'a ThmExpr),
    /// Theorems, or none.
    Theorems(&'a [ThmExpr]),
}

/// The arguments as those of the kind, if they are of it.
pub fn written_as(kind: ArgumentKind, arguments: &[TacArg]) -> Option<WrittenArgs<'_>>
    ensures { option_map written_value result ≡ written_as kind arguments.now }
{
    match kind {
        ArgumentKind::Nothing => none_of(arguments),
        ArgumentKind::Term => Some(WrittenArgs::Term(a_term(the_one(arguments)?)?)),
        ArgumentKind::Pair => a_pair(the_one(arguments)?),
        ArgumentKind::Theorem => Some(WrittenArgs::Theorem(a_theorem(the_one(arguments)?)?)),
        ArgumentKind::TermAndTheorem => two_of(arguments),
        ArgumentKind::Theorems => a_list(the_one(arguments)?),
    }
}

fn none_of(arguments: &[TacArg]) -> Option<WrittenArgs<'_>>
    ensures { option_map written_value result ≡ none_of arguments.now }
{
    match arguments {
        [] => Some(WrittenArgs::Nothing),
        [_, ..] => None,
    }
}

// The argument that is written alone.
fn the_one(arguments: &[TacArg]) -> Option<&TacArg>
    ensures { option_copied result ≡ the_one arguments.now }
{
    match arguments {
        [one] => Some(one),
        [] | [_, _, ..] => None,
    }
}

fn two_of(arguments: &[TacArg]) -> Option<WrittenArgs<'_>>
    ensures { option_map written_value result ≡ two_of arguments.now }
{
    match arguments {
        [first, rest @ ..] => {
            let term = a_term(first)?;
            let theorem = a_theorem(the_one(rest)?)?;
            Some(WrittenArgs::TermAndTheorem(term, theorem))
        }
        [] => None,
    }
}

fn a_term(argument: &TacArg) -> Option<&Quotation>
    ensures { option_copied result ≡ a_term argument.now }
{
    match argument.node() {
        TacArgNode::Term(term) => Some(term),
        TacArgNode::Theorem(_) | TacArgNode::Pair(_, _) | TacArgNode::Theorems(_) => None,
    }
}

fn a_theorem(argument: &TacArg) -> Option<&ThmExpr>
    ensures { option_copied result ≡ a_theorem argument.now }
{
    match argument.node() {
        TacArgNode::Theorem(theorem) => Some(theorem),
        TacArgNode::Term(_) | TacArgNode::Pair(_, _) | TacArgNode::Theorems(_) => None,
    }
}

fn a_pair(argument: &TacArg) -> Option<WrittenArgs<'_>>
    ensures { option_map written_value result ≡ a_pair argument.now }
{
    match argument.node() {
        TacArgNode::Pair(first, second) => Some(WrittenArgs::Pair(first, second)),
        TacArgNode::Term(_) | TacArgNode::Theorem(_) | TacArgNode::Theorems(_) => None,
    }
}

fn a_list(argument: &TacArg) -> Option<WrittenArgs<'_>>
    ensures { option_map written_value result ≡ a_list argument.now }
{
    match argument.node() {
        TacArgNode::Theorems(theorems) => Some(WrittenArgs::Theorems(theorems)),
        TacArgNode::Term(_) | TacArgNode::Theorem(_) | TacArgNode::Pair(_, _) => None,
    }
}
