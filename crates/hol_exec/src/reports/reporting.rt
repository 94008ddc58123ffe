//! The report on a command.
ghost use Rattle.std.specs.Prelude.{◌≡◌, ◌++◌, IfOk, map, string_bytes, Option};
ghost use Rattle.hol_exec.specs.ReportOf.{report_of, report_with, entry_text, shown_goal};
ghost use Rattle.hol_exec.specs.ReportView.{report_value};
ghost use Rattle.hol_exec.specs.StateValue.{ProofValue, open_goals, newest_of};
ghost use Rattle.hol_print.specs.ShowGoal.{goal_text};

use crate::reports::report::Report;
use crate::running::{Change, Outcome};
use crate::state::{NewEntries, State};
use hol_goal::Goal;
use hol_print::{Room, ShownBefore, ShownGoal, show_goal, show_term, show_type};
use hol_stack::Element;
use hol_theory::{Key, Value, ValueNode};
use std::alloc::{AllocError, Global};

/// The report on an outcome, the state being that after it.
pub fn report_of(alloc: Global, outcome: &Outcome, state: &State) -> Result<Report, AllocError>
    ensures { IfOk result (λ report. report_value report ≡ report_of outcome.now state.now) }
{
    report_with(alloc, outcome, state.goals())
}

/// The report on an outcome, after which these goals are open.
pub fn report_with(alloc: Global, outcome: &Outcome, goals: &[Goal]) -> Result<Report, AllocError>
    ensures { IfOk result (λ report. report_value report ≡ report_with outcome.now goals.now) }
{
    match outcome.change() {
        Change::Opens(_, _, _) | Change::Leaves(_, _, _) | Change::Undoes | Change::Rotates(_) => {
            Ok(Report::Goals(shown_goals(alloc, goals)?))
        }
        Change::Makes(entries) => Ok(Report::Made(entry_texts(alloc, entries)?)),
        Change::Refuses(no, arg) => Ok(Report::Refusal {
            no: *no,
            arg: String::from_str(alloc, arg.as_str())?,
        }),
    }
}

/// The goals of an element of a proof's history, or none.
#[tactic(auto, using(crate::proofs::Histories::goals_of_newest, crate::proofs::Histories::goals_of_none))]
pub fn goals_of(element: &Option<Element>) -> &[Goal]
    ensures { (proof : Option ProofValue) → element.now ≡ newest_of proof → result.now ≡ open_goals proof }
{
    match element {
        Some(element) => element.goals(),
        None => &[],
    }
}

fn shown_goals(alloc: Global, goals: &[Goal]) -> Result<Vec<ShownGoal>, AllocError>
    ensures { IfOk result (λ shown. map goal_text shown.items ≡ map shown_goal goals.now) }
{
    let mut shown = Vec::with_capacity(alloc, goals.len())?;
    let mut before = ShownBefore::new(alloc);
    for goal in goals {
        let assumptions = goal.assumptions();
        shown.push(show_goal(alloc, assumptions, goal.conclusion(), &mut before)?)?;
    }
    Ok(shown)
}

/// An entry as clients see it: `type N/k`, `const N:ty`, `thm N |- p` or `tac N`.
pub fn entry_text(alloc: Global, key: &Key, entry: &Value) -> Result<String, AllocError>
    ensures { IfOk result (λ text. string_bytes text ≡ entry_text (key.now, entry.now)) }
{
    match entry.node() {
        ValueNode::Type { arity, .. } => {
            let arity = arity.to_string(alloc)?;
            shown_entry(alloc, "type ", key.name(), "/", arity.as_str())
        }
        ValueNode::Constant { ty, .. } => {
            let ty = show_type(alloc, ty)?;
            shown_entry(alloc, "const ", key.name(), ":", ty.as_str())
        }
        ValueNode::Theorem(theorem) => {
            let conclusion = show_term(alloc, theorem.concl())?;
            shown_entry(alloc, "thm ", key.name(), " |- ", conclusion.as_str())
        }
        ValueNode::Tac { .. } => shown_entry(alloc, "tac ", key.name(), "", ""),
    }
}

// The texts, one after the other.
fn shown_entry(
    alloc: Global,
    kind: &str,
    name: &str,
    between: &str,
    value: &str,
) -> Result<String, AllocError>
    ensures { IfOk result (λ text. string_bytes text ≡ kind.now ++ name.now ++ between.now ++ value.now) }
{
    let mut text = String::from_str(alloc, kind)?;
    text.push_str(name)?;
    text.push_str(between)?;
    text.push_str(value)?;
    Ok(text)
}

fn entry_texts(alloc: Global, entries: &NewEntries) -> Result<Vec<String>, AllocError>
    ensures { IfOk result (λ texts. map string_bytes texts.items ≡ map entry_text entries.now) }
{
    let mut texts = Vec::with_capacity(alloc, entries.len())?;
    let mut room = Room::new();
    for i in 0..entries.len() {
        let (key, value) = entries.entry(i);
        let text = entry_text(alloc, key, value)?;
        room.take(text.as_str())?;
        texts.push(text)?;
    }
    Ok(texts)
}
