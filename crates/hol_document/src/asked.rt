//! What the theories that stand say.
ghost use Rattle.std.specs.Prelude.{◌≡◌, ◌<◌, ◌++◌, IfOk, OnOk, Some, length, map, string_bytes};
ghost use Rattle.std.specs.Option.{option_map};
ghost use Rattle.hol_exec.specs.ReportView.{report_value};
ghost use Rattle.hol_document.specs.Asked.{BasisTexts, commands_at, theorem_texts, theorem_texts_of};
ghost use Rattle.hol_document.specs.Shown.{IsProvedReport, IsProvedBasis, AreProvedTheorems};

use crate::items::item_texts;
use crate::theories::Theories;
use hol_exec::{Report, Room, entry_text, goals_of, report_with};
use hol_theory::{Env, Key, Kind, Value, ValueNode};
use std::alloc::{AllocError, Global};

/// The report on the command at a place of the theory at a place.
pub(crate) fn report(
    alloc: Global,
    theories: &Theories,
    i: usize,
    at: usize,
) -> Result<Report, AllocError>
    requires theory { i < length theories.now.theories }
    requires command { at < length (commands_at theories.now i) }
    ensures { IfOk result (λ report. IsProvedReport theories.now i at (report_value report)) }
{
    let theory = theories.at(i);
    let slot = &theory.slots()[at];
    slot.outcome().promise();
    report_with(alloc, slot.outcome(), goals_of(slot.opened()))
}

/// The items of the basis of a theorem that stands at the end of the theory at a place.
pub(crate) fn basis(
    alloc: Global,
    theories: &Theories,
    i: usize,
    name: &str,
) -> Result<Option<Vec<String>>, AllocError>
    requires { i < length theories.now.theories }
    ensures { IfOk result (λ texts. IsProvedBasis theories.now i name.now (option_map (λ ts. map string_bytes ts.items) texts)) }
{
    let theory = theories.at(i);
    let state = theory.last();
    state.promise();
    let key = Key::new(alloc, Kind::Theorem, name)?;
    match state.entry(&key) {
        Some(entry) => basis_texts(alloc, entry),
        None => Ok(None),
    }
}

// The texts of the items of a theorem's basis.
fn basis_texts(alloc: Global, entry: &Value) -> Result<Option<Vec<String>>, AllocError>
    ensures { IfOk result (λ texts. BasisTexts (Some entry.now) (option_map (λ ts. map string_bytes ts.items) texts)) }
{
    match entry.node() {
        ValueNode::Type { .. } | ValueNode::Constant { .. } | ValueNode::Tac { .. } => Ok(None),
        ValueNode::Theorem(theorem) => Ok(Some(item_texts(alloc, theorem.basis())?)),
    }
}

/// The texts of the theorems that stand at the end of the theory at a place, in standing order.
pub(crate) fn theorems(
    alloc: Global,
    theories: &Theories,
    i: usize,
) -> Result<Vec<String>, AllocError>
    requires { i < length theories.now.theories }
    ensures { IfOk result (λ texts. AreProvedTheorems theories.now i (map string_bytes texts.items)) }
{
    let theory = theories.at(i);
    let state = theory.last();
    state.promise();
    theorem_texts(alloc, state.env())
}

// The texts of the theorems among the entries, in standing order.
fn theorem_texts(alloc: Global, env: &Env) -> Result<Vec<String>, AllocError>
    ensures { IfOk result (λ texts. map string_bytes texts.items ≡ theorem_texts env.now) }
{
    let mut texts = Vec::with_capacity(alloc, env.len())?;
    let mut room = Room::new();
    for i in 0..env.len() {
        let (key, entry) = env.entry(i);
        add_theorem(alloc, &mut texts, &mut room, key, entry)?;
    }
    Ok(texts)
}

// Adds the text of an entry that is a theorem.
fn add_theorem(
    alloc: Global,
    texts: &mut Vec<String>,
    room: &mut Room,
    key: &Key,
    entry: &Value,
) -> Result<(), AllocError>
    ensures { OnOk result (map string_bytes texts.new.items ≡ map string_bytes texts.old.items ++ theorem_texts_of (key.now, entry.now)) }
{
    match entry.node() {
        ValueNode::Type { .. } | ValueNode::Constant { .. } | ValueNode::Tac { .. } => {}
        ValueNode::Theorem(_) => {
            let text = entry_text(alloc, key, entry)?;
            room.take(text.as_str())?;
            texts.push(text)?;
        }
    }
    Ok(())
}
