//! The replies that hold what the documents answered.
#![tactic(auto, unfolding(serde_json::proofs::OnLiterals::serde_json_on_literals))]

ghost use Rattle.std.specs.Prelude.{◌≡◌, ◌∷◌, ◌++◌, [], IfOk, string_bytes, map, false};
ghost use Rattle.serde_json.specs.View.{view, items_of};
ghost use Rattle.serde_json.specs.Data.{array};
ghost use Rattle.serde_json.specs.Written.{compact_text, has_float};
ghost use Rattle.hol_exec.specs.ReportValue.{ShowsGoals, HasMade, WasRefused};
ghost use Rattle.hol_exec.specs.ReportView.{report_value};
ghost use Rattle.hol_exec.specs.ShowGoal.{goal_text};
ghost use Rattle.hol_wire.specs.ReplyBytes.{reply_bytes};
ghost use Rattle.hol_wire.specs.Replies.{Reports, Lists, RestsOn, Counts, texts_data, goal_data, report_data, items_data, reply_data};
ghost use Rattle.hol_wire.specs.Texts.{Says};
ghost use Rattle.hol_wire.specs.Views.{items_text};

use crate::reply::{Reply, ReplyText};
use hol_exec::{RefusalKind, Report, ShownGoal};
use serde_json::{Value, json};
use std::alloc::{AllocError, Global};

// The value's text and a newline.
fn line_of(alloc: Global, value: &Value) -> Result<Reply, AllocError>
    ensures bytes { IfOk result (λ reply. has_float (view value.now) ≡ false
        → reply_bytes reply.text ≡ compact_text (view value.now) ++ 10 ∷ []) }
    ensures stays { IfOk result (λ reply. reply.closes ≡ false) }
{
    let mut text = value.to_vec(alloc)?;
    text.push(b'\n')?;
    Ok(Reply {
        text: ReplyText::Owned(text),
        closes: false,
    })
}

fn texts_value(alloc: Global, texts: Vec<String>) -> Result<Value, AllocError>
    ensures { IfOk result (λ value. view value ≡ texts_data (map string_bytes texts.items)) }
{
    let mut values = Vec::new(alloc);
    for text in texts {
        values.push(Value::String(text))?;
    }
    Ok(Value::Array(values))
}

fn goal_value(alloc: Global, goal: ShownGoal) -> Result<Value, AllocError>
    ensures { IfOk result (λ value. view value ≡ goal_data (goal_text goal)) }
{
    let asl = texts_value(alloc, goal.asl)?;
    let free = texts_value(alloc, goal.free)?;
    let conclusion = Value::String(goal.goal);
    json!(in alloc; {"asl": asl, "free": free, "goal": conclusion})
}

fn goal_values(alloc: Global, goals: Vec<ShownGoal>) -> Result<Value, AllocError>
    ensures { IfOk result (λ value. view value ≡ array (items_of (map goal_data (map goal_text goals.items)))) }
{
    let mut values = Vec::new(alloc);
    for goal in goals {
        values.push(goal_value(alloc, goal)?)?;
    }
    Ok(Value::Array(values))
}

fn goals_value(alloc: Global, goals: Vec<ShownGoal>) -> Result<Value, AllocError>
    ensures { IfOk result (λ value. view value ≡ report_data (ShowsGoals (map goal_text goals.items))) }
{
    let goals = goal_values(alloc, goals)?;
    json!(in alloc; {"goals": goals, "ok": true})
}

fn made_value(alloc: Global, texts: Vec<String>) -> Result<Value, AllocError>
    ensures { IfOk result (λ value. view value ≡ report_data (HasMade (map string_bytes texts.items))) }
{
    let made = texts_value(alloc, texts)?;
    json!(in alloc; {"made": made, "ok": true})
}

fn refusal_value(alloc: Global, kind: RefusalKind, arg: String) -> Result<Value, AllocError>
    ensures { IfOk result (λ value. view value ≡ report_data (WasRefused kind (string_bytes arg))) }
{
    let arg = Value::String(arg);
    let number = kind.number();
    let text = kind.text();
    json!(in alloc; {"arg": arg, "ok": true, "refusal": number, "text": text})
}

fn report_value(alloc: Global, report: Report) -> Result<Value, AllocError>
    ensures { IfOk result (λ value. view value ≡ report_data (report_value report)) }
{
    match report {
        Report::Goals(goals) => goals_value(alloc, goals),
        Report::Made(texts) => made_value(alloc, texts),
        Report::Refusal { no, arg } => refusal_value(alloc, no, arg),
    }
}

/// The reply to `report`.
pub fn reports(alloc: Global, report: Report) -> Result<Reply, AllocError>
    ensures { IfOk result (Says (Reports (report_value report))) }
{
    let value = report_value(alloc, report)?;
    line_of(alloc, &value)
}

fn theorems_value(alloc: Global, texts: Vec<String>) -> Result<Value, AllocError>
    ensures { IfOk result (λ value. view value ≡ reply_data (Lists (map string_bytes texts.items))) }
{
    let theorems = texts_value(alloc, texts)?;
    json!(in alloc; {"ok": true, "theorems": theorems})
}

/// The reply to `theorems`.
pub fn lists(alloc: Global, texts: Vec<String>) -> Result<Reply, AllocError>
    ensures { IfOk result (Says (Lists (map string_bytes texts.items))) }
{
    let value = theorems_value(alloc, texts)?;
    line_of(alloc, &value)
}

fn items_value(alloc: Global, items: Option<Vec<String>>) -> Result<Value, AllocError>
    ensures { IfOk result (λ value. view value ≡ items_data (items_text items)) }
{
    match items {
        None => Ok(Value::Null),
        Some(items) => texts_value(alloc, items),
    }
}

fn basis_value(alloc: Global, items: Option<Vec<String>>) -> Result<Value, AllocError>
    ensures { IfOk result (λ value. view value ≡ reply_data (RestsOn (items_text items))) }
{
    let items = items_value(alloc, items)?;
    json!(in alloc; {"items": items, "ok": true})
}

/// The reply to `basis`.
pub fn rests_on(alloc: Global, items: Option<Vec<String>>) -> Result<Reply, AllocError>
    ensures { IfOk result (Says (RestsOn (items_text items))) }
{
    let value = basis_value(alloc, items)?;
    line_of(alloc, &value)
}

fn count_value(alloc: Global, ran: u64) -> Result<Value, AllocError>
    ensures { IfOk result (λ value. view value ≡ reply_data (Counts ran)) }
{
    json!(in alloc; {"ok": true, "ran": ran})
}

/// The reply to `stats`.
pub fn counts(alloc: Global, ran: u64) -> Result<Reply, AllocError>
    ensures { IfOk result (Says (Counts ran)) }
{
    let value = count_value(alloc, ran)?;
    line_of(alloc, &value)
}
