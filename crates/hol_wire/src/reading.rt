//! Which request a JSON value is.

ghost use Rattle.std.specs.Prelude.{◌≡◌, option_map, codes};
ghost use Rattle.serde_json.specs.View.{view};
ghost use Rattle.hol_wire.specs.Requests.{Insert, Replace, Remove, Report, text_at, number_at, new_theory_of, drop_theory_of, text_at_place, at_place, theorems_of, basis_of, request_for, request_of};
ghost use Rattle.hol_wire.specs.Views.{request_text};

use crate::requests::Request;
use serde_json::Value;

// The string under a key.
fn text_at<'v>(value: &'v Value, key: &str) -> Option<&'v str>
    ensures { option_map (λ t. t.now) result ≡ text_at key.now (view value.now) }
{
    value.get(key)?.as_str()
}

// The number from 0 to 2^64 - 1 under a key.
fn number_at(value: &Value, key: &str) -> Option<u64>
    ensures { result ≡ number_at key.now (view value.now) }
{
    value.get(key)?.as_u64()
}

fn new_theory_of<'v>(value: &'v Value) -> Option<Request<'v>>
    ensures { option_map request_text result ≡ new_theory_of (view value.now) }
{
    let name = text_at(value, "name")?;
    let at = number_at(value, "at")?;
    Some(Request::NewTheory { name, at })
}

fn drop_theory_of<'v>(value: &'v Value) -> Option<Request<'v>>
    ensures { option_map request_text result ≡ drop_theory_of (view value.now) }
{
    let name = text_at(value, "name")?;
    Some(Request::DropTheory { name })
}

fn insert_of<'v>(value: &'v Value) -> Option<Request<'v>>
    ensures { option_map request_text result ≡ text_at_place Insert (view value.now) }
{
    let theory = text_at(value, "theory")?;
    let at = number_at(value, "at")?;
    let text = text_at(value, "text")?;
    Some(Request::Insert { theory, at, text })
}

fn replace_of<'v>(value: &'v Value) -> Option<Request<'v>>
    ensures { option_map request_text result ≡ text_at_place Replace (view value.now) }
{
    let theory = text_at(value, "theory")?;
    let at = number_at(value, "at")?;
    let text = text_at(value, "text")?;
    Some(Request::Replace { theory, at, text })
}

fn remove_of<'v>(value: &'v Value) -> Option<Request<'v>>
    ensures { option_map request_text result ≡ at_place Remove (view value.now) }
{
    let theory = text_at(value, "theory")?;
    let at = number_at(value, "at")?;
    Some(Request::Remove { theory, at })
}

fn report_of<'v>(value: &'v Value) -> Option<Request<'v>>
    ensures { option_map request_text result ≡ at_place Report (view value.now) }
{
    let theory = text_at(value, "theory")?;
    let at = number_at(value, "at")?;
    Some(Request::Report { theory, at })
}

fn theorems_of<'v>(value: &'v Value) -> Option<Request<'v>>
    ensures { option_map request_text result ≡ theorems_of (view value.now) }
{
    let theory = text_at(value, "theory")?;
    Some(Request::Theorems { theory })
}

fn basis_of<'v>(value: &'v Value) -> Option<Request<'v>>
    ensures { option_map request_text result ≡ basis_of (view value.now) }
{
    let theory = text_at(value, "theory")?;
    let name = text_at(value, "name")?;
    Some(Request::Basis { theory, name })
}

/// The request, or none where the value is no object, the op is unknown, or a key is missing or of the wrong kind.
/// Other keys are ignored.
pub fn request_of<'v>(value: &'v Value) -> Option<Request<'v>>
    ensures { option_map request_text result ≡ request_of (view value.now) }
{
    match text_at(value, "op")? {
        "new_theory" => new_theory_of(value),
        "drop_theory" => drop_theory_of(value),
        "insert" => insert_of(value),
        "replace" => replace_of(value),
        "remove" => remove_of(value),
        "report" => report_of(value),
        "theorems" => theorems_of(value),
        "basis" => basis_of(value),
        "stats" => Some(Request::Stats),
        "close" => Some(Request::Close),
        _ => None,
    }
}
