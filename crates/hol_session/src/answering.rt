//! One line and its reply.

ghost use Rattle.std.specs.Prelude.{◌≡◌, ◌≤◌, ◌⊎◌, Err, IfOk, OnOk, IfErr, OnErr, length};
ghost use Rattle.hol_document.specs.declared.error.Refusal.{Refusal};
ghost use Rattle.serde_json.specs.Errors.{IsMemory};
ghost use Rattle.hol_wire.specs.Replies.{Done, Refused, ByDocuments, Memory, NotJson};
ghost use Rattle.hol_wire.specs.ReplyBytes.{reply_bytes};
ghost use Rattle.hol_wire.specs.Requests.{Report, Theorems, Basis};
ghost use Rattle.hol_wire.specs.Texts.{Says};
ghost use Rattle.hol_wire.specs.Views.{request_text};
ghost use Rattle.hol_session.specs.Lines.{line_limit};
ghost use Rattle.hol_session.specs.Machine.{MayAnswer, counted};
ghost use Rattle.hol_session.specs.Served.{IsServed};

use hol_document::{DocsError, Editable};
use hol_wire::{
    Reply, Request, closed, counts, done, lists, memory, not_json, refused, reports, request_of,
    rests_on, shape,
};
use serde_json::{Error, Value};
use std::alloc::{AllocError, Global};

// The reply to a refusal of the documents. It takes no memory: the error is theirs.
fn refusal_reply(error: DocsError) -> Result<Reply, AllocError>
    ensures refused { IfOk result (λ reply. (refusal : Refusal) × (error ≡ DocsError.Refused refusal) × Says (Refused (ByDocuments refusal)) reply) }
    ensures memory { OnErr result (error ≡ DocsError.Memory) }
{
    match error {
        DocsError::Refused(refusal) => Ok(refused(refusal)),
        DocsError::Memory => Err(AllocError),
    }
}

// The reply to an edit.
fn edit_reply(edit: Result<(), DocsError>) -> Result<Reply, AllocError>
    ensures done { IfOk result (λ reply. OnOk edit (Says Done reply)) }
    ensures refused { IfOk result (λ reply. IfErr edit (λ error. (refusal : Refusal) × (error ≡ DocsError.Refused refusal) × Says (Refused (ByDocuments refusal)) reply)) }
    ensures memory { OnErr result (edit ≡ Err DocsError.Memory) }
{
    match edit {
        Ok(()) => Ok(done()),
        Err(error) => refusal_reply(error),
    }
}

// Serves a question for a report.
fn reported<D: Editable>(
    alloc: Global,
    docs: &D,
    theory: &str,
    at: u64,
) -> Result<Reply, AllocError>
    ensures { IfOk result (IsServed (counted (D.value docs.now) (D.ran docs.now)) (Report theory.now at) (counted (D.value docs.now) (D.ran docs.now))) }
{
    match docs.report(theory, at as usize) {
        Ok(report) => reports(alloc, report),
        Err(error) => refusal_reply(error),
    }
}

// Serves a question for theorems.
fn listed<D: Editable>(alloc: Global, docs: &D, theory: &str) -> Result<Reply, AllocError>
    ensures { IfOk result (IsServed (counted (D.value docs.now) (D.ran docs.now)) (Theorems theory.now) (counted (D.value docs.now) (D.ran docs.now))) }
{
    match docs.theorems(theory) {
        Ok(texts) => lists(alloc, texts),
        Err(error) => refusal_reply(error),
    }
}

// Serves a question for a basis.
fn based<D: Editable>(
    alloc: Global,
    docs: &D,
    theory: &str,
    name: &str,
) -> Result<Reply, AllocError>
    ensures { IfOk result (IsServed (counted (D.value docs.now) (D.ran docs.now)) (Basis theory.now name.now) (counted (D.value docs.now) (D.ran docs.now))) }
{
    match docs.basis(theory, name) {
        Ok(items) => rests_on(alloc, items),
        Err(error) => refusal_reply(error),
    }
}

// Serves a request over the documents. Where it finds no memory they stay as they were.
fn served<D: Editable>(
    alloc: Global,
    docs: &mut D,
    request: Request<'_>,
) -> Result<Reply, AllocError>
    ensures ok { IfOk result (IsServed (counted (D.value docs.old) (D.ran docs.old)) (request_text request.entry) (counted (D.value docs.new) (D.ran docs.new))) }
    ensures kept { OnErr result (D.value docs.new ≡ D.value docs.old) }
    ensures rises { D.ran docs.old ≤ D.ran docs.new }
{
    match request {
        Request::NewTheory { name, at } => edit_reply(docs.new_theory(name, at as usize)),
        Request::DropTheory { name } => edit_reply(docs.drop_theory(name)),
        Request::Insert { theory, at, text } => edit_reply(docs.insert(theory, at as usize, text)),
        Request::Replace { theory, at, text } => edit_reply(docs.replace(
            theory,
            at as usize,
            text,
        )),
        Request::Remove { theory, at } => edit_reply(docs.remove(theory, at as usize)),
        Request::Report { theory, at } => reported(alloc, docs, theory, at),
        Request::Theorems { theory } => listed(alloc, docs, theory),
        Request::Basis { theory, name } => based(alloc, docs, theory, name),
        Request::Stats => counts(alloc, docs.ran()),
        Request::Close => Ok(closed()),
    }
}

// The reply to a line that isn't read, because of this error. It takes no memory: the memory line stands for the reader's want of it alone.
fn unread_reply(error: &Error) -> Reply
    ensures { (IsMemory error.now × Says (Refused Memory) result) ⊎ (¬ IsMemory error.now × Says (Refused NotJson) result) }
{
    if error.is_memory() {
        return memory();
    }
    not_json()
}

// Where the reader wants memory, what can be forgotten is.
fn forget_for<D: Editable>(docs: &mut D, error: &Error)
    ensures documents { D.value docs.new ≡ D.value docs.old }
    ensures ran { D.ran docs.new ≡ D.ran docs.old }
{
    if error.is_memory() {
        docs.forget();
    }
}

/// The reply to a line, with its newline. Before the memory line, what can be forgotten is: so the next request finds what memory there is.
pub(crate) fn answer<D: Editable>(alloc: Global, docs: &mut D, line: &[u8]) -> Reply
    requires { length line.now ≤ line_limit }
    ensures { MayAnswer (counted (D.value docs.old) (D.ran docs.old)) line.now (reply_bytes result.text) result.closes (counted (D.value docs.new) (D.ran docs.new)) }
{
    let value = match Value::from_slice(alloc, line) {
        Ok(value) => value,
        Err(error) => {
            forget_for(docs, &error);
            return unread_reply(&error);
        }
    };
    let Some(request) = request_of(&value) else {
        return shape();
    };
    match served(alloc, docs, request) {
        Ok(reply) => reply,
        Err(_refused) => {
            docs.forget();
            memory()
        }
    }
}
