//! A text of requests that is answered at once: up to the line that closes the session.
use hol_document::Docs;
use hol_exec::Setup;
use hol_prelude::Prelude;
use hol_registry::{Registry, RegistryError};
use hol_session::answer_all;
use std::alloc::{AllocError, Global};
use std::rc::Rc;
use std::test::Fail;

const REQUESTS: &str = r#"{"op":"new_theory","name":"A","at":0}
{"op":"insert","theory":"A","at":0,"text":"new_axiom N `!x:A. x = x`"}

{"op":"report","theory":"A","at":0}
{"op":"theorems","theory":"A"}
{"op":"stats"}
{"op":"close"}
{"op":"stats"}"#;

const REPLIES: &str = r#"{"ok":true}
{"ok":true}
{"error":2,"ok":false,"text":"not JSON"}
{"made":["thm N |- !x. x = x"],"ok":true}
{"ok":true,"theorems":["thm N |- !x. x = x"]}
{"ok":true,"ran":1}
{"ok":true}
"#;

// Whether these are the replies. Where one of them is the memory line, memory was short.
fn are_replies(replies: &[u8]) -> Result<bool, AllocError> {
    match str::from_utf8(replies) {
        Ok(text) if text.contains("memory") => Err(AllocError),
        Ok(text) => Ok(text == REPLIES),
        Err(_) => Ok(false),
    }
}

fn is_answered(alloc: Global, setup: Setup) -> Result<bool, AllocError> {
    let mut docs = Docs::new(alloc, setup, 16)?;
    match answer_all(alloc, REQUESTS.as_bytes(), &mut docs) {
        Ok(replies) => are_replies(&replies),
        Err(_fault) => Err(AllocError),
    }
}

// The set-up of these functions, for commands of ten turns.
fn setup(alloc: Global, registry: Registry) -> Result<Setup, AllocError> {
    let prelude = Rc::new(alloc, Prelude::new(alloc)?)?;
    Setup::new(alloc, registry, prelude, 10)
}

fn is_answered_without_functions(alloc: Global) -> Result<bool, AllocError> {
    match Registry::new(Vec::new(alloc)) {
        Ok(registry) => is_answered(alloc, setup(alloc, registry)?),
        Err(RegistryError::Twice(_)) => Ok(false),
    }
}

#[test]
fn texts_are_answered(rt: HostRuntime) -> Result<(), Fail> {
    assert!(rt; is_answered_without_functions(rt.alloc())?);
    Ok(())
}
