//! Calls that neither the program nor a rule makes: each is seen to have an answer where there is memory, which no clause can promise.
use crate::written::Written;
use hol_formulas::{is_eq, is_exists};
use hol_kernel::KernelError;
use hol_notation_tokens::lex;
use hol_print::{ShownBefore, show_goal};
use hol_terms::Term;
use hol_types::{Name, Ty};
use std::alloc::{AllocError, Global};
use std::test::Fail;

// Whether the copy of the term as a shown goal has this text, and no free variable.
fn is_shown(alloc: Global, t: &Term, text: &str) -> Result<bool, AllocError> {
    let shown = show_goal(alloc, &[], t, &mut ShownBefore::new(alloc))?;
    let copy = shown.copy(alloc)?;
    Ok(copy.goal.as_str() == text && copy.free.is_empty())
}

// Whether the term that is written so is shown as it is written.
fn is_written(written: &Written, text: &str) -> Result<bool, Fail> {
    let t = written.term(text)?;
    Ok(is_shown(written.alloc, &t, text)?)
}

fn is_clash_copied(alloc: Global) -> Result<bool, AllocError> {
    let clash = KernelError::Clash(Name::new(alloc, "c")?);
    let copy = clash.copy()?;
    Ok(matches!(&copy, KernelError::Clash(name) if name.as_str() == "c"))
}

// Whether an equation and an existential quantification are told apart.
fn are_told_apart(written: &Written) -> Result<bool, Fail> {
    let equation = written.term("p:bool = q")?;
    let existential = written.term("?p:bool. p")?;
    let eqs = is_eq(&equation) && !is_eq(&existential);
    Ok(eqs && is_exists(&existential) && !is_exists(&equation))
}

fn are_answered(written: &Written) -> Result<bool, Fail> {
    let count = lex(written.alloc, " g N `x /\\ y'`;")?.len();
    let is_clash_copied = is_clash_copied(written.alloc)?;
    Ok(count == 8 && is_clash_copied && are_told_apart(written)? && is_written(written, "T \\/ T")?)
}

#[test]
fn calls_have_answers(rt: HostRuntime) -> Result<(), Fail> {
    let written = Written::new(rt.alloc())?;
    assert!(rt; are_answered(&written)?);
    Ok(())
}

// Whether the first type gives the second where `A` is this type, and nothing else is a variable of it.
fn is_matched(alloc: Global, from: &Ty, to: &Ty, a: &Ty) -> Result<bool, AllocError> {
    let Some(pairs) = from.match_to(alloc, to)? else {
        return Ok(false);
    };
    match pairs.as_slice() {
        [(ty, name)] => Ok(ty.same(a) && name.as_str() == "A"),
        _ => Ok(false),
    }
}

// Whether the first type doesn't give the second.
fn is_unmatched(alloc: Global, from: &Ty, to: &Ty) -> Result<bool, AllocError> {
    let found = from.match_to(alloc, to)?;
    Ok(found.is_none())
}

// Whether the type of the first gives that of the second where `A` is that of the last, and doesn't give that of the third.
fn are_types_matched(alloc: Global, terms: &[Term]) -> Result<bool, AllocError> {
    match terms {
        [f, g, h, p] => {
            let is_matched = is_matched(alloc, f.type_of(), g.type_of(), p.type_of())?;
            Ok(is_matched && is_unmatched(alloc, f.type_of(), h.type_of())?)
        }
        _ => Ok(false),
    }
}

#[test]
fn types_are_matched(rt: HostRuntime) -> Result<(), Fail> {
    let written = Written::new(rt.alloc())?;
    let terms = written.terms("f:A->A, g:bool->bool, h:bool->ind, p:bool")?;
    assert!(rt; are_types_matched(written.alloc, &terms)?);
    Ok(())
}

// Whether the type that is written so leads from the type of the first to that of the second.
fn is_read(written: &Written, text: &str, terms: &[Term]) -> Result<bool, Fail> {
    match terms {
        [x, y] => {
            let ty = Ty::fun(written.alloc, x.type_of(), y.type_of())?;
            Ok(written.ty(text)?.same(&ty))
        }
        _ => Ok(false),
    }
}

#[test]
fn types_are_read(rt: HostRuntime) -> Result<(), Fail> {
    let written = Written::new(rt.alloc())?;
    let terms = written.terms("x:A, p:bool")?;
    assert!(rt; is_read(&written, "A->bool", &terms)?);
    Ok(())
}
