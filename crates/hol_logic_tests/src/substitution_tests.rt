//! Substitution, instances and names, with the names of bound variables that HOL Light chooses; and terms that can't be made.
use crate::written::Written;
use hol_subst::{SubstError, free_name, inst, variant, vsubst};
use hol_terms::{Term, TermError, TermNode, Variable};
use hol_types::{Name, Ty};
use std::alloc::{AllocError, Global};
use std::test::Fail;

// What is put, for what, in which term, and what that makes.
const ROWS: &str = r"x:A, y:A, \x:A. y:A is \x':A. x:A
z:A, y:A, \x:A. y:A is \x:A. z:A
z:A, x:A, \x:A. x:A is \x:A. x:A
x:A, y:A, \x:A. \x':A. (f:A->A->A) x y is \x':A. \x'':A. (f:A->A->A) x' x
x:A, y:A, \x':A. \x:A. (f:A->A->A) x y is \x':A. \x':A. (f:A->A->A) x' x
x:A, y:A, \x:A. (f:A->A->A) x' y is \x'':A. (f:A->A->A) x' x
x:A, \x:A. x, x:A is BadPair
x:A, T, x:A is BadPair
x:bool, y:A, y:A is BadPair";

// Adds the names that the term binds, from the outermost on, to the text.
fn add_binders(text: &mut String, t: &Term) -> Result<(), AllocError> {
    let mut rest = t;
    for _ in 0..10 {
        let TermNode::Abs(v, body) = rest.node() else {
            return Ok(());
        };
        text.push_str(v.name().as_str())?;
        text.push_str(" ")?;
        rest = body;
    }
    Ok(())
}

fn binders(alloc: Global, t: &Term) -> Result<String, AllocError> {
    let mut text = String::new(alloc);
    add_binders(&mut text, t)?;
    Ok(text)
}

// Whether the two are one term, and begin with binders of the same names.
fn is_identical(alloc: Global, s: &Term, t: &Term) -> Result<bool, AllocError> {
    let names = binders(alloc, s)?;
    Ok(s.same(t) && names.as_str() == binders(alloc, t)?.as_str())
}

fn is_made(written: &Written, made: &Term, wanted: &str) -> Result<bool, Fail> {
    let wanted = written.term(wanted)?;
    Ok(is_identical(written.alloc, made, &wanted)?)
}

fn gives(written: &Written, made: Result<Term, SubstError>, wanted: &str) -> Result<bool, Fail> {
    match made {
        Ok(t) => is_made(written, &t, wanted),
        Err(SubstError::BadPair) => Ok(wanted == "BadPair"),
        Err(SubstError::Memory) => Ok(false),
    }
}

fn is_put(written: &Written, new: &Term, old: &Term, t: &Term, wanted: &str) -> Result<bool, Fail> {
    let pairs = [(new.copy()?, old.copy()?)];
    gives(written, vsubst(written.alloc, &pairs, t), wanted)
}

fn is_met(written: &Written, row: &str) -> Result<bool, Fail> {
    let (made, wanted) = row.split_once(" is ").unwrap_or((row, ""));
    let terms = written.terms(made)?;
    match terms.as_slice() {
        [new, old, t] => is_put(written, new, old, t, wanted),
        _ => Ok(false),
    }
}

// The first row that isn't met, or nothing.
fn unmet(written: &Written) -> Result<&'static str, Fail> {
    for row in ROWS.lines() {
        if !is_met(written, row)? {
            return Ok(row);
        }
    }
    Ok("")
}

#[test]
fn substitution_renames_what_would_capture(rt: HostRuntime) -> Result<(), Fail> {
    let written = Written::new(rt.alloc())?;
    assert_eq!(rt; unmet(&written)?, "");
    Ok(())
}

// The type, for the type variable of this name.
fn type_for(alloc: Global, ty: &Ty, name: &str) -> Result<(Ty, Name), AllocError> {
    let own = ty.copy()?;
    Ok((own, Name::new(alloc, name)?))
}

fn is_instance(
    alloc: Global,
    pairs: &[(Ty, Name)],
    t: &Term,
    wanted: &Term,
) -> Result<bool, AllocError> {
    let made = inst(alloc, pairs, t)?;
    is_identical(alloc, &made, wanted)
}

// Whether the term with the type for each of two type variables is the other.
fn is_instance_at(alloc: Global, t: &Term, ty: &Ty, wanted: &Term) -> Result<bool, AllocError> {
    let pairs = [type_for(alloc, ty, "A")?, type_for(alloc, ty, "B")?];
    is_instance(alloc, &pairs, t, wanted)
}

// Whether the abstraction of the first variable in the second, `\x:A. x:B`, at that type is `\x'. x`.
fn is_renamed(alloc: Global, terms: &[Term]) -> Result<bool, TermError> {
    let [x, other, p, wanted] = terms else {
        return Ok(false);
    };
    let t = Term::abs(alloc, x, other)?;
    Ok(is_instance_at(alloc, &t, p.type_of(), wanted)?)
}

#[test]
fn an_instance_renames_what_would_capture(rt: HostRuntime) -> Result<(), Fail> {
    let written = Written::new(rt.alloc())?;
    let terms = written.terms(r"x:A, x:B, p:bool, \x':bool. x:bool")?;
    assert!(rt; is_renamed(written.alloc, &terms)?);
    Ok(())
}

// Whether a name is made of this one that differs from all that is free in the term.
fn is_free_name(alloc: Global, t: &Term, base: &str, wanted: &str) -> Result<bool, AllocError> {
    let avoid = [t.copy()?];
    let name = free_name(alloc, &avoid, &Name::new(alloc, base)?)?;
    Ok(name.as_str() == wanted)
}

fn is_variant(alloc: Global, avoid: &[Term], v: &Variable) -> Result<bool, AllocError> {
    let found = variant(alloc, avoid, v)?;
    Ok(found.name().as_str() == "x''" && found.ty().same(v.ty()))
}

fn are_names_new(alloc: Global, terms: &[Term]) -> Result<bool, AllocError> {
    let [applied, bound, x, primed] = terms else {
        return Ok(false);
    };
    let TermNode::Var(v) = x.node() else {
        return Ok(false);
    };
    let avoid = [x.copy()?, primed.copy()?];
    Ok(
        is_free_name(alloc, applied, "d", "d''")?
            && is_free_name(alloc, applied, "y", "y")?
            && is_free_name(alloc, bound, "d", "d''")?
            && is_variant(alloc, &avoid, v)?,
    )
}

#[test]
fn new_names_differ_from_what_is_free(rt: HostRuntime) -> Result<(), Fail> {
    let written = Written::new(rt.alloc())?;
    let terms = written.terms(r"(d':A->A) d, \d'':A. (d':A->A) d, x:A, x':A")?;
    assert!(rt; are_names_new(written.alloc, &terms)?);
    Ok(())
}

// Whether no variable is applied to itself, and nothing but a variable is bound.
fn are_refused(alloc: Global, x: &Term, identity: &Term) -> bool {
    let applied = Term::comb(alloc, x, x);
    let bound = Term::abs(alloc, identity, x);
    matches!(&applied, Err(TermError::TypesDontFit))
        && matches!(&bound, Err(TermError::NotAVariable))
}

fn are_terms_refused(alloc: Global, terms: &[Term]) -> bool {
    match terms {
        [x, identity] => are_refused(alloc, x, identity),
        _ => false,
    }
}

#[test]
fn terms_that_do_not_fit_are_refused(rt: HostRuntime) -> Result<(), Fail> {
    let written = Written::new(rt.alloc())?;
    let terms = written.terms(r"x:A, \x:A. x")?;
    assert!(rt; are_terms_refused(written.alloc, &terms));
    Ok(())
}
