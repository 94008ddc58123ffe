//! The type variables of a term.
ghost use Rattle.std.specs.Prelude.{◌≡◌, IfOk, OnOk, []};
ghost use Rattle.hol_types.specs.Names.{tyvars, insert_names};
ghost use Rattle.hol_terms.specs.Nameless.{nameless};
ghost use Rattle.hol_terms.specs.Scope.{binders};
ghost use Rattle.hol_subst.specs.TermTyvars.{type_names_in, term_tyvars, are_among};

use hol_terms::{Scope, Term, TermNode};
use hol_types::{Name, Ty, insert_name, is_among};
use std::alloc::{AllocError, Global};

/// The names of the type variables in the types of the term, each once, by bytes.
pub fn term_tyvars(alloc: Global, term: &Term) -> Result<Vec<Name>, AllocError>
    ensures { IfOk result (λ names. names.items ≡ term_tyvars (nameless [] term.now)) }
{
    let mut names = Vec::new(alloc);
    add_term(alloc, term, &Scope::Outside, &mut names)?;
    Ok(names)
}

/// Whether each type variable of the term occurs in the type.
pub fn has_tyvars_in(alloc: Global, term: &Term, ty: &Ty) -> Result<bool, AllocError>
    ensures { IfOk result (λ has. has ≡ are_among (tyvars ty.now) (term_tyvars (nameless [] term.now))) }
{
    let names = term_tyvars(alloc, term)?;
    let own = ty.tyvars(alloc)?;
    Ok(are_among(&own, &names))
}

// Puts the names of the term's type variables in their places.
#[tactic(auto, using(crate::proofs::TermNames::terms))]
fn add_term(
    alloc: Global,
    term: &Term,
    scope: &Scope,
    names: &mut Vec<Name>,
) -> Result<(), AllocError>
    ensures { OnOk result (names.new.items ≡ insert_names names.old.items (type_names_in (nameless (binders scope.now) term.now))) }
{
    match term.node() {
        TermNode::Var(v) => {
            if scope.binds(v) {
                return Ok(());
            }
            add_type(alloc, v.ty(), names)
        }
        TermNode::Const(_, ty) => add_type(alloc, ty, names),
        TermNode::Comb(function, argument) => {
            add_term(alloc, function, scope, names)?;
            add_term(alloc, argument, scope, names)
        }
        TermNode::Abs(v, body) => {
            add_type(alloc, v.ty(), names)?;
            let inner = &Scope::Inside(v, &*scope);
            add_term(alloc, body, inner, names)
        }
    }
}

// Puts the names of the type's variables in their places.
fn add_type(alloc: Global, ty: &Ty, names: &mut Vec<Name>) -> Result<(), AllocError>
    ensures { OnOk result (names.new.items ≡ insert_names names.old.items (tyvars ty.now)) }
{
    let own = ty.tyvars(alloc)?;
    for name in &own {
        insert_name(names, name)?;
    }
    Ok(())
}

// Whether each of the names is one of the others.
fn are_among(own: &[Name], names: &[Name]) -> bool
    ensures { result ≡ are_among own.now names.now }
{
    for name in names {
        if !is_among(own, name) {
            return false;
        }
    }
    true
}
