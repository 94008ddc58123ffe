//! Replacement of each occurrence of a term, as HOL Light's `subst` has it: by a template with a variable that the formula doesn't have.
ghost use Rattle.std.specs.Prelude.{◌≡◌, ◌≤◌, IfOk, Some, [], length};
ghost use Rattle.hol_terms.specs.Named.{abs, comb, named_type};
ghost use Rattle.hol_terms.specs.Nameless.{free, nameless};
ghost use Rattle.hol_formulas.specs.Equation.{bool_type};
ghost use Rattle.hol_just.specs.Replacing.{replace_each};
ghost use Rattle.hol_steps.specs.Unused.{HasNo, AreShort};

use crate::quantifiers::at;
use hol_formulas::occurrence;
use hol_terms::{Term, TermNode, Variable};
use hol_types::{Name, Ty};
use std::alloc::{AllocError, Global};

/// A variable of the type that the term doesn't have, free or bound: its name is longer than those that it has.
pub(crate) fn other_variable(alloc: Global, term: &Term, ty: &Ty) -> Result<Variable, AllocError>
    ensures of_type { IfOk result (λ v. v.1 ≡ ty.now) }
    ensures other { IfOk result (λ v. HasNo v term.now) }
{
    let letter = Name::new(alloc, "x")?;
    let name = longest(term, &letter).primed(alloc)?;
    Variable::new(&name, ty)
}

// The longest of the names of the term's variables, free and bound, and this one.
fn longest<'a>(term: &'a Term, so_far: &'a Name) -> &'a Name
    ensures grows { length so_far.now ≤ length result.now }
    ensures longest { AreShort (length result.now) term.now }
{
    match term.node() {
        TermNode::Var(v) => longer(so_far, v.name()),
        TermNode::Const(_, _) => so_far,
        TermNode::Comb(f, x) => longest(x, longest(f, so_far)),
        TermNode::Abs(v, b) => longest(b, longer(so_far, v.name())),
    }
}

// The longer one.
fn longer<'a>(first: &'a Name, second: &'a Name) -> &'a Name
    ensures first { length first.now ≤ length result.now }
    ensures second { length second.now ≤ length result.now }
{
    if first.as_str().len() < second.as_str().len() {
        second
    } else {
        first
    }
}

/// The term with the variable, which it doesn't have, for each occurrence of `s`. Parts without one are the term's own nodes.
///
/// It visits each part of the term as often as it stands there, and compares those with `s` that are of its size.
pub(crate) fn template(
    alloc: Global,
    term: &Term,
    s: &Term,
    v: &Variable,
) -> Result<Term, AllocError>
    requires of_type { named_type s.now ≡ Some v.now.1 }
    requires other { HasNo v.now term.now }
    ensures is { IfOk result (λ m. nameless [] m ≡ replace_each (nameless [] s.now) (free v.now) (nameless [] term.now)) }
    ensures typed { IfOk result (λ m. named_type m ≡ named_type term.now) }
{
    if term.alpha_equivalent(s) {
        return occurrence(alloc, v);
    }
    match term.node() {
        TermNode::Var(_) => term.copy(),
        TermNode::Const(_, _) => term.copy(),
        TermNode::Comb(f, x) => {
            let function = template(alloc, f, s, v)?;
            let argument = template(alloc, x, s, v)?;
            applied(alloc, term, &function, &argument)
        }
        TermNode::Abs(u, b) => {
            if s.vfree_in(u) {
                return term.copy();
            }
            let body = template(alloc, b, s, v)?;
            abstracted(alloc, term, u, &body)
        }
    }
}

// The application, which has the type of the term: the term itself, where its parts are these very nodes.
fn applied(alloc: Global, term: &Term, function: &Term, argument: &Term) -> Result<Term, AllocError>
    requires { named_type (comb function.now argument.now) ≡ named_type term.now }
    ensures { IfOk result (λ t. t ≡ comb function.now argument.now) }
{
    if let TermNode::Comb(f, x) = term.node() {
        if f.same_node(function) && x.same_node(argument) {
            return term.copy();
        }
    }
    // It has a type, so the application is known to fit.
    let _ty = term.type_of();
    Term::application(alloc, function, argument)
}

// The abstraction of the variable in the body: the term itself, where it is of this variable and this very node.
fn abstracted(alloc: Global, term: &Term, v: &Variable, body: &Term) -> Result<Term, AllocError>
    ensures { IfOk result (λ t. t ≡ abs v.now body.now) }
{
    if let TermNode::Abs(u, b) = term.node() {
        if u.same(v) && b.same_node(body) {
            return term.copy();
        }
    }
    Term::abstraction(alloc, v, body)
}

/// The formula with `t` for each occurrence of `s`, by its template.
pub(crate) fn replaced(
    alloc: Global,
    formula: &Term,
    s: &Term,
    t: &Term,
    v: &Variable,
    template: &Term,
) -> Result<Term, AllocError>
    requires formula { named_type formula.now ≡ Some bool_type }
    requires of_type { named_type t.now ≡ Some v.now.1 }
    requires other { HasNo v.now formula.now }
    requires is { nameless [] template.now ≡ replace_each (nameless [] s.now) (free v.now) (nameless [] formula.now) }
    requires typed { named_type template.now ≡ named_type formula.now }
    ensures is { IfOk result (λ r. nameless [] r ≡ replace_each (nameless [] s.now) (nameless [] t.now) (nameless [] formula.now)) }
    ensures typed { IfOk result (λ r. named_type r ≡ Some bool_type) }
{
    at(alloc, v, template, t)
}
