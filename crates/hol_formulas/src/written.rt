//! Terms as they are written, and made: the parts of the prelude's statements.
ghost use Rattle.std.specs.Prelude.{◌≡◌, IfOk, IsSome};
ghost use Rattle.hol_terms.specs.Named.{var, constant, comb, abs, named_type};
ghost use Rattle.hol_formulas.specs.Equation.{mk_eq};
ghost use Rattle.hol_formulas.specs.Making.{mk_binary, mk_quantifier};
ghost use Rattle.hol_formulas.specs.Written.{sort_type, written_term};

use crate::connectives::mk_binary;
use crate::equations::mk_eq;
use crate::quantifiers::mk_quantifier;
use crate::sort::{Sort, type_of};
use crate::terms::{constant_named, occurrence, variable};
use hol_terms::Term;
use std::alloc::{AllocError, Global};

/// A term as it is written, each variable and constant with its type.
#[derive(Clone, Copy)]
pub enum Written<'a> {
    /// A variable.
    Variable(&'a str, Sort),
    /// A constant.
    Constant(&'a str, Sort),
    /// A function applied to an argument.
    Applied(&'a Written<'a>, &'a Written<'a>),
    /// `\x. b`.
    Function(&'a str, Sort, &'a Written<'a>),
    /// `l = r`, of this type.
    Equation(Sort, &'a Written<'a>, &'a Written<'a>),
    /// A connective between two formulas.
    Connective(&'a str, &'a Written<'a>, &'a Written<'a>),
    /// A quantifier, its variable, and a formula.
    Quantified(&'a str, &'a str, Sort, &'a Written<'a>),
}

/// The term that is written.
#[cycle(made)]
pub fn written_term(alloc: Global, written: &Written<'_>) -> Result<Term, AllocError>
    requires { IsSome (named_type (written_term written.now)) }
    ensures { IfOk result (λ t. t ≡ written_term written.now) }
{
    match written {
        Written::Variable(name, sort) => make_variable(alloc, name, *sort),
        Written::Constant(name, sort) => make_constant(alloc, name, *sort),
        Written::Applied(f, x) => make_application(alloc, f, x),
        Written::Function(name, sort, body) => make_abstraction(alloc, name, *sort, body),
        Written::Equation(sort, left, right) => make_equation(alloc, *sort, left, right),
        Written::Connective(sign, p, q) => make_connective(alloc, sign, p, q),
        Written::Quantified(sign, name, sort, p) => make_quantified(alloc, sign, name, *sort, p),
    }
}

fn make_variable(alloc: Global, name: &str, sort: Sort) -> Result<Term, AllocError>
    ensures { IfOk result (λ t. t ≡ var (name.now, sort_type sort)) }
{
    let ty = type_of(alloc, sort)?;
    let v = variable(alloc, name, &ty)?;
    occurrence(alloc, &v)
}

fn make_constant(alloc: Global, name: &str, sort: Sort) -> Result<Term, AllocError>
    ensures { IfOk result (λ t. t ≡ constant name.now (sort_type sort)) }
{
    let ty = type_of(alloc, sort)?;
    constant_named(alloc, name, &ty)
}

#[cycle(made)]
fn make_application(alloc: Global, f: &Written<'_>, x: &Written<'_>) -> Result<Term, AllocError>
    requires { IsSome (named_type (comb (written_term f.now) (written_term x.now))) }
    ensures { IfOk result (λ t. t ≡ comb (written_term f.now) (written_term x.now)) }
{
    let function = written_term(alloc, f)?;
    let argument = written_term(alloc, x)?;
    Term::application(alloc, &function, &argument)
}

#[cycle(made)]
fn make_abstraction(
    alloc: Global,
    name: &str,
    sort: Sort,
    body: &Written<'_>,
) -> Result<Term, AllocError>
    requires { IsSome (named_type (abs (name.now, sort_type sort) (written_term body.now))) }
    ensures { IfOk result (λ t. t ≡ abs (name.now, sort_type sort) (written_term body.now)) }
{
    let ty = type_of(alloc, sort)?;
    let v = variable(alloc, name, &ty)?;
    let body = written_term(alloc, body)?;
    Term::abstraction(alloc, &v, &body)
}

#[cycle(made)]
#[tactic(auto, using(crate::proofs::WrittenParts::left_typed, crate::proofs::WrittenParts::right_typed))]
fn make_equation(
    alloc: Global,
    sort: Sort,
    left: &Written<'_>,
    right: &Written<'_>,
) -> Result<Term, AllocError>
    requires { IsSome (named_type (mk_eq (sort_type sort) (written_term left.now) (written_term right.now))) }
    ensures { IfOk result (λ t. t ≡ mk_eq (sort_type sort) (written_term left.now) (written_term right.now)) }
{
    let ty = type_of(alloc, sort)?;
    let left_side = written_term(alloc, left)?;
    let right_side = written_term(alloc, right)?;
    mk_eq(alloc, &ty, &left_side, &right_side)
}

#[cycle(made)]
fn make_connective(
    alloc: Global,
    sign: &str,
    p: &Written<'_>,
    q: &Written<'_>,
) -> Result<Term, AllocError>
    requires { IsSome (named_type (mk_binary sign.now (written_term p.now) (written_term q.now))) }
    ensures { IfOk result (λ t. t ≡ mk_binary sign.now (written_term p.now) (written_term q.now)) }
{
    let left = written_term(alloc, p)?;
    let right = written_term(alloc, q)?;
    mk_binary(alloc, sign, &left, &right)
}

#[cycle(made)]
fn make_quantified(
    alloc: Global,
    sign: &str,
    name: &str,
    sort: Sort,
    p: &Written<'_>,
) -> Result<Term, AllocError>
    requires { IsSome (named_type (mk_quantifier sign.now (name.now, sort_type sort) (written_term p.now))) }
    ensures { IfOk result (λ t. t ≡ mk_quantifier sign.now (name.now, sort_type sort) (written_term p.now)) }
{
    let ty = type_of(alloc, sort)?;
    let v = variable(alloc, name, &ty)?;
    let p = written_term(alloc, p)?;
    mk_quantifier(alloc, sign, &v, &p)
}
