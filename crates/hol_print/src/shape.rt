//! How the top of a term is written.
ghost use Rattle.std.specs.Prelude.{◌≡◌, ◌<◌, ◌≤◌, ◌+◌, ℕ, List};
ghost use Rattle.hol_terms.specs.Nameless.{app};
ghost use Rattle.hol_print.specs.BareView.{bare_of, nodes};
ghost use Rattle.hol_print.specs.ShapeView.{shape_syntax, shape_nodes};
ghost use Rattle.hol_print.specs.ShowTerm.{syntax, prefixed};

use crate::bare::Bare;
use crate::notation::{infix_number, is_not, is_quantifier, symbol};
use hol_terms::Variable;
use hol_types::Name;

/// How the top of a term is written, with its parts.
#[derive(Clone, Copy)]
pub(crate) enum Shape<'a, 'b> {
    /// A free variable.
    Free(&'a Name),
    /// A bound variable's index.
    Bound(usize),
    /// A constant's text without parentheses.
    Constant(&'a str),
    /// A binder's symbol, its variable and its body.
    Binder(&'a str, &'b Variable, &'a Bare<'b>),
    /// How strongly an infix binds, the infix and its operands.
    Infix(u8, &'a str, &'a Bare<'b>, &'a Bare<'b>),
    /// A negation's operand.
    Negation(&'a Bare<'b>),
    /// A function and its argument.
    Apply(&'a Bare<'b>, &'a Bare<'b>),
}

impl<'a, 'b> Shape<'a, 'b> {
    /// The shape of a term.
    pub(crate) fn new(t: &'a Bare<'b>) -> Shape<'a, 'b>
        ensures syntax { (env : List (List ℕ)) → syntax env (bare_of t.now) ≡ shape_syntax env result }
        ensures parts { shape_nodes result < nodes (bare_of t.now) }
    {
        match t {
            Bare::Free(v) => Shape::Free(v.name()),
            Bare::Bound(i) => Shape::Bound(*i),
            Bare::Constant(c, s) => Shape::Constant(symbol(c, s)),
            Bare::Lam(v, b) => Shape::Binder("\\", *v, &**b),
            Bare::App(f, x) => applied(f, x),
        }
    }
}

// The shape of an application.
fn applied<'a, 'b>(f: &'a Bare<'b>, x: &'a Bare<'b>) -> Shape<'a, 'b>
    ensures syntax { (env : List (List ℕ)) → syntax env (app (bare_of f.now) (bare_of x.now)) ≡ shape_syntax env result }
    ensures parts { shape_nodes result ≤ nodes (bare_of f.now) + nodes (bare_of x.now) }
{
    match f {
        Bare::Constant(c, _) => match x {
            Bare::Lam(v, b) => {
                if is_quantifier(c.as_str()) {
                    Shape::Binder(c.as_str(), *v, &**b)
                } else {
                    prefixed(c.as_str(), f, x)
                }
            }
            Bare::Free(_) | Bare::Bound(_) | Bare::Constant(_, _) | Bare::App(_, _) => {
                prefixed(c.as_str(), f, x)
            }
        },
        Bare::App(g, left) => match &**g {
            Bare::Constant(c, s) => {
                let symbol = symbol(c, s);
                match infix_number(symbol) {
                    Some(number) => Shape::Infix(number, symbol, &**left, x),
                    None => Shape::Apply(f, x),
                }
            }
            Bare::Free(_) | Bare::Bound(_) | Bare::App(_, _) | Bare::Lam(_, _) => {
                Shape::Apply(f, x)
            }
        },
        Bare::Free(_) | Bare::Bound(_) | Bare::Lam(_, _) => Shape::Apply(f, x),
    }
}

// The shape of the constant f of this symbol applied to one argument.
fn prefixed<'a, 'b>(symbol: &str, f: &'a Bare<'b>, x: &'a Bare<'b>) -> Shape<'a, 'b>
    ensures syntax { (env : List (List ℕ)) → prefixed symbol.now (syntax env (bare_of f.now)) (syntax env (bare_of x.now)) ≡ shape_syntax env result }
    ensures parts { shape_nodes result ≤ nodes (bare_of f.now) + nodes (bare_of x.now) }
{
    if is_not(symbol) {
        Shape::Negation(x)
    } else {
        Shape::Apply(f, x)
    }
}
