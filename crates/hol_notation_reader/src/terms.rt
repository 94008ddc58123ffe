//! What the productions of terms build.
ghost use Rattle.std.specs.Prelude.{◌≡◌, ◌∷◌, [], reverse, IfOk};
ghost use Rattle.hol_notation_grammar.specs.declared.grammar.Production.TheVariants.{IffFirst, ImpliesFirst, OrFirst, AndFirst, EqualsFirst, NoIff, MoreIff, Plain, Negation, Binding, TypedTerm, NoArgument, MoreArguments, Named, Parenthesised, NamedBound, TypedBound, NameAlone, LastTyped, BoundBody, BoundMore};
ghost use Rattle.hol_notation_grammar.specs.Table.{symbols};
ghost use Rattle.hol_notation_reader.specs.Piece.{AreOf};
ghost use Rattle.hol_notation_reader.specs.Build.{reduced, maybe_infix, infix_term, operator_of, bind, bind_all, applied, variable};
ghost use Rattle.hol_notation_terms.specs.Text.{Applied, Constant};
ghost use Rattle.hol_notation_terms.specs.declared.operator.Operator.TheVariants as sign;
ghost use Rattle.hol_notation_reader.specs.Piece.{IsFirst, of_term, of_maybe_term, a_term, the_term, term_if_any, at};
ghost use Rattle.std.specs.Prelude.{drop};
ghost use Rattle.hol_notation_reader.specs.View.{pieces_of};

use crate::piece::{
    Piece, pop_after_name, pop_bound, pop_maybe_term, pop_maybe_type, pop_term, pop_terms,
    pop_type, pop_word, push,
};
use hol_notation_terms::{Operator, PreTerm, PreTermNode, PreType, PreVariable};
use hol_notation_tokens::Kind;
use std::alloc::{AllocError, Global};

/// The constant of a symbol; the others are no constants.
pub(crate) fn operator_of(kind: Kind) -> Operator
    ensures { result ≡ operator_of kind }
{
    match kind {
        Kind::Iff => Operator::Iff,
        Kind::Implies => Operator::Implies,
        Kind::Or => Operator::Or,
        Kind::And => Operator::And,
        Kind::Equals => Operator::Equals,
        Kind::Not => Operator::Not,
        Kind::ForAll => Operator::ForAll,
        Kind::Exists => Operator::Exists,
        Kind::ExistsUnique => Operator::ExistsUnique,
        _ => Operator::Choice,
    }
}

/// A constant.
pub(crate) fn constant(alloc: Global, operator: Operator) -> Result<PreTerm, AllocError>
    ensures { IfOk result (λ term. term ≡ Constant operator) }
{
    PreTerm::new(alloc, PreTermNode::Operator(operator))
}

/// An infix between two terms.
pub(crate) fn infix_term(
    alloc: Global,
    operator: Operator,
    left: PreTerm,
    right: PreTerm,
) -> Result<PreTerm, AllocError>
    ensures { IfOk result (λ term. term ≡ infix_term operator left right) }
{
    let function = constant(alloc, operator)?;
    let half = PreTerm::new(alloc, PreTermNode::Apply(function, left))?;
    PreTerm::new(alloc, PreTermNode::Apply(half, right))
}

/// The negation of a term.
pub(crate) fn negated(alloc: Global, term: PreTerm) -> Result<PreTerm, AllocError>
    ensures { IfOk result (λ not. not ≡ Applied (Constant sign.Not) term) }
{
    let not = constant(alloc, Operator::Not)?;
    PreTerm::new(alloc, PreTermNode::Apply(not, term))
}

// A variable bound by a binder.
fn bind(
    alloc: Global,
    binder: Kind,
    variable: PreVariable,
    body: PreTerm,
) -> Result<PreTerm, AllocError>
    ensures { IfOk result (λ term. term ≡ bind binder variable body) }
{
    let abstraction = PreTerm::new(alloc, PreTermNode::Abstraction(variable, body))?;
    match binder {
        Kind::Lambda => Ok(abstraction),
        other => {
            let quantifier = constant(alloc, operator_of(other))?;
            PreTerm::new(alloc, PreTermNode::Apply(quantifier, abstraction))
        }
    }
}

/// Variables bound by a binder, the last of the list first.
pub(crate) fn bind_all(
    alloc: Global,
    binder: Kind,
    variables: Vec<PreVariable>,
    body: PreTerm,
) -> Result<PreTerm, AllocError>
    ensures { IfOk result (λ term. term ≡ bind_all binder (reverse variables.items) body) }
{
    let mut left = variables;
    left.reverse();
    let mut term = body;
    while let Some(variable) = left.pop() {
        term = bind(alloc, binder, variable, term)?;
    }
    Ok(term)
}

// A function and its arguments, the last of the list first.
fn applied(alloc: Global, function: PreTerm, arguments: Vec<PreTerm>) -> Result<PreTerm, AllocError>
    ensures { IfOk result (λ term. term ≡ applied function (reverse arguments.items)) }
{
    let mut left = arguments;
    let mut term = function;
    while let Some(argument) = left.pop() {
        term = PreTerm::new(alloc, PreTermNode::Apply(term, argument))?;
    }
    Ok(term)
}

/// A variable where it is bound.
pub(crate) fn variable(
    alloc: Global,
    name: &str,
    annotation: Option<PreType>,
) -> Result<PreVariable, AllocError>
    ensures { IfOk result (λ bound. bound ≡ variable name.now annotation) }
{
    let name = String::from_str(alloc, name)?;
    Ok(PreVariable { name, annotation })
}

// A term, and behind it an infix, if there is one.
fn maybe_infix(
    alloc: Global,
    operator: Operator,
    pieces: &mut Vec<Piece<'_>>,
) -> Result<(), AllocError>
    requires { AreOf (symbols IffFirst) (pieces_of pieces.old.items) }
    ensures { IfOk result (λ _. pieces_of pieces.new.items ≡ a_term (maybe_infix operator (the_term (at 0 (pieces_of pieces.old.items))) (term_if_any (at 1 (pieces_of pieces.old.items)))) ∷ drop 2 (pieces_of pieces.old.items)) }
{
    let left = pop_term(pieces);
    let term = match pop_maybe_term(pieces) {
        Some(right) => infix_term(alloc, operator, left, right)?,
        None => left,
    };
    push(pieces, Piece::Term(term))
}

pub(crate) fn iff_first(alloc: Global, pieces: &mut Vec<Piece<'_>>) -> Result<(), AllocError>
    requires { AreOf (symbols IffFirst) (pieces_of pieces.old.items) }
    ensures { IfOk result (λ _. pieces_of pieces.new.items ≡ reduced IffFirst (pieces_of pieces.old.items)) }
{
    maybe_infix(alloc, Operator::Iff, pieces)
}

pub(crate) fn implies_first(alloc: Global, pieces: &mut Vec<Piece<'_>>) -> Result<(), AllocError>
    requires { AreOf (symbols ImpliesFirst) (pieces_of pieces.old.items) }
    ensures { IfOk result (λ _. pieces_of pieces.new.items ≡ reduced ImpliesFirst (pieces_of pieces.old.items)) }
{
    maybe_infix(alloc, Operator::Implies, pieces)
}

pub(crate) fn or_first(alloc: Global, pieces: &mut Vec<Piece<'_>>) -> Result<(), AllocError>
    requires { AreOf (symbols OrFirst) (pieces_of pieces.old.items) }
    ensures { IfOk result (λ _. pieces_of pieces.new.items ≡ reduced OrFirst (pieces_of pieces.old.items)) }
{
    maybe_infix(alloc, Operator::Or, pieces)
}

pub(crate) fn and_first(alloc: Global, pieces: &mut Vec<Piece<'_>>) -> Result<(), AllocError>
    requires { AreOf (symbols AndFirst) (pieces_of pieces.old.items) }
    ensures { IfOk result (λ _. pieces_of pieces.new.items ≡ reduced AndFirst (pieces_of pieces.old.items)) }
{
    maybe_infix(alloc, Operator::And, pieces)
}

pub(crate) fn equals_first(alloc: Global, pieces: &mut Vec<Piece<'_>>) -> Result<(), AllocError>
    requires { AreOf (symbols EqualsFirst) (pieces_of pieces.old.items) }
    ensures { IfOk result (λ _. pieces_of pieces.new.items ≡ reduced EqualsFirst (pieces_of pieces.old.items)) }
{
    maybe_infix(alloc, Operator::Equals, pieces)
}

pub(crate) fn no_iff(pieces: &mut Vec<Piece<'_>>) -> Result<(), AllocError>
    requires { AreOf (symbols NoIff) (pieces_of pieces.old.items) }
    ensures { IfOk result (λ _. pieces_of pieces.new.items ≡ reduced NoIff (pieces_of pieces.old.items)) }
{
    push(pieces, Piece::MaybeTerm(None))
}

pub(crate) fn more_iff(pieces: &mut Vec<Piece<'_>>) -> Result<(), AllocError>
    requires { AreOf (symbols MoreIff) (pieces_of pieces.old.items) }
    ensures { IfOk result (λ _. pieces_of pieces.new.items ≡ reduced MoreIff (pieces_of pieces.old.items)) }
{
    let _infix = pop_word(pieces);
    let term = pop_term(pieces);
    push(pieces, Piece::MaybeTerm(Some(term)))
}

pub(crate) fn plain(pieces: &mut Vec<Piece<'_>>) -> Result<(), AllocError>
    requires { AreOf (symbols Plain) (pieces_of pieces.old.items) }
    ensures { IfOk result (λ _. pieces_of pieces.new.items ≡ reduced Plain (pieces_of pieces.old.items)) }
{
    let term = pop_term(pieces);
    push(pieces, Piece::Term(term))
}

pub(crate) fn negation(alloc: Global, pieces: &mut Vec<Piece<'_>>) -> Result<(), AllocError>
    requires { AreOf (symbols Negation) (pieces_of pieces.old.items) }
    ensures { IfOk result (λ _. pieces_of pieces.new.items ≡ reduced Negation (pieces_of pieces.old.items)) }
{
    let _not = pop_word(pieces);
    let term = pop_term(pieces);
    let not = negated(alloc, term)?;
    push(pieces, Piece::Term(not))
}

pub(crate) fn binding(alloc: Global, pieces: &mut Vec<Piece<'_>>) -> Result<(), AllocError>
    requires { AreOf (symbols Binding) (pieces_of pieces.old.items) }
    ensures { IfOk result (λ _. pieces_of pieces.new.items ≡ reduced Binding (pieces_of pieces.old.items)) }
{
    let binder = pop_word(pieces);
    let (variables, body) = pop_bound(pieces);
    let term = bind_all(alloc, binder.kind, variables, body)?;
    push(pieces, Piece::Term(term))
}

pub(crate) fn typed_term(alloc: Global, pieces: &mut Vec<Piece<'_>>) -> Result<(), AllocError>
    requires { AreOf (symbols TypedTerm) (pieces_of pieces.old.items) }
    ensures { IfOk result (λ _. pieces_of pieces.new.items ≡ reduced TypedTerm (pieces_of pieces.old.items)) }
{
    let function = pop_term(pieces);
    let arguments = pop_terms(pieces);
    let term = applied(alloc, function, arguments)?;
    let typed = match pop_maybe_type(pieces) {
        Some(ty) => PreTerm::new(alloc, PreTermNode::Typed(term, ty))?,
        None => term,
    };
    push(pieces, Piece::Term(typed))
}

pub(crate) fn no_argument(alloc: Global, pieces: &mut Vec<Piece<'_>>) -> Result<(), AllocError>
    requires { AreOf (symbols NoArgument) (pieces_of pieces.old.items) }
    ensures { IfOk result (λ _. pieces_of pieces.new.items ≡ reduced NoArgument (pieces_of pieces.old.items)) }
{
    push(pieces, Piece::Terms(Vec::new(alloc)))
}

pub(crate) fn more_arguments(pieces: &mut Vec<Piece<'_>>) -> Result<(), AllocError>
    requires { AreOf (symbols MoreArguments) (pieces_of pieces.old.items) }
    ensures { IfOk result (λ _. pieces_of pieces.new.items ≡ reduced MoreArguments (pieces_of pieces.old.items)) }
{
    let term = pop_term(pieces);
    let mut terms = pop_terms(pieces);
    terms.push(term)?;
    push(pieces, Piece::Terms(terms))
}

pub(crate) fn named(alloc: Global, pieces: &mut Vec<Piece<'_>>) -> Result<(), AllocError>
    requires { AreOf (symbols Named) (pieces_of pieces.old.items) }
    ensures { IfOk result (λ _. pieces_of pieces.new.items ≡ reduced Named (pieces_of pieces.old.items)) }
{
    let name = pop_word(pieces);
    let node = PreTermNode::Ident(String::from_str(alloc, name.text)?);
    push(pieces, Piece::Term(PreTerm::new(alloc, node)?))
}

pub(crate) fn parenthesised(pieces: &mut Vec<Piece<'_>>) -> Result<(), AllocError>
    requires { AreOf (symbols Parenthesised) (pieces_of pieces.old.items) }
    ensures { IfOk result (λ _. pieces_of pieces.new.items ≡ reduced Parenthesised (pieces_of pieces.old.items)) }
{
    let _open = pop_word(pieces);
    let term = pop_term(pieces);
    push(pieces, Piece::Term(term))
}

pub(crate) fn named_bound(alloc: Global, pieces: &mut Vec<Piece<'_>>) -> Result<(), AllocError>
    requires { AreOf (symbols NamedBound) (pieces_of pieces.old.items) }
    ensures { IfOk result (λ _. pieces_of pieces.new.items ≡ reduced NamedBound (pieces_of pieces.old.items)) }
{
    let name = pop_word(pieces);
    let (annotation, mut variables, body) = pop_after_name(pieces);
    variables.push(variable(alloc, name.text, annotation)?)?;
    push(pieces, Piece::Bound(variables, body))
}

pub(crate) fn typed_bound(alloc: Global, pieces: &mut Vec<Piece<'_>>) -> Result<(), AllocError>
    requires { AreOf (symbols TypedBound) (pieces_of pieces.old.items) }
    ensures { IfOk result (λ _. pieces_of pieces.new.items ≡ reduced TypedBound (pieces_of pieces.old.items)) }
{
    let _open = pop_word(pieces);
    let name = pop_word(pieces);
    let _colon = pop_word(pieces);
    let ty = pop_type(pieces);
    let _close = pop_word(pieces);
    let (mut variables, body) = pop_bound(pieces);
    variables.push(variable(alloc, name.text, Some(ty))?)?;
    push(pieces, Piece::Bound(variables, body))
}

pub(crate) fn name_alone(pieces: &mut Vec<Piece<'_>>) -> Result<(), AllocError>
    requires { AreOf (symbols NameAlone) (pieces_of pieces.old.items) }
    ensures { IfOk result (λ _. pieces_of pieces.new.items ≡ reduced NameAlone (pieces_of pieces.old.items)) }
{
    let (variables, body) = pop_bound(pieces);
    push(pieces, Piece::AfterName(None, variables, body))
}

pub(crate) fn last_typed(alloc: Global, pieces: &mut Vec<Piece<'_>>) -> Result<(), AllocError>
    requires { AreOf (symbols LastTyped) (pieces_of pieces.old.items) }
    ensures { IfOk result (λ _. pieces_of pieces.new.items ≡ reduced LastTyped (pieces_of pieces.old.items)) }
{
    let _colon = pop_word(pieces);
    let ty = pop_type(pieces);
    let _dot = pop_word(pieces);
    let body = pop_term(pieces);
    push(pieces, Piece::AfterName(Some(ty), Vec::new(alloc), body))
}

pub(crate) fn bound_body(alloc: Global, pieces: &mut Vec<Piece<'_>>) -> Result<(), AllocError>
    requires { AreOf (symbols BoundBody) (pieces_of pieces.old.items) }
    ensures { IfOk result (λ _. pieces_of pieces.new.items ≡ reduced BoundBody (pieces_of pieces.old.items)) }
{
    let _dot = pop_word(pieces);
    let body = pop_term(pieces);
    push(pieces, Piece::Bound(Vec::new(alloc), body))
}

pub(crate) fn bound_more(pieces: &mut Vec<Piece<'_>>) -> Result<(), AllocError>
    requires { AreOf (symbols BoundMore) (pieces_of pieces.old.items) }
    ensures { IfOk result (λ _. pieces_of pieces.new.items ≡ reduced BoundMore (pieces_of pieces.old.items)) }
{
    let (variables, body) = pop_bound(pieces);
    push(pieces, Piece::Bound(variables, body))
}
