//! What the productions of what stands in parentheses build.
ghost use Rattle.std.specs.Prelude.{◌≡◌, ◌∷◌, [], reverse, IfOk};
ghost use Rattle.hol_notation_grammar.specs.declared.grammar.Production.TheVariants.{PlainInside, InfixAlone, NotInside, BinderInside, LambdaInside, NotAlone, NotApplied, BinderAlone, BinderApplied};
ghost use Rattle.hol_notation_grammar.specs.Table.{symbols};
ghost use Rattle.hol_notation_reader.specs.Piece.{AreOf};
ghost use Rattle.hol_notation_reader.specs.Build.{reduced, with_sides, side, five_sides};
ghost use Rattle.std.specs.Prelude.{◌++◌};
ghost use Rattle.hol_notation_terms.specs.declared.operator.Operator.TheVariants as sign;
ghost use Rattle.hol_notation_reader.specs.Piece.{AreFive, term_if_any, at};
ghost use Rattle.hol_notation_reader.specs.View.{side_texts};
ghost use Rattle.hol_notation_reader.specs.Build.{sides_from};
ghost use Rattle.std.specs.Prelude.{drop};
ghost use Rattle.hol_notation_reader.specs.View.{pieces_of};

use crate::piece::{
    Piece, Side, pop_after_binder, pop_after_not, pop_bound, pop_maybe_term, pop_term, pop_word,
    push,
};
use crate::terms::{bind_all, constant, infix_term, negated, operator_of};
use hol_notation_terms::{Operator, PreTerm};
use std::alloc::{AllocError, Global};

// Infixes behind a term, the last of the list first.
fn with_sides(alloc: Global, term: PreTerm, sides: Vec<Side>) -> Result<PreTerm, AllocError>
    ensures { IfOk result (λ whole. whole ≡ with_sides term (reverse (side_texts sides.items))) }
{
    let mut left = sides;
    let mut whole = term;
    while let Some(side) = left.pop() {
        let Side { operator, term } = side;
        whole = infix_term(alloc, operator, whole, term)?;
    }
    Ok(whole)
}

// Adds an infix, if there is one, before the others.
fn add_side(
    sides: &mut Vec<Side>,
    operator: Operator,
    term: Option<PreTerm>,
) -> Result<(), AllocError>
    ensures { IfOk result (λ _. reverse (side_texts sides.new.items) ≡ side operator term ++ reverse (side_texts sides.old.items)) }
{
    match term {
        Some(term) => Ok(sides.push(Side { operator, term })?),
        None => Ok(()),
    }
}

// Takes off the infixes of all levels.
fn pop_sides(alloc: Global, pieces: &mut Vec<Piece<'_>>) -> Result<Vec<Side>, AllocError>
    requires { AreFive (pieces_of pieces.old.items) }
    ensures { IfOk result (λ sides. (reverse (side_texts sides.items) ≡ sides_from 0 (pieces_of pieces.old.items)) × (pieces_of pieces.new.items ≡ drop 5 (pieces_of pieces.old.items))) }
{
    let equals = pop_maybe_term(pieces);
    let and = pop_maybe_term(pieces);
    let or = pop_maybe_term(pieces);
    let implies = pop_maybe_term(pieces);
    let iff = pop_maybe_term(pieces);
    let mut sides = Vec::new(alloc);
    add_side(&mut sides, Operator::Iff, iff)?;
    add_side(&mut sides, Operator::Implies, implies)?;
    add_side(&mut sides, Operator::Or, or)?;
    add_side(&mut sides, Operator::And, and)?;
    add_side(&mut sides, Operator::Equals, equals)?;
    Ok(sides)
}

pub(crate) fn plain_inside(alloc: Global, pieces: &mut Vec<Piece<'_>>) -> Result<(), AllocError>
    requires { AreOf (symbols PlainInside) (pieces_of pieces.old.items) }
    ensures { IfOk result (λ _. pieces_of pieces.new.items ≡ reduced PlainInside (pieces_of pieces.old.items)) }
{
    let term = pop_term(pieces);
    let sides = pop_sides(alloc, pieces)?;
    let _close = pop_word(pieces);
    let whole = with_sides(alloc, term, sides)?;
    push(pieces, Piece::Term(whole))
}

pub(crate) fn infix_alone(alloc: Global, pieces: &mut Vec<Piece<'_>>) -> Result<(), AllocError>
    requires { AreOf (symbols InfixAlone) (pieces_of pieces.old.items) }
    ensures { IfOk result (λ _. pieces_of pieces.new.items ≡ reduced InfixAlone (pieces_of pieces.old.items)) }
{
    let infix = pop_word(pieces);
    let _close = pop_word(pieces);
    let term = constant(alloc, operator_of(infix.kind))?;
    push(pieces, Piece::Term(term))
}

pub(crate) fn not_inside(alloc: Global, pieces: &mut Vec<Piece<'_>>) -> Result<(), AllocError>
    requires { AreOf (symbols NotInside) (pieces_of pieces.old.items) }
    ensures { IfOk result (λ _. pieces_of pieces.new.items ≡ reduced NotInside (pieces_of pieces.old.items)) }
{
    let _not = pop_word(pieces);
    let (argument, sides) = pop_after_not(pieces);
    let term = match argument {
        Some(term) => with_sides(alloc, negated(alloc, term)?, sides)?,
        None => constant(alloc, Operator::Not)?,
    };
    push(pieces, Piece::Term(term))
}

pub(crate) fn binder_inside(alloc: Global, pieces: &mut Vec<Piece<'_>>) -> Result<(), AllocError>
    requires { AreOf (symbols BinderInside) (pieces_of pieces.old.items) }
    ensures { IfOk result (λ _. pieces_of pieces.new.items ≡ reduced BinderInside (pieces_of pieces.old.items)) }
{
    let binder = pop_word(pieces);
    let (binding, sides) = pop_after_binder(pieces);
    let term = match binding {
        Some((variables, body)) => {
            with_sides(alloc, bind_all(alloc, binder.kind, variables, body)?, sides)?
        }
        None => constant(alloc, operator_of(binder.kind))?,
    };
    push(pieces, Piece::Term(term))
}

pub(crate) fn lambda_inside(alloc: Global, pieces: &mut Vec<Piece<'_>>) -> Result<(), AllocError>
    requires { AreOf (symbols LambdaInside) (pieces_of pieces.old.items) }
    ensures { IfOk result (λ _. pieces_of pieces.new.items ≡ reduced LambdaInside (pieces_of pieces.old.items)) }
{
    let binder = pop_word(pieces);
    let (variables, body) = pop_bound(pieces);
    let sides = pop_sides(alloc, pieces)?;
    let _close = pop_word(pieces);
    let abstraction = bind_all(alloc, binder.kind, variables, body)?;
    let term = with_sides(alloc, abstraction, sides)?;
    push(pieces, Piece::Term(term))
}

pub(crate) fn not_alone(alloc: Global, pieces: &mut Vec<Piece<'_>>) -> Result<(), AllocError>
    requires { AreOf (symbols NotAlone) (pieces_of pieces.old.items) }
    ensures { IfOk result (λ _. pieces_of pieces.new.items ≡ reduced NotAlone (pieces_of pieces.old.items)) }
{
    let _close = pop_word(pieces);
    push(pieces, Piece::AfterNot(None, Vec::new(alloc)))
}

pub(crate) fn not_applied(alloc: Global, pieces: &mut Vec<Piece<'_>>) -> Result<(), AllocError>
    requires { AreOf (symbols NotApplied) (pieces_of pieces.old.items) }
    ensures { IfOk result (λ _. pieces_of pieces.new.items ≡ reduced NotApplied (pieces_of pieces.old.items)) }
{
    let term = pop_term(pieces);
    let sides = pop_sides(alloc, pieces)?;
    let _close = pop_word(pieces);
    push(pieces, Piece::AfterNot(Some(term), sides))
}

pub(crate) fn binder_alone(alloc: Global, pieces: &mut Vec<Piece<'_>>) -> Result<(), AllocError>
    requires { AreOf (symbols BinderAlone) (pieces_of pieces.old.items) }
    ensures { IfOk result (λ _. pieces_of pieces.new.items ≡ reduced BinderAlone (pieces_of pieces.old.items)) }
{
    let _close = pop_word(pieces);
    push(pieces, Piece::AfterBinder(None, Vec::new(alloc)))
}

pub(crate) fn binder_applied(alloc: Global, pieces: &mut Vec<Piece<'_>>) -> Result<(), AllocError>
    requires { AreOf (symbols BinderApplied) (pieces_of pieces.old.items) }
    ensures { IfOk result (λ _. pieces_of pieces.new.items ≡ reduced BinderApplied (pieces_of pieces.old.items)) }
{
    let (variables, body) = pop_bound(pieces);
    let sides = pop_sides(alloc, pieces)?;
    let _close = pop_word(pieces);
    push(pieces, Piece::AfterBinder(Some((variables, body)), sides))
}
