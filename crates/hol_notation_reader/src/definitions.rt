//! What the productions of quotations and definitions build.
ghost use Rattle.std.specs.Prelude.{◌≡◌, ◌∷◌, [], reverse, IfOk};
ghost use Rattle.hol_notation_grammar.specs.declared.grammar.Production.TheVariants.{QuotedTerm, QuotedType, Defined, NoParameter, NamedParameter, TypedParameter, PlainSide, TypedSide, EqualsSide, IffSide};
ghost use Rattle.hol_notation_grammar.specs.Table.{symbols};
ghost use Rattle.hol_notation_reader.specs.Piece.{AreOf};
ghost use Rattle.hol_notation_reader.specs.Build.{reduced};
ghost use Rattle.hol_notation_reader.specs.View.{pieces_of};

use crate::piece::{Piece, pop_parameters, pop_right_side, pop_term, pop_type, pop_word, push};
use crate::terms::variable;
use hol_notation_terms::{Definition, Quotation, RightSide, TypeQuotation};
use std::alloc::{AllocError, Global};

pub(crate) fn quoted_term(pieces: &mut Vec<Piece<'_>>) -> Result<(), AllocError>
    requires { AreOf (symbols QuotedTerm) (pieces_of pieces.old.items) }
    ensures { IfOk result (λ _. pieces_of pieces.new.items ≡ reduced QuotedTerm (pieces_of pieces.old.items)) }
{
    let open = pop_word(pieces);
    let term = pop_term(pieces);
    let _close = pop_word(pieces);
    let place = open.place;
    push(pieces, Piece::Quotation(Quotation { place, term }))
}

pub(crate) fn quoted_type(pieces: &mut Vec<Piece<'_>>) -> Result<(), AllocError>
    requires { AreOf (symbols QuotedType) (pieces_of pieces.old.items) }
    ensures { IfOk result (λ _. pieces_of pieces.new.items ≡ reduced QuotedType (pieces_of pieces.old.items)) }
{
    let open = pop_word(pieces);
    let _colon = pop_word(pieces);
    let ty = pop_type(pieces);
    let _close = pop_word(pieces);
    let place = open.place;
    push(pieces, Piece::TypeQuotation(TypeQuotation { place, ty }))
}

pub(crate) fn defined(alloc: Global, pieces: &mut Vec<Piece<'_>>) -> Result<(), AllocError>
    requires { AreOf (symbols Defined) (pieces_of pieces.old.items) }
    ensures { IfOk result (λ _. pieces_of pieces.new.items ≡ reduced Defined (pieces_of pieces.old.items)) }
{
    let open = pop_word(pieces);
    let constant = pop_word(pieces);
    let (mut parameters, right) = pop_parameters(pieces);
    parameters.reverse();
    let definition = Definition {
        place: open.place,
        name: String::from_str(alloc, constant.text)?,
        parameters,
        right,
    };
    push(pieces, Piece::Definition(definition))
}

pub(crate) fn no_parameter(alloc: Global, pieces: &mut Vec<Piece<'_>>) -> Result<(), AllocError>
    requires { AreOf (symbols NoParameter) (pieces_of pieces.old.items) }
    ensures { IfOk result (λ _. pieces_of pieces.new.items ≡ reduced NoParameter (pieces_of pieces.old.items)) }
{
    let right = pop_right_side(pieces);
    push(pieces, Piece::Parameters(Vec::new(alloc), right))
}

pub(crate) fn named_parameter(alloc: Global, pieces: &mut Vec<Piece<'_>>) -> Result<(), AllocError>
    requires { AreOf (symbols NamedParameter) (pieces_of pieces.old.items) }
    ensures { IfOk result (λ _. pieces_of pieces.new.items ≡ reduced NamedParameter (pieces_of pieces.old.items)) }
{
    let name = pop_word(pieces);
    let (mut parameters, right) = pop_parameters(pieces);
    parameters.push(variable(alloc, name.text, None)?)?;
    push(pieces, Piece::Parameters(parameters, right))
}

pub(crate) fn typed_parameter(alloc: Global, pieces: &mut Vec<Piece<'_>>) -> Result<(), AllocError>
    requires { AreOf (symbols TypedParameter) (pieces_of pieces.old.items) }
    ensures { IfOk result (λ _. pieces_of pieces.new.items ≡ reduced TypedParameter (pieces_of pieces.old.items)) }
{
    let _open = pop_word(pieces);
    let name = pop_word(pieces);
    let _colon = pop_word(pieces);
    let ty = pop_type(pieces);
    let _close = pop_word(pieces);
    let (mut parameters, right) = pop_parameters(pieces);
    parameters.push(variable(alloc, name.text, Some(ty))?)?;
    push(pieces, Piece::Parameters(parameters, right))
}

pub(crate) fn plain_side(pieces: &mut Vec<Piece<'_>>) -> Result<(), AllocError>
    requires { AreOf (symbols PlainSide) (pieces_of pieces.old.items) }
    ensures { IfOk result (λ _. pieces_of pieces.new.items ≡ reduced PlainSide (pieces_of pieces.old.items)) }
{
    let right = pop_right_side(pieces);
    push(pieces, Piece::RightSide(right))
}

pub(crate) fn typed_side(pieces: &mut Vec<Piece<'_>>) -> Result<(), AllocError>
    requires { AreOf (symbols TypedSide) (pieces_of pieces.old.items) }
    ensures { IfOk result (λ _. pieces_of pieces.new.items ≡ reduced TypedSide (pieces_of pieces.old.items)) }
{
    let _colon = pop_word(pieces);
    let ty = pop_type(pieces);
    let RightSide {
        annotation: _,
        is_iff,
        term,
    } = pop_right_side(pieces);
    let annotation = Some(ty);
    push(
        pieces,
        Piece::RightSide(RightSide {
            annotation,
            is_iff,
            term,
        }),
    )
}

pub(crate) fn equals_side(pieces: &mut Vec<Piece<'_>>) -> Result<(), AllocError>
    requires { AreOf (symbols EqualsSide) (pieces_of pieces.old.items) }
    ensures { IfOk result (λ _. pieces_of pieces.new.items ≡ reduced EqualsSide (pieces_of pieces.old.items)) }
{
    let _sign = pop_word(pieces);
    let term = pop_term(pieces);
    let _close = pop_word(pieces);
    let annotation = None;
    let is_iff = false;
    push(
        pieces,
        Piece::RightSide(RightSide {
            annotation,
            is_iff,
            term,
        }),
    )
}

pub(crate) fn iff_side(pieces: &mut Vec<Piece<'_>>) -> Result<(), AllocError>
    requires { AreOf (symbols IffSide) (pieces_of pieces.old.items) }
    ensures { IfOk result (λ _. pieces_of pieces.new.items ≡ reduced IffSide (pieces_of pieces.old.items)) }
{
    let _sign = pop_word(pieces);
    let term = pop_term(pieces);
    let _close = pop_word(pieces);
    let annotation = None;
    let is_iff = true;
    push(
        pieces,
        Piece::RightSide(RightSide {
            annotation,
            is_iff,
            term,
        }),
    )
}
