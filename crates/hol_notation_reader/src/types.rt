//! What the productions of types build.
ghost use Rattle.std.specs.Prelude.{◌≡◌, ◌∷◌, [], reverse, IfOk};
ghost use Rattle.hol_notation_grammar.specs.declared.grammar.Production.TheVariants.{AppliedFirst, NoArrow, ToType, NamedType, ListedType, OneType, SecondType, LastType, NoPostfix, PostfixName};
ghost use Rattle.hol_notation_grammar.specs.Table.{symbols};
ghost use Rattle.hol_notation_reader.specs.Piece.{AreOf};
ghost use Rattle.hol_notation_reader.specs.Build.{reduced, postfix, listed};
ghost use Rattle.hol_notation_grammar.specs.Step.{name_texts};
ghost use Rattle.hol_notation_reader.specs.View.{pieces_of};

use crate::piece::{
    Piece, pop_maybe_type, pop_type, pop_type_list, pop_type_names, pop_word, push,
};
use hol_notation_terms::{PreType, PreTypeNode};
use std::alloc::{AllocError, Global};

// The constructors applied to the type, the last of the list first.
fn postfix(alloc: Global, ty: PreType, names: Vec<&str>) -> Result<PreType, AllocError>
    ensures { IfOk result (λ built. built ≡ postfix ty (reverse (name_texts names.entry.items))) }
{
    let mut built = ty;
    let mut left = names;
    while let Some(name) = left.pop() {
        let mut arguments = Vec::new(alloc);
        arguments.push(built)?;
        let node = PreTypeNode::Apply(String::from_str(alloc, name)?, arguments);
        built = PreType::new(alloc, node)?;
    }
    Ok(built)
}

// A type in parentheses, or a list of types with what is applied to it.
fn listed(
    alloc: Global,
    first: PreType,
    others: Vec<PreType>,
    names: Vec<&str>,
) -> Result<PreType, AllocError>
    ensures { IfOk result (λ built. built ≡ listed first (reverse others.items) (reverse (name_texts names.entry.items))) }
{
    if others.is_empty() {
        return postfix(alloc, first, names);
    }
    let mut left = names;
    let Some(name) = left.pop() else {
        return Ok(first);
    };
    let mut arguments = others;
    arguments.push(first)?;
    arguments.reverse();
    let node = PreTypeNode::Apply(String::from_str(alloc, name)?, arguments);
    postfix(alloc, PreType::new(alloc, node)?, left)
}

pub(crate) fn applied_first(alloc: Global, pieces: &mut Vec<Piece<'_>>) -> Result<(), AllocError>
    requires { AreOf (symbols AppliedFirst) (pieces_of pieces.old.items) }
    ensures { IfOk result (λ _. pieces_of pieces.new.items ≡ reduced AppliedFirst (pieces_of pieces.old.items)) }
{
    let from = pop_type(pieces);
    let ty = match pop_maybe_type(pieces) {
        Some(to) => PreType::new(alloc, PreTypeNode::Arrow(from, to))?,
        None => from,
    };
    push(pieces, Piece::Type(ty))
}

pub(crate) fn no_arrow(pieces: &mut Vec<Piece<'_>>) -> Result<(), AllocError>
    requires { AreOf (symbols NoArrow) (pieces_of pieces.old.items) }
    ensures { IfOk result (λ _. pieces_of pieces.new.items ≡ reduced NoArrow (pieces_of pieces.old.items)) }
{
    push(pieces, Piece::MaybeType(None))
}

pub(crate) fn to_type(pieces: &mut Vec<Piece<'_>>) -> Result<(), AllocError>
    requires { AreOf (symbols ToType) (pieces_of pieces.old.items) }
    ensures { IfOk result (λ _. pieces_of pieces.new.items ≡ reduced ToType (pieces_of pieces.old.items)) }
{
    let _arrow = pop_word(pieces);
    let ty = pop_type(pieces);
    push(pieces, Piece::MaybeType(Some(ty)))
}

pub(crate) fn named_type(alloc: Global, pieces: &mut Vec<Piece<'_>>) -> Result<(), AllocError>
    requires { AreOf (symbols NamedType) (pieces_of pieces.old.items) }
    ensures { IfOk result (λ _. pieces_of pieces.new.items ≡ reduced NamedType (pieces_of pieces.old.items)) }
{
    let name = pop_word(pieces);
    let names = pop_type_names(pieces);
    let node = PreTypeNode::Ident(String::from_str(alloc, name.text)?);
    let ty = postfix(alloc, PreType::new(alloc, node)?, names)?;
    push(pieces, Piece::Type(ty))
}

pub(crate) fn listed_type(alloc: Global, pieces: &mut Vec<Piece<'_>>) -> Result<(), AllocError>
    requires { AreOf (symbols ListedType) (pieces_of pieces.old.items) }
    ensures { IfOk result (λ _. pieces_of pieces.new.items ≡ reduced ListedType (pieces_of pieces.old.items)) }
{
    let _open = pop_word(pieces);
    let first = pop_type(pieces);
    let (types, names) = pop_type_list(pieces);
    let ty = listed(alloc, first, types, names)?;
    push(pieces, Piece::Type(ty))
}

pub(crate) fn one_type(alloc: Global, pieces: &mut Vec<Piece<'_>>) -> Result<(), AllocError>
    requires { AreOf (symbols OneType) (pieces_of pieces.old.items) }
    ensures { IfOk result (λ _. pieces_of pieces.new.items ≡ reduced OneType (pieces_of pieces.old.items)) }
{
    let _close = pop_word(pieces);
    let names = pop_type_names(pieces);
    push(pieces, Piece::TypeList(Vec::new(alloc), names))
}

pub(crate) fn second_type(pieces: &mut Vec<Piece<'_>>) -> Result<(), AllocError>
    requires { AreOf (symbols SecondType) (pieces_of pieces.old.items) }
    ensures { IfOk result (λ _. pieces_of pieces.new.items ≡ reduced SecondType (pieces_of pieces.old.items)) }
{
    let _comma = pop_word(pieces);
    let ty = pop_type(pieces);
    let (mut types, names) = pop_type_list(pieces);
    types.push(ty)?;
    push(pieces, Piece::TypeList(types, names))
}

pub(crate) fn last_type(alloc: Global, pieces: &mut Vec<Piece<'_>>) -> Result<(), AllocError>
    requires { AreOf (symbols LastType) (pieces_of pieces.old.items) }
    ensures { IfOk result (λ _. pieces_of pieces.new.items ≡ reduced LastType (pieces_of pieces.old.items)) }
{
    let _close = pop_word(pieces);
    let name = pop_word(pieces);
    let mut names = pop_type_names(pieces);
    names.push(name.text)?;
    push(pieces, Piece::TypeList(Vec::new(alloc), names))
}

pub(crate) fn no_postfix(alloc: Global, pieces: &mut Vec<Piece<'_>>) -> Result<(), AllocError>
    requires { AreOf (symbols NoPostfix) (pieces_of pieces.old.items) }
    ensures { IfOk result (λ _. pieces_of pieces.new.items ≡ reduced NoPostfix (pieces_of pieces.old.items)) }
{
    push(pieces, Piece::TypeNames(Vec::new(alloc)))
}

pub(crate) fn postfix_name(pieces: &mut Vec<Piece<'_>>) -> Result<(), AllocError>
    requires { AreOf (symbols PostfixName) (pieces_of pieces.old.items) }
    ensures { IfOk result (λ _. pieces_of pieces.new.items ≡ reduced PostfixName (pieces_of pieces.old.items)) }
{
    let name = pop_word(pieces);
    let mut names = pop_type_names(pieces);
    names.push(name.text)?;
    push(pieces, Piece::TypeNames(names))
}
