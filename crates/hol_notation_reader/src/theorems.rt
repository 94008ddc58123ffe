//! What the productions of theorem expressions build.
ghost use Rattle.std.specs.Prelude.{◌≡◌, ◌∷◌, [], reverse, IfOk};
ghost use Rattle.hol_notation_grammar.specs.declared.grammar.Production.TheVariants.{Simple, Assumption, Reflexivity, Specialisation, Symmetry, FirstConjunct, SecondConjunct, ModusPonens, Instantiation, Cited, BracketedTheorem, TwoTypes, LastPair, NextPair, NoTheorems, SomeTheorems, NextTheorem};
ghost use Rattle.hol_notation_grammar.specs.Table.{symbols};
ghost use Rattle.hol_notation_reader.specs.Piece.{AreOf};
ghost use Rattle.hol_notation_reader.specs.Build.{reduced};
ghost use Rattle.hol_notation_tactics.specs.Text as tactic;
ghost use Rattle.hol_notation_reader.specs.View.{pieces_of};

use crate::piece::{
    Piece, pop_pair, pop_pairs, pop_quotation, pop_theorem, pop_theorems, pop_type_quotation,
    pop_word, push,
};
use hol_notation_tactics::{ThmExpr, ThmExprNode, TypePair};
use std::alloc::{AllocError, Global};

/// A theorem that is cited.
pub(crate) fn citation(alloc: Global, name: &str) -> Result<ThmExpr, AllocError>
    ensures { IfOk result (λ theorem. theorem ≡ tactic.Cited name.now) }
{
    ThmExpr::new(alloc, ThmExprNode::Name(String::from_str(alloc, name)?))
}

pub(crate) fn simple(pieces: &mut Vec<Piece<'_>>) -> Result<(), AllocError>
    requires { AreOf (symbols Simple) (pieces_of pieces.old.items) }
    ensures { IfOk result (λ _. pieces_of pieces.new.items ≡ reduced Simple (pieces_of pieces.old.items)) }
{
    let theorem = pop_theorem(pieces);
    push(pieces, Piece::Theorem(theorem))
}

pub(crate) fn assumption(alloc: Global, pieces: &mut Vec<Piece<'_>>) -> Result<(), AllocError>
    requires { AreOf (symbols Assumption) (pieces_of pieces.old.items) }
    ensures { IfOk result (λ _. pieces_of pieces.new.items ≡ reduced Assumption (pieces_of pieces.old.items)) }
{
    let _rule = pop_word(pieces);
    let term = pop_quotation(pieces);
    let theorem = ThmExpr::new(alloc, ThmExprNode::Assume(term))?;
    push(pieces, Piece::Theorem(theorem))
}

pub(crate) fn reflexivity(alloc: Global, pieces: &mut Vec<Piece<'_>>) -> Result<(), AllocError>
    requires { AreOf (symbols Reflexivity) (pieces_of pieces.old.items) }
    ensures { IfOk result (λ _. pieces_of pieces.new.items ≡ reduced Reflexivity (pieces_of pieces.old.items)) }
{
    let _rule = pop_word(pieces);
    let term = pop_quotation(pieces);
    let theorem = ThmExpr::new(alloc, ThmExprNode::Refl(term))?;
    push(pieces, Piece::Theorem(theorem))
}

pub(crate) fn specialisation(alloc: Global, pieces: &mut Vec<Piece<'_>>) -> Result<(), AllocError>
    requires { AreOf (symbols Specialisation) (pieces_of pieces.old.items) }
    ensures { IfOk result (λ _. pieces_of pieces.new.items ≡ reduced Specialisation (pieces_of pieces.old.items)) }
{
    let _rule = pop_word(pieces);
    let term = pop_quotation(pieces);
    let part = pop_theorem(pieces);
    let theorem = ThmExpr::new(alloc, ThmExprNode::Spec(term, part))?;
    push(pieces, Piece::Theorem(theorem))
}

pub(crate) fn symmetry(alloc: Global, pieces: &mut Vec<Piece<'_>>) -> Result<(), AllocError>
    requires { AreOf (symbols Symmetry) (pieces_of pieces.old.items) }
    ensures { IfOk result (λ _. pieces_of pieces.new.items ≡ reduced Symmetry (pieces_of pieces.old.items)) }
{
    let _rule = pop_word(pieces);
    let part = pop_theorem(pieces);
    let theorem = ThmExpr::new(alloc, ThmExprNode::Sym(part))?;
    push(pieces, Piece::Theorem(theorem))
}

pub(crate) fn first_conjunct(alloc: Global, pieces: &mut Vec<Piece<'_>>) -> Result<(), AllocError>
    requires { AreOf (symbols FirstConjunct) (pieces_of pieces.old.items) }
    ensures { IfOk result (λ _. pieces_of pieces.new.items ≡ reduced FirstConjunct (pieces_of pieces.old.items)) }
{
    let _rule = pop_word(pieces);
    let part = pop_theorem(pieces);
    let theorem = ThmExpr::new(alloc, ThmExprNode::Conjunct1(part))?;
    push(pieces, Piece::Theorem(theorem))
}

pub(crate) fn second_conjunct(alloc: Global, pieces: &mut Vec<Piece<'_>>) -> Result<(), AllocError>
    requires { AreOf (symbols SecondConjunct) (pieces_of pieces.old.items) }
    ensures { IfOk result (λ _. pieces_of pieces.new.items ≡ reduced SecondConjunct (pieces_of pieces.old.items)) }
{
    let _rule = pop_word(pieces);
    let part = pop_theorem(pieces);
    let theorem = ThmExpr::new(alloc, ThmExprNode::Conjunct2(part))?;
    push(pieces, Piece::Theorem(theorem))
}

pub(crate) fn modus_ponens(alloc: Global, pieces: &mut Vec<Piece<'_>>) -> Result<(), AllocError>
    requires { AreOf (symbols ModusPonens) (pieces_of pieces.old.items) }
    ensures { IfOk result (λ _. pieces_of pieces.new.items ≡ reduced ModusPonens (pieces_of pieces.old.items)) }
{
    let _rule = pop_word(pieces);
    let implication = pop_theorem(pieces);
    let premise = pop_theorem(pieces);
    let theorem = ThmExpr::new(alloc, ThmExprNode::Mp(implication, premise))?;
    push(pieces, Piece::Theorem(theorem))
}

pub(crate) fn instantiation(alloc: Global, pieces: &mut Vec<Piece<'_>>) -> Result<(), AllocError>
    requires { AreOf (symbols Instantiation) (pieces_of pieces.old.items) }
    ensures { IfOk result (λ _. pieces_of pieces.new.items ≡ reduced Instantiation (pieces_of pieces.old.items)) }
{
    let _rule = pop_word(pieces);
    let _open = pop_word(pieces);
    let pair = pop_pair(pieces);
    let mut pairs = pop_pairs(pieces);
    let part = pop_theorem(pieces);
    pairs.push(pair)?;
    pairs.reverse();
    let theorem = ThmExpr::new(alloc, ThmExprNode::InstType(pairs, part))?;
    push(pieces, Piece::Theorem(theorem))
}

pub(crate) fn cited(alloc: Global, pieces: &mut Vec<Piece<'_>>) -> Result<(), AllocError>
    requires { AreOf (symbols Cited) (pieces_of pieces.old.items) }
    ensures { IfOk result (λ _. pieces_of pieces.new.items ≡ reduced Cited (pieces_of pieces.old.items)) }
{
    let name = pop_word(pieces);
    let theorem = citation(alloc, name.text)?;
    push(pieces, Piece::Theorem(theorem))
}

pub(crate) fn bracketed_theorem(pieces: &mut Vec<Piece<'_>>) -> Result<(), AllocError>
    requires { AreOf (symbols BracketedTheorem) (pieces_of pieces.old.items) }
    ensures { IfOk result (λ _. pieces_of pieces.new.items ≡ reduced BracketedTheorem (pieces_of pieces.old.items)) }
{
    let _open = pop_word(pieces);
    let theorem = pop_theorem(pieces);
    let _close = pop_word(pieces);
    push(pieces, Piece::Theorem(theorem))
}

pub(crate) fn two_types(pieces: &mut Vec<Piece<'_>>) -> Result<(), AllocError>
    requires { AreOf (symbols TwoTypes) (pieces_of pieces.old.items) }
    ensures { IfOk result (λ _. pieces_of pieces.new.items ≡ reduced TwoTypes (pieces_of pieces.old.items)) }
{
    let new_type = pop_type_quotation(pieces);
    let _comma = pop_word(pieces);
    let old_type = pop_type_quotation(pieces);
    push(pieces, Piece::Pair(TypePair { new_type, old_type }))
}

pub(crate) fn last_pair(alloc: Global, pieces: &mut Vec<Piece<'_>>) -> Result<(), AllocError>
    requires { AreOf (symbols LastPair) (pieces_of pieces.old.items) }
    ensures { IfOk result (λ _. pieces_of pieces.new.items ≡ reduced LastPair (pieces_of pieces.old.items)) }
{
    let _close = pop_word(pieces);
    push(pieces, Piece::Pairs(Vec::new(alloc)))
}

pub(crate) fn next_pair(pieces: &mut Vec<Piece<'_>>) -> Result<(), AllocError>
    requires { AreOf (symbols NextPair) (pieces_of pieces.old.items) }
    ensures { IfOk result (λ _. pieces_of pieces.new.items ≡ reduced NextPair (pieces_of pieces.old.items)) }
{
    let _semicolon = pop_word(pieces);
    let pair = pop_pair(pieces);
    let mut pairs = pop_pairs(pieces);
    pairs.push(pair)?;
    push(pieces, Piece::Pairs(pairs))
}

pub(crate) fn no_theorems(alloc: Global, pieces: &mut Vec<Piece<'_>>) -> Result<(), AllocError>
    requires { AreOf (symbols NoTheorems) (pieces_of pieces.old.items) }
    ensures { IfOk result (λ _. pieces_of pieces.new.items ≡ reduced NoTheorems (pieces_of pieces.old.items)) }
{
    let _close = pop_word(pieces);
    push(pieces, Piece::Theorems(Vec::new(alloc)))
}

pub(crate) fn some_theorems(pieces: &mut Vec<Piece<'_>>) -> Result<(), AllocError>
    requires { AreOf (symbols SomeTheorems) (pieces_of pieces.old.items) }
    ensures { IfOk result (λ _. pieces_of pieces.new.items ≡ reduced SomeTheorems (pieces_of pieces.old.items)) }
{
    let theorem = pop_theorem(pieces);
    let mut theorems = pop_theorems(pieces);
    theorems.push(theorem)?;
    push(pieces, Piece::Theorems(theorems))
}

pub(crate) fn next_theorem(pieces: &mut Vec<Piece<'_>>) -> Result<(), AllocError>
    requires { AreOf (symbols NextTheorem) (pieces_of pieces.old.items) }
    ensures { IfOk result (λ _. pieces_of pieces.new.items ≡ reduced NextTheorem (pieces_of pieces.old.items)) }
{
    let _semicolon = pop_word(pieces);
    let theorem = pop_theorem(pieces);
    let mut theorems = pop_theorems(pieces);
    theorems.push(theorem)?;
    push(pieces, Piece::Theorems(theorems))
}
