//! What is built of what is written: of a token, and of each rule. Lists of parts stand in reverse.
ghost use Rattle.std.specs.Prelude.{◌≡◌, ◌∷◌, reverse, option_map, IfOk};
ghost use Rattle.hol_notation_tokens.specs.Lexeme.{seen};
ghost use Rattle.hol_notation_grammar.specs.Step.{name_texts};
ghost use Rattle.hol_notation_reader.specs.Piece.{IsFirst, of_word, of_type, of_maybe_type, of_type_names, of_type_list, of_term, of_maybe_term, of_terms, of_bound, of_after_name, of_after_not, of_after_binder, of_quotation, of_type_quotation, of_right_side, of_parameters, of_definition, of_theorem, of_theorems, of_pair, of_pairs, of_argument, of_arguments, of_call, of_tactic, of_maybe_tactic, of_tactics, of_steps, of_command, a_call, a_command, a_definition, a_pair, a_quotation, a_right_side, a_tactic, a_term, a_theorem, a_type, a_type_quotation, a_word, after_binder, after_name, after_not, an_argument, bound, maybe_tactic, maybe_term, maybe_type, some_arguments, some_pairs, some_parameters, some_steps, some_tactics, some_terms, some_theorems, type_list, type_names};
ghost use Rattle.hol_notation_reader.specs.View.{piece_of, pieces_of, side_texts, then_texts, binding_text};

use hol_notation_commands::Command;
use hol_notation_tactics::{TacArg, TacCall, TacExpr, ThmExpr, TypePair};
use hol_notation_terms::{
    Definition, Operator, PreTerm, PreType, PreVariable, Quotation, RightSide, TypeQuotation,
};
use hol_notation_tokens::Word;
use std::alloc::AllocError;

/// An infix and the term on its right, behind a term.
#[derive(Drop)]
pub struct Side {
    /// The infix.
    pub operator: Operator,
    /// The term.
    pub term: PreTerm,
}

/// THEN and a tactic expression, or THENL and some.
#[derive(Drop)]
pub enum ThenStep {
    /// `THEN t`
    One(TacExpr),
    /// `THENL [t; ..]`
    Each(Vec<TacExpr>),
}

/// What is built of a token or of a rule.
#[derive(Drop)]
pub enum Piece<'t> {
    /// A token.
    Word(Word<'t>),
    /// A type.
    Type(PreType),
    /// A type, if one is written.
    MaybeType(Option<PreType>),
    /// Constructors behind a type.
    TypeNames(Vec<&'t str>),
    /// Types behind the first of a list, and the constructors behind them.
    TypeList(Vec<PreType>, Vec<&'t str>),
    /// A term.
    Term(PreTerm),
    /// A term, if one is written.
    MaybeTerm(Option<PreTerm>),
    /// Terms.
    Terms(Vec<PreTerm>),
    /// What a binder binds, and its body.
    Bound(Vec<PreVariable>, PreTerm),
    /// The type that is written for a variable, what else is bound, and the body.
    AfterName(Option<PreType>, Vec<PreVariable>, PreTerm),
    /// What stands behind `(~`, if anything does, and infixes.
    AfterNot(Option<PreTerm>, Vec<Side>),
    /// What a binder behind a parenthesis binds, if anything, and infixes.
    AfterBinder(Option<(Vec<PreVariable>, PreTerm)>, Vec<Side>),
    /// A quotation of a term.
    Quotation(Quotation),
    /// A quotation of a type.
    TypeQuotation(TypeQuotation),
    /// The right side of a definition.
    RightSide(RightSide),
    /// Parameters of a definition, and its right side.
    Parameters(Vec<PreVariable>, RightSide),
    /// A definition.
    Definition(Definition),
    /// A theorem expression.
    Theorem(ThmExpr),
    /// Theorem expressions.
    Theorems(Vec<ThmExpr>),
    /// A type, and the type variable that it is put for.
    Pair(TypePair),
    /// Such pairs.
    Pairs(Vec<TypePair>),
    /// An argument of a TAC.
    Argument(TacArg),
    /// Arguments of a TAC.
    Arguments(Vec<TacArg>),
    /// A call of a TAC, in the place of a theorem tactic.
    Call(TacCall),
    /// A tactic expression.
    Tactic(TacExpr),
    /// A tactic expression, if one is written.
    MaybeTactic(Option<TacExpr>),
    /// Tactic expressions.
    Tactics(Vec<TacExpr>),
    /// What stands behind THEN and THENL.
    Steps(Vec<ThenStep>),
    /// A command.
    Command(Command),
}

pub(crate) fn pop_word<'t>(pieces: &mut Vec<Piece<'t>>) -> Word<'t>
    requires { IsFirst of_word (pieces_of pieces.old.items) }
    ensures { pieces_of pieces.old.items ≡ a_word (seen result) ∷ pieces_of pieces.new.items }
{
    match pieces.pop() {
        Some(Piece::Word(piece)) => piece,
        _ => unreachable!(),
    }
}

pub(crate) fn pop_type(pieces: &mut Vec<Piece<'_>>) -> PreType
    requires { IsFirst of_type (pieces_of pieces.old.items) }
    ensures { pieces_of pieces.old.items ≡ a_type result ∷ pieces_of pieces.new.items }
{
    match pieces.pop() {
        Some(Piece::Type(piece)) => piece,
        _ => unreachable!(),
    }
}

pub(crate) fn pop_maybe_type(pieces: &mut Vec<Piece<'_>>) -> Option<PreType>
    requires { IsFirst of_maybe_type (pieces_of pieces.old.items) }
    ensures { pieces_of pieces.old.items ≡ maybe_type result ∷ pieces_of pieces.new.items }
{
    match pieces.pop() {
        Some(Piece::MaybeType(piece)) => piece,
        _ => unreachable!(),
    }
}

pub(crate) fn pop_type_names<'t>(pieces: &mut Vec<Piece<'t>>) -> Vec<&'t str>
    requires { IsFirst of_type_names (pieces_of pieces.old.items) }
    ensures { pieces_of pieces.old.items ≡ type_names (reverse (name_texts result.items)) ∷ pieces_of pieces.new.items }
{
    match pieces.pop() {
        Some(Piece::TypeNames(piece)) => piece,
        _ => unreachable!(),
    }
}

pub(crate) fn pop_type_list<'t>(pieces: &mut Vec<Piece<'t>>) -> (Vec<PreType>, Vec<&'t str>)
    requires { IsFirst of_type_list (pieces_of pieces.old.items) }
    ensures { pieces_of pieces.old.items ≡ type_list (reverse result.0.items) (reverse (name_texts result.1.items)) ∷ pieces_of pieces.new.items }
{
    match pieces.pop() {
        Some(Piece::TypeList(first, second)) => (first, second),
        _ => unreachable!(),
    }
}

pub(crate) fn pop_term(pieces: &mut Vec<Piece<'_>>) -> PreTerm
    requires { IsFirst of_term (pieces_of pieces.old.items) }
    ensures { pieces_of pieces.old.items ≡ a_term result ∷ pieces_of pieces.new.items }
{
    match pieces.pop() {
        Some(Piece::Term(piece)) => piece,
        _ => unreachable!(),
    }
}

pub(crate) fn pop_maybe_term(pieces: &mut Vec<Piece<'_>>) -> Option<PreTerm>
    requires { IsFirst of_maybe_term (pieces_of pieces.old.items) }
    ensures { pieces_of pieces.old.items ≡ maybe_term result ∷ pieces_of pieces.new.items }
{
    match pieces.pop() {
        Some(Piece::MaybeTerm(piece)) => piece,
        _ => unreachable!(),
    }
}

pub(crate) fn pop_terms(pieces: &mut Vec<Piece<'_>>) -> Vec<PreTerm>
    requires { IsFirst of_terms (pieces_of pieces.old.items) }
    ensures { pieces_of pieces.old.items ≡ some_terms (reverse result.items) ∷ pieces_of pieces.new.items }
{
    match pieces.pop() {
        Some(Piece::Terms(piece)) => piece,
        _ => unreachable!(),
    }
}

pub(crate) fn pop_bound(pieces: &mut Vec<Piece<'_>>) -> (Vec<PreVariable>, PreTerm)
    requires { IsFirst of_bound (pieces_of pieces.old.items) }
    ensures { pieces_of pieces.old.items ≡ bound (reverse result.0.items) result.1 ∷ pieces_of pieces.new.items }
{
    match pieces.pop() {
        Some(Piece::Bound(first, second)) => (first, second),
        _ => unreachable!(),
    }
}

pub(crate) fn pop_after_name(
    pieces: &mut Vec<Piece<'_>>,
) -> (Option<PreType>, Vec<PreVariable>, PreTerm)
    requires { IsFirst of_after_name (pieces_of pieces.old.items) }
    ensures { pieces_of pieces.old.items ≡ after_name result.0 (reverse result.1.items) result.2 ∷ pieces_of pieces.new.items }
{
    match pieces.pop() {
        Some(Piece::AfterName(first, second, third)) => (first, second, third),
        _ => unreachable!(),
    }
}

pub(crate) fn pop_after_not(pieces: &mut Vec<Piece<'_>>) -> (Option<PreTerm>, Vec<Side>)
    requires { IsFirst of_after_not (pieces_of pieces.old.items) }
    ensures { pieces_of pieces.old.items ≡ after_not result.0 (reverse (side_texts result.1.items)) ∷ pieces_of pieces.new.items }
{
    match pieces.pop() {
        Some(Piece::AfterNot(first, second)) => (first, second),
        _ => unreachable!(),
    }
}

pub(crate) fn pop_after_binder(
    pieces: &mut Vec<Piece<'_>>,
) -> (Option<(Vec<PreVariable>, PreTerm)>, Vec<Side>)
    requires { IsFirst of_after_binder (pieces_of pieces.old.items) }
    ensures { pieces_of pieces.old.items ≡ after_binder (option_map binding_text result.0) (reverse (side_texts result.1.items)) ∷ pieces_of pieces.new.items }
{
    match pieces.pop() {
        Some(Piece::AfterBinder(first, second)) => (first, second),
        _ => unreachable!(),
    }
}

pub(crate) fn pop_quotation(pieces: &mut Vec<Piece<'_>>) -> Quotation
    requires { IsFirst of_quotation (pieces_of pieces.old.items) }
    ensures { pieces_of pieces.old.items ≡ a_quotation result ∷ pieces_of pieces.new.items }
{
    match pieces.pop() {
        Some(Piece::Quotation(piece)) => piece,
        _ => unreachable!(),
    }
}

pub(crate) fn pop_type_quotation(pieces: &mut Vec<Piece<'_>>) -> TypeQuotation
    requires { IsFirst of_type_quotation (pieces_of pieces.old.items) }
    ensures { pieces_of pieces.old.items ≡ a_type_quotation result ∷ pieces_of pieces.new.items }
{
    match pieces.pop() {
        Some(Piece::TypeQuotation(piece)) => piece,
        _ => unreachable!(),
    }
}

pub(crate) fn pop_right_side(pieces: &mut Vec<Piece<'_>>) -> RightSide
    requires { IsFirst of_right_side (pieces_of pieces.old.items) }
    ensures { pieces_of pieces.old.items ≡ a_right_side result ∷ pieces_of pieces.new.items }
{
    match pieces.pop() {
        Some(Piece::RightSide(piece)) => piece,
        _ => unreachable!(),
    }
}

pub(crate) fn pop_parameters(pieces: &mut Vec<Piece<'_>>) -> (Vec<PreVariable>, RightSide)
    requires { IsFirst of_parameters (pieces_of pieces.old.items) }
    ensures { pieces_of pieces.old.items ≡ some_parameters (reverse result.0.items) result.1 ∷ pieces_of pieces.new.items }
{
    match pieces.pop() {
        Some(Piece::Parameters(first, second)) => (first, second),
        _ => unreachable!(),
    }
}

pub(crate) fn pop_definition(pieces: &mut Vec<Piece<'_>>) -> Definition
    requires { IsFirst of_definition (pieces_of pieces.old.items) }
    ensures { pieces_of pieces.old.items ≡ a_definition result ∷ pieces_of pieces.new.items }
{
    match pieces.pop() {
        Some(Piece::Definition(piece)) => piece,
        _ => unreachable!(),
    }
}

pub(crate) fn pop_theorem(pieces: &mut Vec<Piece<'_>>) -> ThmExpr
    requires { IsFirst of_theorem (pieces_of pieces.old.items) }
    ensures { pieces_of pieces.old.items ≡ a_theorem result ∷ pieces_of pieces.new.items }
{
    match pieces.pop() {
        Some(Piece::Theorem(piece)) => piece,
        _ => unreachable!(),
    }
}

pub(crate) fn pop_theorems(pieces: &mut Vec<Piece<'_>>) -> Vec<ThmExpr>
    requires { IsFirst of_theorems (pieces_of pieces.old.items) }
    ensures { pieces_of pieces.old.items ≡ some_theorems (reverse result.items) ∷ pieces_of pieces.new.items }
{
    match pieces.pop() {
        Some(Piece::Theorems(piece)) => piece,
        _ => unreachable!(),
    }
}

pub(crate) fn pop_pair(pieces: &mut Vec<Piece<'_>>) -> TypePair
    requires { IsFirst of_pair (pieces_of pieces.old.items) }
    ensures { pieces_of pieces.old.items ≡ a_pair result ∷ pieces_of pieces.new.items }
{
    match pieces.pop() {
        Some(Piece::Pair(piece)) => piece,
        _ => unreachable!(),
    }
}

pub(crate) fn pop_pairs(pieces: &mut Vec<Piece<'_>>) -> Vec<TypePair>
    requires { IsFirst of_pairs (pieces_of pieces.old.items) }
    ensures { pieces_of pieces.old.items ≡ some_pairs (reverse result.items) ∷ pieces_of pieces.new.items }
{
    match pieces.pop() {
        Some(Piece::Pairs(piece)) => piece,
        _ => unreachable!(),
    }
}

pub(crate) fn pop_argument(pieces: &mut Vec<Piece<'_>>) -> TacArg
    requires { IsFirst of_argument (pieces_of pieces.old.items) }
    ensures { pieces_of pieces.old.items ≡ an_argument result ∷ pieces_of pieces.new.items }
{
    match pieces.pop() {
        Some(Piece::Argument(piece)) => piece,
        _ => unreachable!(),
    }
}

pub(crate) fn pop_arguments(pieces: &mut Vec<Piece<'_>>) -> Vec<TacArg>
    requires { IsFirst of_arguments (pieces_of pieces.old.items) }
    ensures { pieces_of pieces.old.items ≡ some_arguments (reverse result.items) ∷ pieces_of pieces.new.items }
{
    match pieces.pop() {
        Some(Piece::Arguments(piece)) => piece,
        _ => unreachable!(),
    }
}

pub(crate) fn pop_call(pieces: &mut Vec<Piece<'_>>) -> TacCall
    requires { IsFirst of_call (pieces_of pieces.old.items) }
    ensures { pieces_of pieces.old.items ≡ a_call result ∷ pieces_of pieces.new.items }
{
    match pieces.pop() {
        Some(Piece::Call(piece)) => piece,
        _ => unreachable!(),
    }
}

pub(crate) fn pop_tactic(pieces: &mut Vec<Piece<'_>>) -> TacExpr
    requires { IsFirst of_tactic (pieces_of pieces.old.items) }
    ensures { pieces_of pieces.old.items ≡ a_tactic result ∷ pieces_of pieces.new.items }
{
    match pieces.pop() {
        Some(Piece::Tactic(piece)) => piece,
        _ => unreachable!(),
    }
}

pub(crate) fn pop_maybe_tactic(pieces: &mut Vec<Piece<'_>>) -> Option<TacExpr>
    requires { IsFirst of_maybe_tactic (pieces_of pieces.old.items) }
    ensures { pieces_of pieces.old.items ≡ maybe_tactic result ∷ pieces_of pieces.new.items }
{
    match pieces.pop() {
        Some(Piece::MaybeTactic(piece)) => piece,
        _ => unreachable!(),
    }
}

pub(crate) fn pop_tactics(pieces: &mut Vec<Piece<'_>>) -> Vec<TacExpr>
    requires { IsFirst of_tactics (pieces_of pieces.old.items) }
    ensures { pieces_of pieces.old.items ≡ some_tactics (reverse result.items) ∷ pieces_of pieces.new.items }
{
    match pieces.pop() {
        Some(Piece::Tactics(piece)) => piece,
        _ => unreachable!(),
    }
}

pub(crate) fn pop_steps(pieces: &mut Vec<Piece<'_>>) -> Vec<ThenStep>
    requires { IsFirst of_steps (pieces_of pieces.old.items) }
    ensures { pieces_of pieces.old.items ≡ some_steps (reverse (then_texts result.items)) ∷ pieces_of pieces.new.items }
{
    match pieces.pop() {
        Some(Piece::Steps(piece)) => piece,
        _ => unreachable!(),
    }
}

pub(crate) fn pop_command(pieces: &mut Vec<Piece<'_>>) -> Command
    requires { IsFirst of_command (pieces_of pieces.old.items) }
    ensures { pieces_of pieces.old.items ≡ a_command result ∷ pieces_of pieces.new.items }
{
    match pieces.pop() {
        Some(Piece::Command(piece)) => piece,
        _ => unreachable!(),
    }
}

/// Puts a piece on top.
#[tactic(auto, using(crate::proofs::Pieces::pushed))]
pub(crate) fn push<'t>(pieces: &mut Vec<Piece<'t>>, piece: Piece<'t>) -> Result<(), AllocError>
    ensures { IfOk result (λ _. pieces_of pieces.new.items ≡ piece_of piece.entry ∷ pieces_of pieces.old.items) }
{
    Ok(pieces.push(piece)?)
}
