//! The reader of whole texts, and of the words of a type, a term and a theorem expression.
ghost use Rattle.std.specs.Prelude.{map, MatchResult};
ghost use Rattle.hol_notation_tokens.specs.Lexeme.{seen};
ghost use Rattle.hol_notation_grammar.specs.declared.grammar.Rule.TheVariants as rules;
ghost use Rattle.hol_notation_grammar.specs.Grammar.{language};
ghost use Rattle.hol_notation_grammar.specs.Reading.{Fails};
ghost use Rattle.hol_notation_reader.specs.Piece.{the_term, the_theorem, the_type};
ghost use Rattle.hol_notation_reader.specs.View.{pieces_of};
ghost use Rattle.hol_notation_reader.specs.Fold.{IsBuilt};
ghost use Rattle.hol_notation_reader.specs.Reading.{IsRead, Reads, Says};
ghost use Rattle.hol_notation_reader.specs.Errors.{IsSyntaxError, IsAnswer};

use crate::fold::evaluate;
use crate::piece::{Piece, pop_command, pop_term, pop_theorem, pop_type};
use hol_notation_commands::Command;
use hol_notation_grammar::{Rule, read};
use hol_notation_tactics::ThmExpr;
use hol_notation_terms::{PreTerm, PreType};
use hol_notation_tokens::{SyntaxError, Word, scan};
use std::alloc::Global;

// What is built of all the words.
fn built<'t>(
    alloc: Global,
    rule: Rule,
    words: &[Word<'t>],
    end: usize,
) -> Result<Vec<Piece<'t>>, SyntaxError>
    ensures { MatchResult result (λ pieces. IsBuilt rule (map seen words.now) (pieces_of pieces.items)) (Fails language rule end (map seen words.now)) }
{
    let steps = read(alloc, rule, words, end)?;
    Ok(evaluate(alloc, steps)?)
}

/// The type that all the words say; `Syntax` at the first with which no type goes on, or at the end.
pub fn read_type(alloc: Global, words: &[Word<'_>], end: usize) -> Result<PreType, SyntaxError>
    ensures { MatchResult result (λ ty. Says rules.Type the_type (map seen words.now) ty) (Fails language rules.Type end (map seen words.now)) }
{
    let mut pieces = built(alloc, Rule::Type, words, end)?;
    Ok(pop_type(&mut pieces))
}

/// The term that all the words say; `Syntax` at the first with which no term goes on, or at the end.
pub fn read_term(alloc: Global, words: &[Word<'_>], end: usize) -> Result<PreTerm, SyntaxError>
    ensures { MatchResult result (λ term. Says rules.Term the_term (map seen words.now) term) (Fails language rules.Term end (map seen words.now)) }
{
    let mut pieces = built(alloc, Rule::Term, words, end)?;
    Ok(pop_term(&mut pieces))
}

/// The theorem expression that all the words say; `Syntax` at the first with which none goes on, or at the end.
pub fn read_theorem(alloc: Global, words: &[Word<'_>], end: usize) -> Result<ThmExpr, SyntaxError>
    ensures { MatchResult result (λ theorem. Says rules.Theorem the_theorem (map seen words.now) theorem) (Fails language rules.Theorem end (map seen words.now)) }
{
    let mut pieces = built(alloc, Rule::Theorem, words, end)?;
    Ok(pop_theorem(&mut pieces))
}

// The command that all the words say.
fn read_all(alloc: Global, words: &[Word<'_>], end: usize) -> Result<Command, SyntaxError>
    ensures { IsAnswer end (map seen words.now) result }
{
    let mut pieces = built(alloc, Rule::Command, words, end)?;
    Ok(pop_command(&mut pieces))
}

/// The command that the text says.
///
/// Answers `Syntax` at the leftmost byte where a byte begins no token, a token is one more than `MAX_TOKENS`, a bracket would be one more
/// than `MAX_OPEN`, or no command goes on, and at the text's length where the text ends too soon.
pub fn read_command(alloc: Global, text: &str) -> Result<Command, SyntaxError>
    ensures { MatchResult result (λ command. IsRead text.now (Reads command)) (IsSyntaxError text.now) }
{
    let (words, end) = scan(alloc, text)?;
    let command = read_all(alloc, &words, end)?;
    if end < text.len() {
        return Err(SyntaxError::Syntax(end));
    }
    Ok(command)
}
