//! The machine that reads: it keeps what is still to be read on a stack of its own.
ghost use Rattle.std.specs.Prelude.{◌≡◌, ◌≤◌, ◌++◌, [], ◌∷◌, List, Bool, true, false, IfOk, MatchResult, MatchOption, map, reverse, Some, None};
ghost use Rattle.hol_notation_tokens.specs.Token.{is_among};
ghost use Rattle.hol_notation_tokens.specs.Lexeme.{Lexeme, seen};
ghost use Rattle.hol_notation_grammar.specs.declared.grammar.Rule.{Rule};
ghost use Rattle.hol_notation_grammar.specs.declared.grammar.Production.{Production};
ghost use Rattle.hol_notation_grammar.specs.Sort.{sort_of};
ghost use Rattle.hol_notation_grammar.specs.Table.{productions, symbols};
ghost use Rattle.hol_notation_grammar.specs.Grammar.{language, leads, some_leads, begins, opens, IsAmong};
ghost use Rattle.hol_notation_grammar.specs.Reading.{IsText, Fails};
ghost use Rattle.hol_notation_grammar.specs.Path.{IsNeeded, IsOmitted, Omits, TakesFirst, Accepts, Notes, GoesOn, Closes, opens_next};
ghost use Rattle.hol_notation_grammar.specs.Step.{step_texts, name_texts};

use crate::grammar::{Class, Production, Rule, Symbol};
use crate::sort::{Sort, sort_of};
use hol_notation_tokens::{SyntaxError, Word};
use std::alloc::{AllocError, Global};

/// A step of writing what was read.
#[derive(Clone, Copy)]
pub enum Step<'t> {
    /// A production was chosen.
    Choose(Production),
    /// A word was taken as one of a class.
    Take(Class, Word<'t>),
}

// The longest chain of productions to a first token.
const DEPTH: usize = 12;

// Whether the first of these parts may begin with a token of a sort, through so many productions.
#[cycle(begins)]
fn leads(symbols: &[Symbol], sort: Sort, depth: usize) -> bool
    ensures { result ≡ leads (λ m j. begins language depth m j) symbols.now sort }
{
    match symbols.first() {
        Some(Symbol::Token(class)) => class.has(sort),
        Some(Symbol::Part(rule)) => begins(*rule, sort, depth),
        None => false,
    }
}

// Whether what is written of a rule may begin with a token of a sort, through so many productions.
#[cycle(begins)]
fn begins(rule: Rule, sort: Sort, depth: usize) -> bool
    ensures { result ≡ begins language depth rule sort }
{
    if depth == 0 {
        return false;
    }
    for production in rule.productions() {
        if leads(production.symbols(), sort, depth - 1) {
            return true;
        }
    }
    false
}

// The first of the productions that may begin with a token of a sort.
fn first_leading(productions: &[Production], sort: Sort) -> Option<Production>
    ensures { MatchOption result (some_leads (λ m j. opens language m j) (λ p. symbols p) productions.now sort ≡ false) (λ p. IsAmong p productions.now × (leads (λ m j. opens language m j) (symbols p) sort ≡ true)) }
{
    let (first, rest) = productions.split_first()?;
    if leads(first.symbols(), sort, DEPTH) {
        Some(*first)
    } else {
        first_leading(rest, sort)
    }
}

// The first of the productions that has no parts.
fn first_empty(productions: &[Production]) -> Option<Production>
    ensures { MatchOption result ((p : Production) → IsAmong p productions.now → symbols p ≡ [] → ⊥) (λ p. IsAmong p productions.now × (symbols p ≡ [])) }
{
    let (first, rest) = productions.split_first()?;
    if first.symbols().is_empty() {
        Some(*first)
    } else {
        first_empty(rest)
    }
}

fn opens_next(rule: Rule, next: Option<Sort>) -> bool
    ensures { result ≡ opens_next language rule next }
{
    match next {
        Some(sort) => begins(rule, sort, DEPTH),
        None => false,
    }
}

// Puts the parts onto the stack, the first on top.
fn push_all(todo: &mut Vec<Symbol>, symbols: &[Symbol]) -> Result<(), AllocError>
    ensures { IfOk result (λ _. reverse todo.new.items ≡ symbols.now ++ reverse todo.old.items) }
{
    match symbols.split_first() {
        Some((first, rest)) => {
            push_all(todo, rest)?;
            todo.push(*first)?;
            Ok(())
        }
        None => Ok(()),
    }
}

// The production by which this is left out: that of nothing, where the next token doesn't begin it.
fn omitted(symbol: Symbol, next: Option<Sort>) -> Option<Production>
    ensures { MatchOption result (IsNeeded language next symbol) (λ p. IsOmitted language next p symbol) }
{
    match symbol {
        Symbol::Part(rule) => {
            if opens_next(rule, next) {
                None
            } else {
                first_empty(rule.productions())
            }
        }
        Symbol::Token(_) => None,
    }
}

// Leaves out what the next token doesn't begin, and takes off the stack what can't be left out, if there is such.
fn omit(
    todo: &mut Vec<Symbol>,
    steps: &mut Vec<Step<'_>>,
    next: Option<Sort>,
) -> Result<Option<Symbol>, AllocError>
    ensures { IfOk result (λ top. Omits language next (reverse todo.old.items) (step_texts steps.old.items) top (reverse todo.new.items) (step_texts steps.new.items)) }
{
    while let Some(symbol) = todo.pop() {
        match omitted(symbol, next) {
            Some(production) => steps.push(Step::Choose(production))?,
            None => return Ok(Some(symbol)),
        }
    }
    Ok(None)
}

// Chooses productions up to the token that they begin with, and takes it; answers its class.
fn descend<'t>(
    todo: &mut Vec<Symbol>,
    steps: &mut Vec<Step<'t>>,
    top: Symbol,
    sort: Sort,
    word: &Word<'t>,
    depth: usize,
) -> Result<Class, AllocError>
    requires { (sort ≡ sort_of (seen word.now)) × (leads (λ m j. begins language depth m j) (top ∷ []) sort ≡ true) }
    ensures { IfOk result (λ class. TakesFirst language (seen word.now) class (top ∷ reverse todo.old.items) (step_texts steps.old.items) (reverse todo.new.items) (step_texts steps.new.items)) }
{
    match top {
        Symbol::Token(class) => {
            steps.push(Step::Take(class, *word))?;
            Ok(class)
        }
        Symbol::Part(rule) => {
            let Some(production) = first_leading(rule.productions(), sort) else {
                unreachable!()
            };
            steps.push(Step::Choose(production))?;
            push_all(todo, production.symbols())?;
            let Some(first) = todo.pop() else {
                unreachable!()
            };
            descend(todo, steps, first, sort, word, depth - 1)
        }
    }
}

// Whether the next token can begin this.
fn is_begun(symbol: Symbol, sort: Sort) -> bool
    ensures { result ≡ leads (λ m j. begins language 12 m j) (symbol ∷ []) sort }
{
    match symbol {
        Symbol::Token(class) => class.has(sort),
        Symbol::Part(rule) => begins(rule, sort, DEPTH),
    }
}

// Takes the word, where one like it goes on; answers as one of which class.
fn accept<'t>(
    todo: &mut Vec<Symbol>,
    steps: &mut Vec<Step<'t>>,
    word: &Word<'t>,
) -> Result<Option<Class>, AllocError>
    ensures { IfOk result (λ class. Accepts language (seen word.now) (reverse todo.old.items) (step_texts steps.old.items) class (reverse todo.new.items) (step_texts steps.new.items)) }
{
    let sort = sort_of(word);
    match omit(todo, steps, Some(sort))? {
        Some(top) => {
            if is_begun(top, sort) {
                Ok(Some(descend(todo, steps, top, sort, word, DEPTH)?))
            } else {
                Ok(None)
            }
        }
        None => Ok(None),
    }
}

// Whether one of the names is this.
fn is_among(names: &[&str], name: &str) -> bool
    ensures { result ≡ is_among (name_texts names.now) name.now }
{
    names.iter().any(|other| name == *other)
}

// Notes the word, where it is of a class of names that have to differ; answers whether it is none of those before it.
fn note<'t>(names: &mut Vec<&'t str>, class: Class, word: &Word<'t>) -> Result<bool, AllocError>
    ensures { IfOk result (λ new. Notes (name_texts names.old.items) class (seen word.now) new (name_texts names.new.items)) }
{
    if !class.binds() {
        return Ok(true);
    }
    if is_among(names, word.text) {
        return Ok(false);
    }
    names.push(word.text)?;
    Ok(true)
}

// Reads the word, where a text goes on with it; answers whether one does.
fn go_on<'t>(
    todo: &mut Vec<Symbol>,
    steps: &mut Vec<Step<'t>>,
    names: &mut Vec<&'t str>,
    word: &Word<'t>,
) -> Result<bool, AllocError>
    ensures { IfOk result (λ goes. GoesOn language (seen word.now) (reverse todo.old.items) (step_texts steps.old.items) (name_texts names.old.items) goes (reverse todo.new.items) (step_texts steps.new.items) (name_texts names.new.items)) }
{
    match accept(todo, steps, word)? {
        Some(class) => note(names, class, word),
        None => Ok(false),
    }
}

// Ends a text; answers whether it can end here.
fn end_here(todo: &mut Vec<Symbol>, steps: &mut Vec<Step<'_>>) -> Result<bool, AllocError>
    ensures { IfOk result (λ ended. Closes language (reverse todo.old.items) (step_texts steps.old.items) ended (step_texts steps.new.items)) }
{
    match omit(todo, steps, None)? {
        Some(_) => Ok(false),
        None => Ok(true),
    }
}

/// What is written, as the steps of its tree; `Syntax` at the first word with which nothing that is written goes on, or at
/// the end.
pub fn read<'t>(
    alloc: Global,
    start: Rule,
    words: &[Word<'t>],
    end: usize,
) -> Result<Vec<Step<'t>>, SyntaxError>
    ensures { MatchResult result (λ steps. IsText language start (map seen words.now) (step_texts steps.items)) (Fails language start end (map seen words.now)) }
{
    let mut todo = Vec::new(alloc);
    todo.push(Symbol::Part(start))?;
    let mut steps = Vec::new(alloc);
    let mut names = Vec::new(alloc);
    for word in words {
        if !go_on(&mut todo, &mut steps, &mut names, word)? {
            return Err(SyntaxError::Syntax(word.place));
        }
    }
    if end_here(&mut todo, &mut steps)? {
        Ok(steps)
    } else {
        Err(SyntaxError::Syntax(end))
    }
}
