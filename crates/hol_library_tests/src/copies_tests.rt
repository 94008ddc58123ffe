//! Copies of matches, of expressions, of arguments and of pairs of types; and an argument of theorems.
ghost use Rattle.std.specs.Prelude.{[], IfOk, IsTrue};
ghost use Rattle.hol_terms.specs.Nameless.{nameless};
ghost use Rattle.hol_match.specs.Patterns.{is_apart};

use hol_combine::{Expr, ExprNode};
use hol_formulas::{bool_type, occurrence, variable};
use hol_goal::TacArgs;
use hol_match::term_match;
use hol_notation_reader::read_theorem;
use hol_notation_tactics::{TacArg, TacArgNode, ThmExpr, ThmExprNode};
use hol_notation_tokens::scan;
use hol_terms::Term;
use std::alloc::{AllocError, Global};
use std::test::Fail;

// A variable.
fn letter(alloc: Global) -> Result<Term, AllocError>
    ensures { IfOk result (λ t. IsTrue (is_apart [] (nameless [] t))) }
{
    let ty = bool_type(alloc)?;
    let v = variable(alloc, "x", &ty)?;
    occurrence(alloc, &v)
}

// Whether a copy of the match of the variable with itself gives it for itself, and no type.
fn is_match_copied(alloc: Global, x: &Term) -> Result<bool, AllocError>
    requires { IsTrue (is_apart [] (nameless [] x.now)) }
{
    let Some(found) = term_match(alloc, &[], x, x)? else {
        return Ok(false);
    };
    let copy = found.copy(alloc)?;
    match copy.terms() {
        [(t, v)] => Ok(t.same(x) && v.same(x) && copy.types().is_empty()),
        _ => Ok(false),
    }
}

fn is_argument(args: &TacArgs, x: &Term) -> bool {
    match args {
        TacArgs::Term(t) => t.same(x),
        _ => false,
    }
}

fn are_arguments_copied(alloc: Global, args: &TacArgs, x: &Term) -> Result<bool, AllocError> {
    let copy = args.copy(alloc)?;
    Ok(is_argument(&copy, x))
}

// Whether a copy of the term as arguments is the term.
fn is_argument_copied(alloc: Global, x: &Term) -> Result<bool, AllocError> {
    let args = TacArgs::Term(x.copy()?);
    are_arguments_copied(alloc, &args, x)
}

fn is_letter_copied(alloc: Global) -> Result<bool, AllocError> {
    let x = letter(alloc)?;
    Ok(is_match_copied(alloc, &x)? && is_argument_copied(alloc, &x)?)
}

// Whether a copy of `EVERY []` is one.
fn is_expression_copied(alloc: Global) -> Result<bool, AllocError> {
    let every = Expr::new(alloc, ExprNode::Every(Vec::new(alloc)))?;
    let copy = every.copy()?;
    Ok(matches!(copy.node(), ExprNode::Every(parts) if parts.is_empty()))
}

// Whether the expression is of one pair of types, which its copy is the same as.
fn is_of_copied_pair(theorem: &ThmExpr) -> Result<bool, Fail> {
    let ThmExprNode::InstType(pairs, _) = theorem.node() else {
        return Ok(false);
    };
    match pairs.as_slice() {
        [pair] => Ok(pair.same(&pair.copy()?)),
        _ => Ok(false),
    }
}

fn is_pair_copied(alloc: Global) -> Result<bool, Fail> {
    let (words, end) = scan(alloc, "INST_TYPE [`:A`, `:B`] N")?;
    let theorem = read_theorem(alloc, &words, end)?;
    is_of_copied_pair(&theorem)
}

// Whether an argument is what it is made of: theorems, of which there are none.
fn is_argument_made(alloc: Global) -> bool {
    let argument = TacArg::new(TacArgNode::Theorems(Vec::new(alloc)));
    matches!(argument.node(), TacArgNode::Theorems(theorems) if theorems.is_empty())
}

fn are_copied(alloc: Global) -> Result<bool, Fail> {
    Ok(
        is_argument_made(alloc)
            && is_letter_copied(alloc)?
            && is_expression_copied(alloc)?
            && is_pair_copied(alloc)?,
    )
}

#[test]
fn values_are_copied(rt: HostRuntime) -> Result<(), Fail> {
    assert!(rt; are_copied(rt.alloc())?);
    Ok(())
}
