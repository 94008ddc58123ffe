//! What is written in an expression, in text order.
ghost use Rattle.std.specs.Prelude.{◌≡◌, ◌++◌, ◌∷◌, [], IfOk, OnOk};
ghost use Rattle.hol_notation_tactics.specs.declared.parts.Part.TheVariants as part;
ghost use Rattle.hol_notation_tactics.specs.declared.parts.Role.TheVariants.{Whole, TheoremTactic};
ghost use Rattle.hol_notation_tactics.specs.Text.{tac_texts};
ghost use Rattle.hol_notation_tactics.specs.Parts.{parts_of_pairs, parts_of_theorem, parts_of_theorems, parts_of_argument, parts_of_arguments, parts_of_call, parts_of, parts_of_each, calls_in};

use crate::cited_name::CitedName;
use crate::tac_arg::{TacArg, TacArgNode};
use crate::tac_call::TacCall;
use crate::tac_expr::{TacExpr, TacExprNode};
use crate::thm_expr::{ThmExpr, ThmExprNode};
use crate::type_pair::TypePair;
use hol_notation_terms::{Quotation, TypeQuotation};
use std::alloc::{AllocError, Global};

/// How a call stands in an expression.
#[derive(Clone, Copy)]
pub enum Role {
    /// By itself.
    Whole,
    /// In the place of a theorem tactic: its last argument, a theorem, is left out.
    TheoremTactic,
}

/// A part of what is written.
#[derive(Drop)]
pub enum Part {
    /// A quotation of a term, among arguments or in a theorem.
    Term(Quotation),
    /// A quotation of a type.
    Type(TypeQuotation),
    /// The name of a theorem that is cited.
    Theorem(CitedName),
    /// A call, before its arguments.
    Call(Role, TacCall),
    /// The formula of SUBGOAL_THEN.
    Formula(Quotation),
}

type Parts = Vec<Part>;

/// What is written in an expression, in text order.
pub fn parts_of(alloc: Global, tactic: &TacExpr) -> Result<Vec<Part>, AllocError>
    ensures { IfOk result (λ parts. parts.items ≡ parts_of tactic.now) }
{
    let mut parts = Vec::new(alloc);
    add_tactic(alloc, &mut parts, tactic)?;
    Ok(parts)
}

/// What is written in a theorem, in text order, as if it were written alone.
pub fn parts_of_theorem(alloc: Global, theorem: &ThmExpr) -> Result<Vec<Part>, AllocError>
    ensures { IfOk result (λ parts. parts.items ≡ parts_of_theorem theorem.now) }
{
    let mut parts = Vec::new(alloc);
    add_theorem(alloc, &mut parts, theorem)?;
    Ok(parts)
}

fn add_term(parts: &mut Parts, term: &Quotation) -> Result<(), AllocError>
    ensures { OnOk result (parts.new.items ≡ parts.old.items ++ part.Term term.now ∷ []) }
{
    Ok(parts.push(Part::Term(term.copy()?))?)
}

fn add_type(parts: &mut Parts, ty: &TypeQuotation) -> Result<(), AllocError>
    ensures { OnOk result (parts.new.items ≡ parts.old.items ++ part.Type ty.now ∷ []) }
{
    Ok(parts.push(Part::Type(ty.copy()?))?)
}

fn add_pairs(parts: &mut Parts, pairs: &[TypePair]) -> Result<(), AllocError>
    ensures { OnOk result (parts.new.items ≡ parts.old.items ++ parts_of_pairs pairs.now) }
{
    for pair in pairs {
        add_type(parts, &pair.new_type)?;
        add_type(parts, &pair.old_type)?;
    }
    Ok(())
}

fn add_theorem(alloc: Global, parts: &mut Parts, theorem: &ThmExpr) -> Result<(), AllocError>
    ensures { OnOk result (parts.new.items ≡ parts.old.items ++ parts_of_theorem theorem.now) }
{
    match theorem.node() {
        ThmExprNode::Name(name) => {
            Ok(parts.push(Part::Theorem(CitedName::new(alloc, name.as_str())?))?)
        }
        ThmExprNode::Assume(term) | ThmExprNode::Refl(term) => add_term(parts, term),
        ThmExprNode::Spec(term, part) => {
            add_term(parts, term)?;
            add_theorem(alloc, parts, part)
        }
        ThmExprNode::Sym(part) | ThmExprNode::Conjunct1(part) | ThmExprNode::Conjunct2(part) => {
            add_theorem(alloc, parts, part)
        }
        ThmExprNode::Mp(implication, premise) => {
            add_theorem(alloc, parts, implication)?;
            add_theorem(alloc, parts, premise)
        }
        ThmExprNode::InstType(pairs, part) => {
            add_pairs(parts, pairs)?;
            add_theorem(alloc, parts, part)
        }
    }
}

fn add_theorems(alloc: Global, parts: &mut Parts, theorems: &[ThmExpr]) -> Result<(), AllocError>
    ensures { OnOk result (parts.new.items ≡ parts.old.items ++ parts_of_theorems theorems.now) }
{
    for theorem in theorems {
        add_theorem(alloc, parts, theorem)?;
    }
    Ok(())
}

fn add_argument(alloc: Global, parts: &mut Parts, argument: &TacArg) -> Result<(), AllocError>
    ensures { OnOk result (parts.new.items ≡ parts.old.items ++ parts_of_argument argument.now) }
{
    match argument.node() {
        TacArgNode::Term(term) => add_term(parts, term),
        TacArgNode::Theorem(theorem) => add_theorem(alloc, parts, theorem),
        TacArgNode::Pair(first, second) => {
            add_term(parts, first)?;
            add_term(parts, second)
        }
        TacArgNode::Theorems(theorems) => add_theorems(alloc, parts, theorems),
    }
}

fn add_arguments(alloc: Global, parts: &mut Parts, arguments: &[TacArg]) -> Result<(), AllocError>
    ensures { OnOk result (parts.new.items ≡ parts.old.items ++ parts_of_arguments arguments.now) }
{
    for argument in arguments {
        add_argument(alloc, parts, argument)?;
    }
    Ok(())
}

fn add_call(alloc: Global, parts: &mut Parts, role: Role, call: &TacCall) -> Result<(), AllocError>
    ensures { OnOk result (parts.new.items ≡ parts.old.items ++ parts_of_call role call.now) }
{
    parts.push(Part::Call(role, call.copy(alloc)?))?;
    add_arguments(alloc, parts, &call.arguments)
}

#[cycle(add_tactic)]
fn add_tactic(alloc: Global, parts: &mut Parts, tactic: &TacExpr) -> Result<(), AllocError>
    ensures { OnOk result (parts.new.items ≡ parts.old.items ++ parts_of tactic.now) }
{
    match tactic.node() {
        TacExprNode::Call(call) => add_call(alloc, parts, Role::Whole, call),
        TacExprNode::DischThen(call)
        | TacExprNode::PopAssum(call)
        | TacExprNode::FirstAssum(call) => add_call(alloc, parts, Role::TheoremTactic, call),
        TacExprNode::Then(first, second) | TacExprNode::OrElse(first, second) => {
            add_tactic(alloc, parts, first)?;
            add_tactic(alloc, parts, second)
        }
        TacExprNode::ThenL(first, tactics) => {
            add_tactic(alloc, parts, first)?;
            add_tactics(alloc, parts, tactics)
        }
        TacExprNode::Repeat(part)
        | TacExprNode::Try(part)
        | TacExprNode::Changed(part)
        | TacExprNode::Replicate(_, part) => add_tactic(alloc, parts, part),
        TacExprNode::Every(tactics) | TacExprNode::First(tactics) => {
            add_tactics(alloc, parts, tactics)
        }
        TacExprNode::SubgoalThen(formula, call) => {
            parts.push(Part::Formula(formula.copy()?))?;
            add_call(alloc, parts, Role::TheoremTactic, call)
        }
    }
}

#[cycle(add_tactic)]
fn add_tactics(alloc: Global, parts: &mut Parts, tactics: &[TacExpr]) -> Result<(), AllocError>
    ensures { OnOk result (parts.new.items ≡ parts.old.items ++ parts_of_each (tac_texts tactics.now)) }
{
    for tactic in tactics {
        add_tactic(alloc, parts, tactic)?;
    }
    Ok(())
}

/// The calls, each with its role.
pub fn calls_in(alloc: Global, parts: &[Part]) -> Result<Vec<(Role, TacCall)>, AllocError>
    ensures { IfOk result (λ calls. calls.items ≡ calls_in parts.now) }
{
    let mut calls = Vec::new(alloc);
    for part in parts {
        match part {
            Part::Call(role, call) => calls.push((*role, call.copy(alloc)?))?,
            Part::Term(_) | Part::Type(_) | Part::Theorem(_) | Part::Formula(_) => {}
        }
    }
    Ok(calls)
}
