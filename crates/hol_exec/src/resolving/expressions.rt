//! Expressions of functions on goals, resolved: calls with their arguments, and the tacticals that join them.
ghost use Rattle.std.specs.Prelude.{◌≡◌, IfOk, Result, Ok, Err, Some, option_copied, []};
ghost use Rattle.std.specs.Option.{option_map};
ghost use Rattle.hol_terms.specs.Nameless.{nameless};
ghost use Rattle.hol_goal.specs.ArgumentsView.{args_value};
ghost use Rattle.hol_combine.specs.ExprValue.{ExprValue, ExprValues, exprs};
ghost use Rattle.hol_combine.specs.ExprValue as expr;
ghost use Rattle.hol_combine.specs.ExprView.{theorem_tac_value, expr_of_node};
ghost use Rattle.hol_notation_tactics.specs.Text.{tac_texts, Then, OrElse};
ghost use Rattle.hol_resolve.specs.Over.{AreOver, AreWithin};
ghost use Rattle.hol_resolve.specs.Readings.{term_at};
ghost use Rattle.hol_resolve.specs.FormsView.{written_value};
ghost use Rattle.hol_resolve.specs.ReadingView.{list_value, readings_value};
ghost use Rattle.hol_exec.specs.Expr.{RefusedValue, both, mapped, named_result, refused_by, term_before, formula, arguments_for, resolved_call, resolved_theorem_tac, resolved_whole, resolved_handing, resolved_expr, resolved_exprs};
ghost use Rattle.hol_exec.specs.ContextView.{context_value, IsContext};
ghost use Rattle.hol_exec.specs.ExprView.{IsFound, IsFault, IsRefusal, IsTheoremTacFound, AreArgumentsFound, ArePartsFound, IsChainFound, AreAlternativesFound, handed};
ghost use Rattle.hol_exec.specs.Resolved.{cited_theorems};

use crate::reading::is_statement;
use crate::reads::Reads;
use crate::reports::RefusalKind;
use crate::resolving::callee::{Callee, called};
use crate::resolving::looks_up::LooksUp;
use crate::resolving::unresolved::Unresolved;
use hol_combine::{Expr, ExprNode, Formula, Handing, TacCall, TheoremTac};
use hol_goal::TacArgs;
use hol_kernel::{Basis, Thm};
use hol_notation_tactics as written;
use hol_notation_tactics::{Role, TacExpr, TacExprNode};
use hol_notation_terms::Quotation;
use hol_resolve::{Readings, Refusal, WrittenArgs, arguments_given};
use hol_terms::Term;
use hol_types::Name;
use std::alloc::{AllocError, Global};

/// What names and quotations are resolved by.
#[derive(Clone, Copy)]
pub(crate) struct Context<'a> {
    /// What the command reads.
    pub(crate) reads: &'a Reads,
    /// The theorems that it cites, by their names.
    pub(crate) theorems: &'a [(Name, Thm)],
    /// What its quotations read as.
    pub(crate) readings: &'a Readings,
    /// The basis of all that is resolved.
    pub(crate) basis: &'a Basis,
}

/// Resolves an expression.
#[cycle(resolve_expr)]
pub(crate) fn resolve_expr<N: LooksUp>(
    alloc: Global,
    names: &N,
    context: &Context<'_>,
    tactic: &TacExpr,
) -> Result<Expr, Unresolved>
    requires { IsContext context.now }
    ensures { IsFound (resolved_expr (context_value (N.LooksUp.table_of names.now) context.now) tactic.now) result }
{
    match tactic.node() {
        TacExprNode::Call(call) => resolve_call(alloc, names, context, call),
        TacExprNode::Then(first, second) => resolve_then(alloc, names, context, first, second),
        TacExprNode::OrElse(first, second) => resolve_or_else(alloc, names, context, first, second),
        TacExprNode::ThenL(first, parts) => resolve_then_each(alloc, names, context, first, parts),
        TacExprNode::Repeat(part) => repeat_node(alloc, resolve_expr(alloc, names, context, part)),
        TacExprNode::Try(part) => try_node(alloc, resolve_expr(alloc, names, context, part)),
        TacExprNode::Changed(part) => changed_node(
            alloc,
            resolve_expr(alloc, names, context, part),
        ),
        TacExprNode::Every(parts) => every_node(alloc, resolve_each(alloc, names, context, parts)),
        TacExprNode::First(parts) => first_node(alloc, resolve_each(alloc, names, context, parts)),
        TacExprNode::Replicate(times, part) => {
            replicate_node(alloc, *times, resolve_expr(alloc, names, context, part))
        }
        TacExprNode::DischThen(call) => hand(alloc, names, context, Handing::DischThen, call),
        TacExprNode::PopAssum(call) => hand(alloc, names, context, Handing::PopAssum, call),
        TacExprNode::FirstAssum(call) => hand(alloc, names, context, Handing::FirstAssum, call),
        TacExprNode::SubgoalThen(formula, call) => {
            hand_formula(alloc, names, context, formula, call)
        }
    }
}

// Resolves `first THENL [parts]`.
#[cycle(resolve_expr)]
fn resolve_then_each<N: LooksUp>(
    alloc: Global,
    names: &N,
    context: &Context<'_>,
    first: &TacExpr,
    parts: &[TacExpr],
) -> Result<Expr, Unresolved>
    requires { IsContext context.now }
    ensures { IsFound (both expr.ThenL (resolved_expr (context_value (N.LooksUp.table_of names.now) context.now) first.now) (resolved_exprs (context_value (N.LooksUp.table_of names.now) context.now) (tac_texts parts.now))) result }
{
    let first = resolve_expr(alloc, names, context, first)?;
    let parts = resolve_each(alloc, names, context, parts)?;
    Ok(Expr::new(alloc, ExprNode::ThenL(first, parts))?)
}

// Resolves each in turn.
#[cycle(resolve_expr)]
fn resolve_each<N: LooksUp>(
    alloc: Global,
    names: &N,
    context: &Context<'_>,
    tactics: &[TacExpr],
) -> Result<Vec<Expr>, Unresolved>
    requires { IsContext context.now }
    ensures { ArePartsFound (resolved_exprs (context_value (N.LooksUp.table_of names.now) context.now) (tac_texts tactics.now)) result }
{
    let mut parts = Vec::new(alloc);
    for tactic in tactics {
        parts.push(resolve_expr(alloc, names, context, tactic)?)?;
    }
    Ok(parts)
}

// Resolves `first THEN second`. A chain, which is written from the left, becomes a list.
#[cycle(resolve_expr)]
fn resolve_then<N: LooksUp>(
    alloc: Global,
    names: &N,
    context: &Context<'_>,
    first: &TacExpr,
    second: &TacExpr,
) -> Result<Expr, Unresolved>
    requires { IsContext context.now }
    ensures { IsFound (resolved_expr (context_value (N.LooksUp.table_of names.now) context.now) (Then first.now second.now)) result }
{
    let mut parts = Vec::new(alloc);
    push_then(alloc, names, context, &mut parts, first)?;
    parts.push(resolve_expr(alloc, names, context, second)?)?;
    let head = parts.remove(0);
    let next = parts.remove(0);
    Ok(Expr::new(alloc, ExprNode::Then(head, next, parts))?)
}

// Adds the parts of a chain of THEN, resolved.
#[cycle(resolve_expr)]
fn push_then<N: LooksUp>(
    alloc: Global,
    names: &N,
    context: &Context<'_>,
    parts: &mut Vec<Expr>,
    tactic: &TacExpr,
) -> Result<(), Unresolved>
    requires { IsContext context.now }
    ensures { IsChainFound (resolved_expr (context_value (N.LooksUp.table_of names.now) context.now) tactic.now) parts.old.items parts.new.items result }
{
    if let TacExprNode::Then(first, second) = tactic.node() {
        push_then(alloc, names, context, parts, first)?;
        return Ok(parts.push(resolve_expr(alloc, names, context, second)?)?);
    }
    Ok(parts.push(resolve_expr(alloc, names, context, tactic)?)?)
}

// Resolves `first ORELSE second`. A chain, which is written from the right, becomes a list.
#[cycle(resolve_expr)]
fn resolve_or_else<N: LooksUp>(
    alloc: Global,
    names: &N,
    context: &Context<'_>,
    first: &TacExpr,
    second: &TacExpr,
) -> Result<Expr, Unresolved>
    requires { IsContext context.now }
    ensures { IsFound (resolved_expr (context_value (N.LooksUp.table_of names.now) context.now) (OrElse first.now second.now)) result }
{
    let head = resolve_expr(alloc, names, context, first)?;
    let mut parts = Vec::new(alloc);
    push_or_else(alloc, names, context, &mut parts, second)?;
    let next = parts.remove(0);
    Ok(Expr::new(alloc, ExprNode::OrElse(head, next, parts))?)
}

// Adds the parts of a chain of ORELSE, resolved.
#[cycle(resolve_expr)]
fn push_or_else<N: LooksUp>(
    alloc: Global,
    names: &N,
    context: &Context<'_>,
    parts: &mut Vec<Expr>,
    tactic: &TacExpr,
) -> Result<(), Unresolved>
    requires { IsContext context.now }
    ensures { AreAlternativesFound (resolved_expr (context_value (N.LooksUp.table_of names.now) context.now) tactic.now) parts.old.items parts.new.items result }
{
    if let TacExprNode::OrElse(first, second) = tactic.node() {
        parts.push(resolve_expr(alloc, names, context, first)?)?;
        return push_or_else(alloc, names, context, parts, second);
    }
    Ok(parts.push(resolve_expr(alloc, names, context, tactic)?)?)
}

// The expression of REPEAT before a part that is resolved, if it is: its refusal is that of the whole.
fn repeat_node(alloc: Global, part: Result<Expr, Unresolved>) -> Result<Expr, Unresolved>
    ensures { (r : Result ExprValue RefusedValue) → IsFound r part → IsFound (mapped expr.Repeat r) result }
{
    Ok(Expr::new(alloc, ExprNode::Repeat(part?))?)
}

// The same of TRY.
fn try_node(alloc: Global, part: Result<Expr, Unresolved>) -> Result<Expr, Unresolved>
    ensures { (r : Result ExprValue RefusedValue) → IsFound r part → IsFound (mapped expr.Try r) result }
{
    Ok(Expr::new(alloc, ExprNode::Try(part?))?)
}

// The same of CHANGED_TAC.
fn changed_node(alloc: Global, part: Result<Expr, Unresolved>) -> Result<Expr, Unresolved>
    ensures { (r : Result ExprValue RefusedValue) → IsFound r part → IsFound (mapped expr.Changed r) result }
{
    Ok(Expr::new(alloc, ExprNode::Changed(part?))?)
}

// The same of REPLICATE_TAC.
fn replicate_node(
    alloc: Global,
    times: usize,
    part: Result<Expr, Unresolved>,
) -> Result<Expr, Unresolved>
    ensures { (r : Result ExprValue RefusedValue) → IsFound r part → IsFound (mapped (expr.Replicate times) r) result }
{
    Ok(Expr::new(alloc, ExprNode::Replicate(times, part?))?)
}

// The same of EVERY before parts.
fn every_node(alloc: Global, parts: Result<Vec<Expr>, Unresolved>) -> Result<Expr, Unresolved>
    ensures { (r : Result ExprValues RefusedValue) → ArePartsFound r parts → IsFound (mapped expr.Every r) result }
{
    Ok(Expr::new(alloc, ExprNode::Every(parts?))?)
}

// The same of FIRST.
fn first_node(alloc: Global, parts: Result<Vec<Expr>, Unresolved>) -> Result<Expr, Unresolved>
    ensures { (r : Result ExprValues RefusedValue) → ArePartsFound r parts → IsFound (mapped expr.First r) result }
{
    Ok(Expr::new(alloc, ExprNode::First(parts?))?)
}

// Resolves a function that a theorem is handed to.
fn hand<N: LooksUp>(
    alloc: Global,
    names: &N,
    context: &Context<'_>,
    handing: Handing,
    call: &written::TacCall,
) -> Result<Expr, Unresolved>
    requires { IsContext context.now }
    ensures { IsFound (handed handing (resolved_handing (context_value (N.LooksUp.table_of names.now) context.now) call.now)) result }
{
    let tac = resolve_theorem_tac(alloc, names, context, call)?;
    Ok(Expr::new(alloc, ExprNode::Hand(handing, tac))?)
}

// Resolves SUBGOAL_THEN, which hands over the formula that is written.
fn hand_formula<N: LooksUp>(
    alloc: Global,
    names: &N,
    context: &Context<'_>,
    quotation: &Quotation,
    call: &written::TacCall,
) -> Result<Expr, Unresolved>
    requires { IsContext context.now }
    ensures { IsFound (both expr.SubgoalThen (formula quotation.now.place (term_at (readings_value context.now.readings.now) quotation.now.place)) (resolved_handing (context_value (N.LooksUp.table_of names.now) context.now) call.now)) result }
{
    let formula = resolve_formula(alloc, context.readings, quotation)?;
    hand(alloc, names, context, Handing::SubgoalThen(formula), call)
}

// Resolves a call: what it calls, and its arguments. A use of an expression that was named is one node, whatever its size.
fn resolve_call<N: LooksUp>(
    alloc: Global,
    names: &N,
    context: &Context<'_>,
    call: &written::TacCall,
) -> Result<Expr, Unresolved>
    requires { IsContext context.now }
    ensures { IsFound (resolved_whole (context_value (N.LooksUp.table_of names.now) context.now) call.now) result }
{
    let Some((callee, written)) = called(names, Role::Whole, call, context.reads) else {
        return Err(unknown(alloc, call)?);
    };
    match callee {
        Callee::Registered(tac) => {
            let call = TacCall {
                index: tac.index,
                name: String::from_str(alloc, call.name.as_str())?,
                args: arguments(alloc, context, call, written)?,
            };
            Ok(Expr::new(alloc, ExprNode::Call(call))?)
        }
        Callee::Defined(expr, _) => Ok(expr.defined(alloc)?),
    }
}

// Resolves a function whose last argument, a theorem, is left out.
fn resolve_theorem_tac<N: LooksUp>(
    alloc: Global,
    names: &N,
    context: &Context<'_>,
    call: &written::TacCall,
) -> Result<TheoremTac, Unresolved>
    requires { IsContext context.now }
    ensures { IsTheoremTacFound (resolved_handing (context_value (N.LooksUp.table_of names.now) context.now) call.now) result }
{
    let Some((callee, written)) = called(names, Role::TheoremTactic, call, context.reads) else {
        return Err(unknown(alloc, call)?);
    };
    match callee {
        Callee::Registered(tac) => {
            let name = String::from_str(alloc, call.name.as_str())?;
            let term = term_before(arguments(alloc, context, call, written)?);
            Ok(TheoremTac {
                index: tac.index,
                name,
                term,
            })
        }
        Callee::Defined(_, _) => Err(unknown(alloc, call)?),
    }
}

// What is written before a theorem that is left out.
fn term_before(args: TacArgs) -> Option<Term>
    ensures { option_map (nameless []) result ≡ term_before (args_value args) }
{
    match args {
        TacArgs::Term(term) => Some(term),
        TacArgs::Nothing
        | TacArgs::Pair(_, _)
        | TacArgs::Theorem(_)
        | TacArgs::TermAndTheorem(_, _)
        | TacArgs::Theorems(_) => None,
    }
}

// A call of nothing that is known.
fn unknown(alloc: Global, call: &written::TacCall) -> Result<Unresolved, AllocError>
    ensures { IfOk result (IsRefusal (RefusalKind.UnknownTac, call.now.name)) }
{
    let name = String::from_str(alloc, call.name.as_str())?;
    Ok(Unresolved::Refused(RefusalKind::UnknownTac, name))
}

// The arguments of a call, as they are written.
fn arguments(
    alloc: Global,
    context: &Context<'_>,
    call: &written::TacCall,
    written: WrittenArgs<'_>,
) -> Result<TacArgs, Unresolved>
    requires { IsContext context.now }
    ensures { AreArgumentsFound (arguments_for context.now.basis.now context.now.reads.now.cited (readings_value context.now.readings.now) call.now.name (written_value written.entry)) result }
{
    match arguments_given(
        alloc,
        written,
        context.theorems,
        context.readings,
        context.basis,
    )? {
        Ok(args) => Ok(args),
        Err(refusal) => Err(refused_by(alloc, call.name.as_str(), refusal)?),
    }
}

/// What is refused of readings and arguments, as the command is refused.
pub(crate) fn refused_by(
    alloc: Global,
    name: &str,
    refusal: Refusal,
) -> Result<Unresolved, AllocError>
    ensures { IfOk result (IsRefusal (refused_by name.now refusal)) }
{
    let (kind, arg) = match refusal {
        Refusal::WrongArity(place) => (RefusalKind::Arity, place.to_string(alloc)?),
        Refusal::NoTyping(place) => (RefusalKind::Untypable, place.to_string(alloc)?),
        Refusal::TooLarge => (RefusalKind::TooLarge, String::new(alloc)),
        Refusal::UnknownTheorem(theorem) => (
            RefusalKind::UnknownTheorem,
            String::from_str(alloc, theorem.as_str())?,
        ),
        Refusal::WrongArguments => (RefusalKind::UnknownTac, String::from_str(alloc, name)?),
        Refusal::BadRule(rule) => (RefusalKind::BadRule, String::from_str(alloc, rule.word())?),
    };
    Ok(Unresolved::Refused(kind, arg))
}

// The formula that a quotation reads as.
fn resolve_formula(
    alloc: Global,
    readings: &Readings,
    quotation: &Quotation,
) -> Result<Formula, Unresolved>
    ensures { IsFound (formula quotation.now.place (term_at (readings_value readings.now) quotation.now.place)) result }
{
    if let Some(term) = readings.term_at(quotation.place) {
        if is_statement(term) {
            return Ok(Formula::new(term.copy()?));
        }
    }
    let place = quotation.place.to_string(alloc)?;
    Err(Unresolved::Refused(RefusalKind::NotBool, place))
}
