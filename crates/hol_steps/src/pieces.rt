//! What pieces that are stripped become.
ghost use Rattle.std.specs.Prelude.{◌≡◌, ◌∷◌, ◌++◌, ◌||◌, List, map, IfOk, Some, []};
ghost use Rattle.std.specs.List.{list_any};
ghost use Rattle.hol_terms.specs.Named.{named_type};
ghost use Rattle.hol_terms.specs.Nameless.{Nameless, free, nameless};
ghost use Rattle.hol_terms.specs.Alpha.{alpha_eq};
ghost use Rattle.hol_subst.specs.Closing.{open_with};
ghost use Rattle.hol_formulas.specs.Equation.{bool_type};
ghost use Rattle.hol_formulas.specs.Formula.{is_truth, dest_conj, dest_disj, dest_exists};
ghost use Rattle.hol_kernel.specs.Given.{assumed};
ghost use Rattle.hol_just.specs.Leaving.{goal_terms};
ghost use Rattle.hol_goal.specs.Answer.{testing};
ghost use Rattle.hol_goal.specs.UsedView.{used_value};
ghost use Rattle.hol_just.specs.Strip.{AvoidedValue, avoiding, waiting, Conjuncts, Disjuncts, Property, Kept, plain_piece, piece};
ghost use Rattle.hol_just.specs.Justifies.{ClosesByGiven, ClosesByFalsity, LeavesConjuncts, LeavesCases, LeavesChosen};
ghost use Rattle.hol_steps.specs.Fresh.{AreAlike, AvoidAlike, IsNewBy, abstraction_of};
ghost use Rattle.hol_steps.specs.Parts.{AreParts, Becomes};

use crate::fresh::{FreshVariable, fresh_variable};
use crate::quantifiers::at_variable;
use crate::steps::assume;
use crate::waiting::Waiting;
use hol_formulas::{dest_conj, dest_disj, dest_exists, is_falsity, is_truth};
use hol_goal::{Goal, Names, Used};
use hol_just::{Just, assumption};
use hol_terms::{Term, Variable, add_copies};
use hol_types::Name;
use std::alloc::{AllocError, Global};

/// What pieces on a goal become, and why.
#[derive(Drop)]
pub(crate) struct Parts {
    /// What is to be stripped one after the other, the first last.
    pub(crate) waiting: Vec<Waiting>,
    /// Why, where the pieces are assumptions of their goals.
    pub(crate) just: Just,
    /// What may still be used.
    pub(crate) used: Used,
}

/// What pieces on a goal become, or a turn is to be paid and none is left.
#[derive(Drop)]
pub(crate) enum Becoming {
    Parts(Parts),
    /// The names that were tested before.
    RunsOut(Vec<Name>),
}

/// What a piece and those after it become. New names are those of nothing in the other terms, and of no constant.
pub(crate) fn becomes(
    alloc: Global,
    others: &[Term],
    names: &Names,
    formula: &Term,
    rest: Waiting,
    used: Used,
) -> Result<Becoming, AllocError>
    requires { named_type formula.now ≡ Some bool_type }
    ensures { IfOk result (Becomes (avoiding (map (nameless []) others.now) names.now) (nameless [] formula.now) rest (used_value used) (piece rest.goal (nameless [] formula.now))) }
{
    if let Some((p, q)) = dest_conj(formula) {
        return Ok(Becoming::Parts(conjuncts(alloc, formula, p, q, rest, used)?));
    }
    if let Some((p, q)) = dest_disj(formula) {
        return disjuncts(alloc, formula, p, q, rest, used);
    }
    if let Some((x, p)) = dest_exists(formula) {
        let parts = new_property(alloc, others, names, formula, x, p, rest, used)?;
        return Ok(Becoming::Parts(parts));
    }
    Ok(Becoming::Parts(plain(alloc, formula, rest, used)?))
}

// Both conjuncts are pieces.
fn conjuncts(
    alloc: Global,
    piece: &Term,
    p: &Term,
    q: &Term,
    rest: Waiting,
    used: Used,
) -> Result<Parts, AllocError>
    requires formula { named_type piece.now ≡ Some bool_type }
    requires first { named_type p.now ≡ Some bool_type }
    requires second { named_type q.now ≡ Some bool_type }
    requires parts { dest_conj (nameless [] piece.now) ≡ Some (nameless [] p.now, nameless [] q.now) }
    ensures { IfOk result (λ parts. (avoided : AvoidedValue) → AreParts avoided (nameless [] piece.now) rest (used_value used) (Conjuncts (nameless [] p.now) (nameless [] q.now)) parts) }
{
    let just = taking_apart(alloc, piece)?;
    let mut rest = rest;
    rest.put(q)?;
    rest.put(p)?;
    one_part(alloc, rest, just, used)
}

// Why both conjuncts are assumed.
fn taking_apart(alloc: Global, piece: &Term) -> Result<Just, AllocError>
    requires { named_type piece.now ≡ Some bool_type }
    ensures { IfOk result (λ just. LeavesConjuncts (assumed (nameless [] piece.now)) just) }
{
    let given = assumption(piece)?;
    let just = Just::conjuncts(alloc, &given);
    drop(given);
    just
}

// Each disjunct is a piece, on a goal of its own, which costs a turn.
fn disjuncts(
    alloc: Global,
    piece: &Term,
    p: &Term,
    q: &Term,
    rest: Waiting,
    used: Used,
) -> Result<Becoming, AllocError>
    requires formula { named_type piece.now ≡ Some bool_type }
    requires first { named_type p.now ≡ Some bool_type }
    requires second { named_type q.now ≡ Some bool_type }
    requires parts { dest_disj (nameless [] piece.now) ≡ Some (nameless [] p.now, nameless [] q.now) }
    ensures { (others : AvoidedValue) → IfOk result (Becomes others (nameless [] piece.now) rest (used_value used) (Disjuncts (nameless [] p.now) (nameless [] q.now))) }
{
    let Used {
        left: turns,
        tested,
    } = used;
    if turns == 0 {
        return Ok(Becoming::RunsOut(tested));
    }
    let used = Used {
        left: turns - 1,
        tested,
    };
    Ok(Becoming::Parts(cases(alloc, piece, p, q, rest, used)?))
}

// Each disjunct is a piece, where the turn is paid.
fn cases(
    alloc: Global,
    piece: &Term,
    p: &Term,
    q: &Term,
    rest: Waiting,
    used: Used,
) -> Result<Parts, AllocError>
    requires formula { named_type piece.now ≡ Some bool_type }
    requires first { named_type p.now ≡ Some bool_type }
    requires second { named_type q.now ≡ Some bool_type }
    ensures waiting { IfOk result (λ parts. parts.waiting.items ≡ waiting (nameless [] q.now ∷ rest.pieces) rest.goal ∷ waiting (nameless [] p.now ∷ rest.pieces) rest.goal ∷ []) }
    ensures just { IfOk result (λ parts. LeavesCases (assumed (nameless [] piece.now)) parts.just) }
    ensures used { IfOk result (λ parts. used_value parts.used ≡ used_value used) }
{
    let left = copy_with(alloc, &rest, p)?;
    let mut right = rest;
    right.put(q)?;
    let just = splitting(alloc, piece)?;
    two_parts(alloc, left, right, just, used)
}

// Equal pieces on an equal goal, with one before them.
fn copy_with(alloc: Global, rest: &Waiting, piece: &Term) -> Result<Waiting, AllocError>
    requires { named_type piece.now ≡ Some bool_type }
    ensures { IfOk result (λ w. w ≡ waiting (nameless [] piece.now ∷ rest.now.pieces) rest.now.goal) }
{
    let mut copy = rest.copy(alloc)?;
    copy.put(piece)?;
    Ok(copy)
}

// Why either disjunct is assumed.
fn splitting(alloc: Global, piece: &Term) -> Result<Just, AllocError>
    requires { named_type piece.now ≡ Some bool_type }
    ensures { IfOk result (λ just. LeavesCases (assumed (nameless [] piece.now)) just) }
{
    let given = assumption(piece)?;
    let just = Just::disj_cases_tac(alloc, &given);
    drop(given);
    just
}

// What is said to exist is a piece, at a variable of a new name, that of nothing in the pieces, the goal and the others.
fn new_property(
    alloc: Global,
    others: &[Term],
    names: &Names,
    piece: &Term,
    x: &Variable,
    p: &Term,
    rest: Waiting,
    used: Used,
) -> Result<Parts, AllocError>
    requires formula { named_type piece.now ≡ Some bool_type }
    requires body { named_type p.now ≡ Some bool_type }
    requires parts { dest_exists (nameless [] piece.now) ≡ Some (abstraction_of x.now p.now) }
    ensures { IfOk result (λ parts. (avoided : AvoidedValue) → AvoidAlike (avoiding (map (nameless []) others.now) names.now) avoided → AreParts avoided (nameless [] piece.now) rest (used_value used) (Property (abstraction_of x.now p.now)) parts) }
{
    let v = new_variable(alloc, others, names, piece, x, &rest)?;
    property(alloc, piece, x, p, v, rest, used)
}

// What is said to exist is a piece, at the variable, for whose new name names were tested.
fn property(
    alloc: Global,
    piece: &Term,
    x: &Variable,
    p: &Term,
    v: FreshVariable,
    rest: Waiting,
    used: Used,
) -> Result<Parts, AllocError>
    requires formula { named_type piece.now ≡ Some bool_type }
    requires body { named_type p.now ≡ Some bool_type }
    requires parts { dest_exists (nameless [] piece.now) ≡ Some (abstraction_of x.now p.now) }
    requires typed { v.variable.1 ≡ x.now.1 }
    ensures { IfOk result (λ parts. (avoided : AvoidedValue) → IsNewBy avoided (nameless [] piece.now) rest x.now v.variable v.tested.items → AreParts avoided (nameless [] piece.now) rest (used_value used) (Property (abstraction_of x.now p.now)) parts) }
{
    let FreshVariable { variable, tested } = v;
    let used = tested_more(used, tested)?;
    let just = choosing(alloc, &variable, piece)?;
    property_part(alloc, x, p, &variable, rest, just, used)
}

// The property of the variable is the first piece.
fn property_part(
    alloc: Global,
    x: &Variable,
    p: &Term,
    v: &Variable,
    rest: Waiting,
    just: Just,
    used: Used,
) -> Result<Parts, AllocError>
    requires body { named_type p.now ≡ Some bool_type }
    requires typed { v.now.1 ≡ x.now.1 }
    ensures waiting { IfOk result (λ parts. parts.waiting.items ≡ waiting (open_with (free v.now) 0 (nameless (x.now ∷ []) p.now) ∷ rest.pieces) rest.goal ∷ []) }
    ensures just { IfOk result (λ parts. parts.just ≡ just) }
    ensures used { IfOk result (λ parts. used_value parts.used ≡ used_value used) }
{
    let rest = with_property(alloc, x, p, v, rest)?;
    one_part(alloc, rest, just, used)
}

// The property of the variable before the other pieces.
fn with_property(
    alloc: Global,
    x: &Variable,
    p: &Term,
    v: &Variable,
    rest: Waiting,
) -> Result<Waiting, AllocError>
    requires body { named_type p.now ≡ Some bool_type }
    requires typed { v.now.1 ≡ x.now.1 }
    ensures { IfOk result (λ w. w ≡ waiting (open_with (free v.now) 0 (nameless (x.now ∷ []) p.now) ∷ rest.pieces) rest.goal) }
{
    let chosen = at_variable(alloc, x, p, v)?;
    let mut rest = rest;
    rest.put(&chosen)?;
    Ok(rest)
}

// Why the property of the variable is assumed.
fn choosing(alloc: Global, v: &Variable, piece: &Term) -> Result<Just, AllocError>
    requires { named_type piece.now ≡ Some bool_type }
    ensures { IfOk result (λ just. LeavesChosen v.now (assumed (nameless [] piece.now)) just) }
{
    let given = assumption(piece)?;
    let just = Just::choose_tac(alloc, v, &given);
    drop(given);
    just
}

// These names were tested too, after the others.
fn tested_more(used: Used, more: Vec<Name>) -> Result<Used, AllocError>
    ensures { IfOk result (λ u. used_value u ≡ testing more.items (used_value used)) }
{
    let Used { left, tested } = used;
    let mut tested = tested;
    let mut more = more;
    tested.append(&mut more)?;
    Ok(Used { left, tested })
}

// What is no such formula closes the goal, or is dropped, or is the newest assumption.
fn plain(alloc: Global, piece: &Term, rest: Waiting, used: Used) -> Result<Parts, AllocError>
    requires { named_type piece.now ≡ Some bool_type }
    ensures { IfOk result (λ parts. (avoided : AvoidedValue) → AreParts avoided (nameless [] piece.now) rest (used_value used) (plain_piece rest.goal (nameless [] piece.now)) parts) }
{
    if is_falsity(piece) {
        let just = contradicting(alloc, rest.goal().conclusion(), piece)?;
        return Ok(no_part(alloc, just, used));
    }
    if piece.alpha_equivalent(rest.goal().conclusion()) {
        let just = accepting(alloc, piece)?;
        return Ok(no_part(alloc, just, used));
    }
    if is_dropped(piece, rest.goal()) {
        return one_part(alloc, rest, Just::none(alloc), used);
    }
    kept(alloc, piece, rest, used)
}

// Why this conclusion is closed by the piece, `F`.
fn contradicting(alloc: Global, conclusion: &Term, piece: &Term) -> Result<Just, AllocError>
    requires { named_type piece.now ≡ Some bool_type }
    ensures { IfOk result (λ just. ClosesByFalsity (nameless [] conclusion.now) (assumed (nameless [] piece.now)) just) }
{
    let given = assumption(piece)?;
    let just = Just::contr_tac(alloc, conclusion, &given);
    drop(given);
    just
}

// Why a conclusion that is the piece is closed by it.
fn accepting(alloc: Global, piece: &Term) -> Result<Just, AllocError>
    requires { named_type piece.now ≡ Some bool_type }
    ensures { IfOk result (λ just. ClosesByGiven (assumed (nameless [] piece.now)) just) }
{
    let given = assumption(piece)?;
    let just = Just::accept_tac(alloc, &given);
    drop(given);
    just
}

// The piece is the newest assumption.
fn kept(alloc: Global, piece: &Term, rest: Waiting, used: Used) -> Result<Parts, AllocError>
    requires { named_type piece.now ≡ Some bool_type }
    ensures { IfOk result (λ parts. (avoided : AvoidedValue) → AreParts avoided (nameless [] piece.now) rest (used_value used) Kept parts) }
{
    let goal = assume(alloc, rest.goal(), piece, rest.goal().conclusion())?;
    one_part(alloc, rest.on(goal), Just::none(alloc), used)
}

// Whether the piece is `T`, or an assumption of the goal up to bound names.
fn is_dropped(piece: &Term, goal: &Goal) -> bool
    ensures { result ≡ (is_truth (nameless [] piece.now) || list_any (alpha_eq (nameless [] piece.now)) goal.now.assumptions) }
{
    is_truth(piece) || is_one_of(piece, goal.assumptions())
}

// Whether the term is one of the list up to bound names.
fn is_one_of(term: &Term, list: &[Term]) -> bool
    ensures { result ≡ list_any (alpha_eq (nameless [] term.now)) (map (nameless []) list.now) }
{
    for p in list {
        if term.alpha_equivalent(p) {
            return true;
        }
    }
    false
}

// A variable of the type of `x` and a new name, that of nothing in the pieces, the goal and the others.
fn new_variable(
    alloc: Global,
    others: &[Term],
    names: &Names,
    piece: &Term,
    x: &Variable,
    rest: &Waiting,
) -> Result<FreshVariable, AllocError>
    ensures { IfOk result (λ v. (avoided : AvoidedValue) → AvoidAlike (avoiding (map (nameless []) others.now) names.now) avoided → IsNewBy avoided (nameless [] piece.now) rest.now x.now v.variable v.tested.items) }
{
    let avoid = all_terms(alloc, others, piece, rest)?;
    fresh_variable(alloc, names, avoid.as_slice(), x)
}

// Copies of all terms of the pieces, the goal and the others.
fn all_terms(
    alloc: Global,
    others: &[Term],
    piece: &Term,
    rest: &Waiting,
) -> Result<Vec<Term>, AllocError>
    ensures { IfOk result (λ terms. (others' : List Nameless) → AreAlike (map (nameless []) others.now) others' → AreAlike (map (nameless []) terms.items) (others' ++ ((nameless [] piece.now ∷ rest.now.pieces) ++ goal_terms rest.now.goal))) }
{
    let mut terms = Vec::new(alloc);
    rest.add_terms(&mut terms)?;
    terms.push(piece.copy()?)?;
    add_copies(&mut terms, others)?;
    Ok(terms)
}

// Nothing is to be stripped any more.
fn no_part(alloc: Global, just: Just, used: Used) -> Parts
    ensures waiting { result.waiting.items ≡ [] }
    ensures just { result.just ≡ just }
    ensures used { used_value result.used ≡ used_value used }
{
    Parts {
        waiting: Vec::new(alloc),
        just,
        used,
    }
}

// This is to be stripped.
fn one_part(alloc: Global, first: Waiting, just: Just, used: Used) -> Result<Parts, AllocError>
    ensures waiting { IfOk result (λ parts. parts.waiting.items ≡ first ∷ []) }
    ensures just { IfOk result (λ parts. parts.just ≡ just) }
    ensures used { IfOk result (λ parts. used_value parts.used ≡ used_value used) }
{
    let mut waiting = Vec::new(alloc);
    waiting.push(first)?;
    Ok(Parts {
        waiting,
        just,
        used,
    })
}

// These two are to be stripped, one after the other.
fn two_parts(
    alloc: Global,
    first: Waiting,
    second: Waiting,
    just: Just,
    used: Used,
) -> Result<Parts, AllocError>
    ensures waiting { IfOk result (λ parts. parts.waiting.items ≡ second ∷ first ∷ []) }
    ensures just { IfOk result (λ parts. parts.just ≡ just) }
    ensures used { IfOk result (λ parts. used_value parts.used ≡ used_value used) }
{
    let mut waiting = Vec::new(alloc);
    waiting.push(second)?;
    waiting.push(first)?;
    Ok(Parts {
        waiting,
        just,
        used,
    })
}
