//! First-order matching of terms.
ghost use Rattle.std.specs.Prelude.{◌≡◌, ◌++◌, ◌∷◌, [], ℕ, false, length, map, IfOk, IfSome, IsNone, MatchOption, IsTrue, if◌then◌else◌, List, Some, None};
ghost use Rattle.std.specs.Option.{option_and_then};
ghost use Rattle.hol_types.specs.Tree.{TypeTree};
ghost use Rattle.hol_terms.specs.Named.{comb, abs, var, named_type};
ghost use Rattle.hol_terms.specs.Nameless.{nameless};
ghost use Rattle.hol_terms.specs.Scope.{binders};
ghost use Rattle.hol_terms.specs.Scoped.{same_named};
ghost use Rattle.hol_subst.specs.Substitution.{term_lookup};
ghost use Rattle.hol_formulas.specs.Equation.{dest_comb};
ghost use Rattle.hol_formulas.specs.Formula.{dest_abs};
ghost use Rattle.hol_match.specs.Instance.{both};
ghost use Rattle.hol_match.specs.Fixed.{stays, stays_of, fixed_variables};
ghost use Rattle.hol_match.specs.Lowering.{lowered};
ghost use Rattle.hol_match.specs.Matching.{matched, constant_meets, variable_meets, taken};
ghost use Rattle.hol_match.specs.Matches.{IsMostGeneral, HasNoMatch};
ghost use Rattle.hol_match.specs.Places.{has_one_of};
ghost use Rattle.hol_match.specs.Patterns.{is_apart};
ghost use Rattle.hol_match.specs.Rules.{pattern_variables};

use crate::fixed::Fixed;
use crate::instance::{Instance, is_variable};
use crate::rules;
use hol_terms::{Scope, Term, TermNode, Variable, same_place};
use hol_types::{Name, Ty};
use std::alloc::{AllocError, Global};

/// The free variables of the pattern that none of the terms `fixed` has, each once, in the order in which they occur.
pub fn pattern_variables(
    alloc: Global,
    fixed: &[Term],
    pattern: &Term,
) -> Result<Vec<Variable>, AllocError>
    ensures { IfOk result (λ vs. vs.items ≡ pattern_variables (fixed_variables [] (map (λ t. nameless [] t) fixed.now)) (nameless [] pattern.now)) }
{
    let fixed = Fixed::of(alloc, fixed)?;
    rules::pattern_variables(alloc, &fixed, pattern)
}

/// The instance of the pattern that is the term up to bound names, and `None` where there is none.
///
/// The type variables and the free variables of the terms `fixed` stay as they are. Each other free variable of the pattern takes the
/// term at its first place in preorder, no variable of which is bound in the pattern, and is met by an equal one, up to bound names, at
/// each further place. None of these has the name of another free variable of the pattern or of `fixed`, since two such variables could
/// come to have one type.
///
/// The two are walked together, each node at each place where it stands, up to the first difference.
#[tactic(auto, using(crate::proofs::Staying::answers))]
pub fn term_match(
    alloc: Global,
    fixed: &[Term],
    pattern: &Term,
    t: &Term,
) -> Result<Option<Instance>, AllocError>
    requires apart { IsTrue (is_apart (map (λ t. nameless [] t) fixed.now) (nameless [] pattern.now)) }
    ensures first { IfOk result (λ found. IfSome found (λ a. matched 0 (nameless [] pattern.now) (stays_of (map (λ t. nameless [] t) fixed.now)) (nameless [] t.now) ≡ Some (both (stays_of (map (λ t. nameless [] t) fixed.now)) a))) }
    ensures none { IfOk result (λ found. IsNone found → matched 0 (nameless [] pattern.now) (stays_of (map (λ t. nameless [] t) fixed.now)) (nameless [] t.now) ≡ None) }
    ensures general { IfOk result (λ found. IfSome found (λ a. IsMostGeneral (stays_of (map (λ t. nameless [] t) fixed.now)) (nameless [] pattern.now) (nameless [] t.now) a)) }
    ensures missing { IfOk result (λ found. IsNone found → HasNoMatch (stays_of (map (λ t. nameless [] t) fixed.now)) (nameless [] pattern.now) (nameless [] t.now)) }
{
    let fixed = Fixed::of(alloc, fixed)?;
    match_with(alloc, &fixed, pattern, t)
}

/// The same, where what is to stay is known.
pub(crate) fn match_with(
    alloc: Global,
    fixed: &Fixed,
    pattern: &Term,
    t: &Term,
) -> Result<Option<Instance>, AllocError>
    ensures first { IfOk result (λ found. IfSome found (λ a. matched 0 (nameless [] pattern.now) (stays fixed.now) (nameless [] t.now) ≡ Some (both (stays fixed.now) a))) }
    ensures none { IfOk result (λ found. IsNone found → matched 0 (nameless [] pattern.now) (stays fixed.now) (nameless [] t.now) ≡ None) }
{
    let mut found = Instance::empty(alloc);
    if match_into(
        alloc,
        fixed,
        pattern,
        &Scope::Outside,
        t,
        &Scope::Outside,
        &mut found,
    )? {
        return Ok(Some(found));
    }
    Ok(None)
}

// Whether the pattern under the binders `left` matches the term under `right` beside what was found so far. What it needs more is put
// at the end.
#[tactic(auto, using(crate::proofs::Places::bound_meets, crate::proofs::Places::free_meets))]
fn match_into(
    alloc: Global,
    fixed: &Fixed,
    pattern: &Term,
    left: &Scope,
    t: &Term,
    right: &Scope,
    found: &mut Instance,
) -> Result<bool, AllocError>
    requires depth { length (binders left.now) ≡ length (binders right.now) }
    ensures { IfOk result (λ fits. matched (length (binders right.now)) (nameless (binders left.now) pattern.now) (both (stays fixed.now) found.old) (nameless (binders right.now) t.now) ≡ (if fits then Some (both (stays fixed.now) found.new) else None)) }
{
    match pattern.node() {
        TermNode::Var(v) => {
            if left.binds(v) {
                return Ok(is_bound_alike(left, v, right, t));
            }
            variable_into(alloc, fixed, v, t, right, found)
        }
        TermNode::Const(c, ty) => constant_into(fixed, c, ty, t, found),
        TermNode::Comb(f, x) => {
            let Some((g, y)) = application(t) else {
                return Ok(false);
            };
            if !match_into(alloc, fixed, f, left, g, right, found)? {
                return Ok(false);
            }
            match_into(alloc, fixed, x, left, y, right, found)
        }
        TermNode::Abs(v, b) => {
            let Some((w, d)) = abstraction(t) else {
                return Ok(false);
            };
            if !found.match_type(fixed, v.ty(), w.ty())? {
                return Ok(false);
            }
            let left = &Scope::Inside(v, &*left);
            let right = &Scope::Inside(w, &*right);
            match_into(alloc, fixed, b, left, d, right, found)
        }
    }
}

// The parts of an application.
#[tactic(auto, using(crate::proofs::Places::variable_no_comb))]
fn application(t: &Term) -> Option<(&Term, &Term)>
    ensures { MatchOption result ((env : List (List ℕ × TypeTree)) → dest_comb (nameless env t.now) ≡ None) (λ p. t.now ≡ comb p.0.now p.1.now) }
{
    match t.node() {
        TermNode::Comb(f, x) => Some((f, x)),
        TermNode::Var(_) | TermNode::Const(_, _) | TermNode::Abs(_, _) => None,
    }
}

// The variable and the body of an abstraction.
#[tactic(auto, using(crate::proofs::Places::variable_no_abs))]
fn abstraction(t: &Term) -> Option<(&Variable, &Term)>
    ensures { MatchOption result ((env : List (List ℕ × TypeTree)) → dest_abs (nameless env t.now) ≡ None) (λ p. t.now ≡ abs p.0.now p.1.now) }
{
    match t.node() {
        TermNode::Abs(v, b) => Some((v, b)),
        TermNode::Var(_) | TermNode::Const(_, _) | TermNode::Comb(_, _) => None,
    }
}

// Whether the term is a variable that is bound at the same depth as `v`.
#[inline(never)]
fn is_bound_alike(left: &Scope, v: &Variable, right: &Scope, t: &Term) -> bool
    ensures { result ≡ same_named false (binders left.now) (var v.now) (binders right.now) t.now }
{
    match t.node() {
        TermNode::Var(w) => same_place(left, v, right, w),
        TermNode::Const(_, _) | TermNode::Comb(_, _) | TermNode::Abs(_, _) => false,
    }
}

// The match of a constant.
#[inline(never)]
#[tactic(auto, using(crate::proofs::Places::variable_no_constant))]
fn constant_into(
    fixed: &Fixed,
    c: &Name,
    ty: &Ty,
    t: &Term,
    found: &mut Instance,
) -> Result<bool, AllocError>
    ensures { IfOk result (λ fits. (env : List (List ℕ × TypeTree)) → constant_meets c.now ty.now (both (stays fixed.now) found.old) (nameless env t.now) ≡ (if fits then Some (both (stays fixed.now) found.new) else None)) }
{
    match t.node() {
        TermNode::Const(d, other) => {
            if !c.same(d) {
                return Ok(false);
            }
            found.match_type(fixed, ty, other)
        }
        TermNode::Var(_) | TermNode::Comb(_, _) | TermNode::Abs(_, _) => Ok(false),
    }
}

// The match of a variable that is not bound in the pattern.
#[inline(never)]
#[tactic(auto, using(crate::proofs::Places::taken_out))]
fn variable_into(
    alloc: Global,
    fixed: &Fixed,
    v: &Variable,
    t: &Term,
    right: &Scope,
    found: &mut Instance,
) -> Result<bool, AllocError>
    ensures { IfOk result (λ fits. option_and_then (λ u. variable_meets v.now (both (stays fixed.now) found.old) u) (lowered (length (binders right.now)) 0 (nameless (binders right.now) t.now)) ≡ (if fits then Some (both (stays fixed.now) found.new) else None)) }
{
    if has_one_of(right, t) {
        return Ok(false);
    }
    variable_takes(alloc, fixed, v, t, found)
}

// Whether one of the binders is free in the term.
fn has_one_of(scope: &Scope, t: &Term) -> bool
    ensures { result ≡ has_one_of (binders scope.now) t.now }
{
    match scope {
        Scope::Outside => false,
        Scope::Inside(u, outer) => t.vfree_in(u) || has_one_of(outer, t),
    }
}

// Whether the variable may take the term, or has taken it.
#[tactic(auto, using(crate::proofs::Lookups::meeting))]
fn variable_takes(
    alloc: Global,
    fixed: &Fixed,
    v: &Variable,
    t: &Term,
    found: &mut Instance,
) -> Result<bool, AllocError>
    ensures { IfOk result (λ fits. variable_meets v.now (both (stays fixed.now) found.old) (nameless [] t.now) ≡ (if fits then Some (both (stays fixed.now) found.new) else None)) }
{
    if !found.match_type(fixed, v.ty(), t.type_of())? {
        return Ok(false);
    }
    let u = Variable::new(v.name(), t.type_of())?;
    take(alloc, fixed, &u, t, found)
}

// The same, where `u` is the variable at the type that it has then.
fn take(
    alloc: Global,
    fixed: &Fixed,
    u: &Variable,
    t: &Term,
    found: &mut Instance,
) -> Result<bool, AllocError>
    requires typed { named_type t.now ≡ Some u.now.1 }
    ensures { IfOk result (λ fits. taken (term_lookup (both (stays fixed.now) found.old).terms u.now) (both (stays fixed.now) found.old) u.now (nameless [] t.now) ≡ (if fits then Some (both (stays fixed.now) found.new) else None)) }
{
    if fixed.has_variable(u) {
        return Ok(is_variable(t, u));
    }
    match found.term_of(u) {
        Some(earlier) => Ok(earlier.alpha_equivalent(t)),
        None => {
            found.add_term(alloc, t, u)?;
            Ok(true)
        }
    }
}
