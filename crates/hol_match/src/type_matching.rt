//! Matching of types, where some type variables stay as they are.
ghost use Rattle.std.specs.Prelude.{◌≡◌, ◌++◌, ◌↔◌, IfOk, IsTrue, if◌then◌else◌, Some, None};
ghost use Rattle.hol_types.specs.Tree.{TyVar, type_list};
ghost use Rattle.hol_types.specs.Match.{match_type, match_types};
ghost use Rattle.hol_types.specs.Subst.{type_lookup};
ghost use Rattle.hol_types.specs.Equal.{type_eq};
ghost use Rattle.hol_match.specs.Fixed.{stays};

use crate::fixed::Fixed;
use hol_types::{Name, Ty, TyNode, type_in};
use std::alloc::AllocError;

/// Whether the pattern matches the target beside the pairs found so far. Those that it needs more are put at their end.
///
/// Parts without variables are compared as `same` does.
#[cycle(match_into)]
#[tactic(auto, using(crate::proofs::Lookups::type_steps))]
pub(crate) fn match_into(
    pattern: &Ty,
    fixed: &Fixed,
    target: &Ty,
    found: &mut Vec<(Ty, Name)>,
) -> Result<bool, AllocError>
    ensures { IfOk result (λ fits. match_type pattern.now ((stays fixed.now).types ++ found.old.items) target.now ≡ (if fits then Some ((stays fixed.now).types ++ found.new.items) else None)) }
{
    if pattern.filter().is_empty() {
        return Ok(pattern.same(target));
    }
    match (pattern.node(), target.node()) {
        (TyNode::Var(name), _) => variable_into(name, fixed, target, found),
        (TyNode::App(_, _), TyNode::Var(_)) => Ok(false),
        (TyNode::App(c, ts), TyNode::App(d, us)) => {
            if !c.same(d) {
                return Ok(false);
            }
            match_arguments(ts, fixed, us, found)
        }
    }
}

// The same of the arguments of a constructor.
#[cycle(match_into)]
#[tactic(auto, using(crate::proofs::Lookups::argument_steps))]
fn match_arguments(
    ts: &[Ty],
    fixed: &Fixed,
    us: &[Ty],
    found: &mut Vec<(Ty, Name)>,
) -> Result<bool, AllocError>
    ensures { IfOk result (λ fits. match_types (type_list ts.now) ((stays fixed.now).types ++ found.old.items) (type_list us.now) ≡ (if fits then Some ((stays fixed.now).types ++ found.new.items) else None)) }
{
    for (i, t) in ts.iter().enumerate() {
        let Some(u) = us.get(i) else {
            return Ok(false);
        };
        if !match_into(t, fixed, u, found)? {
            return Ok(false);
        }
    }
    Ok(us.len() <= ts.len())
}

// The same of a type variable.
#[tactic(auto, using(crate::proofs::Lookups::lookups))]
fn variable_into(
    name: &Name,
    fixed: &Fixed,
    target: &Ty,
    found: &mut Vec<(Ty, Name)>,
) -> Result<bool, AllocError>
    ensures { IfOk result (λ fits. match_type (TyVar name.now) ((stays fixed.now).types ++ found.old.items) target.now ≡ (if fits then Some ((stays fixed.now).types ++ found.new.items) else None)) }
{
    if fixed.has_name(name) {
        return Ok(is_type_variable(target, name));
    }
    match type_in(found, name) {
        Some(earlier) => Ok(earlier.same(target)),
        None => {
            found.push((target.copy()?, name.copy()?))?;
            Ok(true)
        }
    }
}

// Whether the type is the type variable of this name.
fn is_type_variable(ty: &Ty, name: &Name) -> bool
    ensures { result ≡ type_eq (TyVar name.now) ty.now }
{
    match ty.node() {
        TyNode::Var(other) => name.order(other).is_eq(),
        TyNode::App(_, _) => false,
    }
}
