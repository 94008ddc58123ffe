//! What a definition says of all arguments.
ghost use Rattle.std.specs.Prelude.{◌≡◌, [], ◌∷◌, IfOk};
ghost use Rattle.hol_types.specs.Tree.{TypeTree};
ghost use Rattle.hol_terms.specs.Nameless.{Nameless, free, nameless};
ghost use Rattle.hol_subst.specs.Variant.{IsVariant};
ghost use Rattle.hol_formulas.specs.Equation.{equation};
ghost use Rattle.hol_kernel.specs.Sequent.{no_hyps, sequent_of};
ghost use Rattle.hol_kernel.specs.Theorem.{theorem_on, theorem_over};
ghost use Rattle.hol_kernel.specs.Typing.{HasType};
ghost use Rattle.hol_derived.specs.Applied.{defining, unfolded};
ghost use Rattle.hol_definition.specs.ForAll.{for_all};

use hol_derived::applied::for_each;
use hol_derived::unfold;
use hol_formulas::dest_eq;
use hol_kernel::Thm;
use hol_subst::variant;
use hol_terms::{Term, TermNode, Variable};
use hol_types::Ty;
use std::alloc::{AllocError, Global};

/// From `l = \v1 .. vn. r`, `!v1 .. vn. l v1 .. vn = r`, for so many variables, or all that are abstracted if these are fewer.
pub fn for_all(alloc: Global, a: Thm, variables: usize) -> Result<Thm, AllocError>
    requires { (ty : TypeTree) × ((l : Nameless) × ((r : Nameless) × (a.sequent ≡ sequent_of no_hyps (equation ty l r)))) }
    ensures { (ty : TypeTree) (l r : Nameless) → a.sequent ≡ sequent_of no_hyps (equation ty l r) → IfOk result (λ th. th ≡ theorem_over a.basis no_hyps (for_all variables ty l r)) }
{
    a.well_typed();
    if variables == 0 {
        return Ok(a);
    }
    let Some(sides) = dest_eq(a.concl()) else {
        unreachable!()
    };
    match sides.right.node() {
        TermNode::Var(_) => Ok(a),
        TermNode::Const(_, _) => Ok(a),
        TermNode::Comb(_, _) => Ok(a),
        TermNode::Abs(v, _) => {
            let Some((domain, range)) = sides.ty.dest_fun() else {
                unreachable!()
            };
            let own = fresh(alloc, v, sides.left, sides.right)?;
            let applied = at_variable(alloc, &a, domain, range, &own)?;
            let inner = for_all(alloc, applied, variables - 1)?;
            for_each(alloc, &own, &inner)
        }
    }
}

// The variable, or one with more primes that is free in neither term.
#[inline(never)]
fn fresh(alloc: Global, v: &Variable, left: &Term, right: &Term) -> Result<Variable, AllocError>
    ensures { IfOk result (λ w. IsVariant (nameless [] left.now ∷ nameless [] right.now ∷ []) v.now w) }
{
    let mut avoid = Vec::with_capacity(alloc, 2)?;
    avoid.push(left.copy()?)?;
    avoid.push(right.copy()?)?;
    variant(alloc, &avoid, v)
}

// What the definition says at the variable.
#[inline(never)]
fn at_variable(
    alloc: Global,
    a: &Thm,
    domain: &Ty,
    range: &Ty,
    own: &Variable,
) -> Result<Thm, AllocError>
    requires is { a.now.sequent.concl ≡ defining domain.now range.now a.now.sequent.concl }
    requires typed { HasType a.now.basis (free own.now) domain.now }
    ensures { IfOk result (λ th. th ≡ theorem_on a.now.basis (unfolded (free own.now) a.now.sequent)) }
{
    let x = Term::var(alloc, own)?;
    unfold(alloc, a, domain, range, &x)
}
