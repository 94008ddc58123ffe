//! Instantiation of type variables in terms.
ghost use Rattle.std.specs.Prelude.{◌≡◌, ◌⊎◌, ◌&&◌, ◌||◌, not, ◌∷◌, ◌++◌, [], map, IfOk, OnOk, MatchOption, List, ℕ};
ghost use Rattle.hol_types.specs.Tree.{TypeTree};
ghost use Rattle.hol_types.specs.Subst.{type_subst};
ghost use Rattle.hol_types.specs.Equal.{variable_eq};
ghost use Rattle.hol_terms.specs.Named.{var, constant};
ghost use Rattle.hol_terms.specs.Nameless.{nameless, base_of, free_occurrences};
ghost use Rattle.hol_terms.specs.Scope.{binders};
ghost use Rattle.hol_terms.specs.Scoped.{binds, add_all};
ghost use Rattle.hol_subst.specs.Substitution.{variable_inst, types_inst};
ghost use Rattle.hol_subst.specs.Substituted.{IsInst};
ghost use Rattle.hol_subst.specs.Marks.{HasPrimed};
ghost use Rattle.hol_subst.specs.Variant.{is_free_in, IsVariant};
ghost use Rattle.hol_subst.specs.Renaming.{image, images_without, images_of, is_alike, is_alike_in, KeepsTypes, KeepsBases, IsInstance, HasRenamed};
ghost use Rattle.hol_types.specs.Filter.{name_bit};
ghost use Rattle.std.specs.Int.RustNames.{bit_or};

use crate::rebuilt::{changed_abstraction, changed_application, changed_twice, operator};
use crate::types::Types;
use crate::variants::variant;
use hol_terms::{Scope, Term, TermNode, Variable, base_name, contains};
use hol_types::{Name, NameFilter, Ty};
use std::alloc::{AllocError, Global};

// A bound variable, its name without the primes at the end, and a set that has this with any number of primes.
#[derive(Clone, Copy)]
struct Alike<'a> {
    v: &'a Variable,
    base: &'a str,
    primed: NameFilter,
}

/// The term with types for its type variables, of which the first pair of a name counts.
///
/// A bound variable is renamed, by `variant`, where another free variable of its body would become equal to it, and nowhere else.
/// Parts that stay as they are are shared with the term.
pub fn inst(alloc: Global, pairs: &[(Ty, Name)], t: &Term) -> Result<Term, AllocError>
    ensures ok { IfOk result (λ r. nameless [] r ≡ types_inst pairs.now (nameless [] t.now)) }
    ensures named { IfOk result (λ r. IsInst pairs.now t.now r) }
{
    inst_by(alloc, &mut Types::new(pairs), t)
}

// The term with these types for its type variables.
#[tactic(auto, using(crate::proofs::InstSteps::instance_outside, crate::proofs::Kept::none_renamed))]
fn inst_by(alloc: Global, types: &mut Types<'_>, t: &Term) -> Result<Term, AllocError>
    ensures ok { IfOk result (λ r. nameless [] r ≡ types_inst types.old (nameless [] t.now)) }
    ensures named { IfOk result (λ r. IsInst types.old t.now r) }
    ensures kept { types.new ≡ types.old }
{
    let none = NameFilter::empty();
    changed(alloc, types, &Scope::Outside, &Scope::Outside, none, t)
}

/// The terms with types for their type variables, each as [`inst`] gives it.
pub(crate) fn inst_all(
    alloc: Global,
    pairs: &[(Ty, Name)],
    terms: &[Term],
) -> Result<Vec<Term>, AllocError>
    ensures { IfOk result (λ rs. map (λ r. nameless [] r) rs.items ≡ map (λ p. types_inst pairs.now (nameless [] p)) terms.now) }
{
    let mut types = Types::new(pairs);
    let mut instances = Vec::new(alloc);
    for term in terms {
        instances.push(inst_by(alloc, &mut types, term)?)?;
    }
    Ok(instances)
}

// The instance of the term under the old binders, where the new ones stand for these. The names of the binders that were renamed are among
// `renamed`: a part with none of these and none of the pairs' keeps its nodes.
//
// A level of the term takes as little of the stack as it can: a goal may have 8,000.
#[cycle(changed)]
fn changed(
    alloc: Global,
    types: &mut Types<'_>,
    old: &Scope,
    new: &Scope,
    renamed: NameFilter,
    t: &Term,
) -> Result<Term, AllocError>
    requires types { KeepsTypes types.old (binders old.now) (binders new.now) }
    requires bases { KeepsBases (binders old.now) (binders new.now) }
    requires renamed { HasRenamed types.old (binders old.now) (binders new.now) renamed.bits }
    ensures is { IfOk result (λ r. IsInstance types.old (binders old.now) (binders new.now) t.now r) }
    ensures kept { types.new ≡ types.old }
{
    if !t.type_filter().meets(types.names()) && !t.filter().meets(renamed) {
        return t.copy();
    }
    match t.node() {
        TermNode::Var(v) => changed_variable(alloc, types, old, new, t, v),
        TermNode::Const(c, ty) => changed_constant(alloc, types, t, c, ty),
        TermNode::Comb(f, x) => {
            let y = changed(alloc, types, old, new, renamed, x)?;
            if let Some(h) = operator(f, x) {
                let k = changed(alloc, types, old, new, renamed, h)?;
                return changed_twice(alloc, t, f, h, k, x, y);
            }
            let g = changed(alloc, types, old, new, renamed, f)?;
            changed_application(alloc, t, f, g, x, y)
        }
        TermNode::Abs(v, b) => {
            let u = new_binder(alloc, types, old, new, v, b)?;
            let inside_old = &Scope::Inside(v, &*old);
            let inside_new = &Scope::Inside(&u, &*new);
            let renamed = with_binder(renamed, v, &u);
            let c = changed(alloc, types, inside_old, inside_new, renamed, b)?;
            changed_abstraction(alloc, t, v, &u, b, c)
        }
    }
}

// The names of the renamed binders, with that of `v` unless `u`, which stands for it, is the same.
fn with_binder(renamed: NameFilter, v: &Variable, u: &Variable) -> NameFilter
    ensures { ((u.now ≡ v.now) × (result.bits ≡ renamed.bits)) ⊎ (result.bits ≡ bit_or renamed.bits (name_bit v.now.0)) }
{
    if u.same(v) {
        renamed
    } else {
        renamed.union(v.filter())
    }
}

// What stands for the variable, as a term: `t`, which is it, where it stays.
#[inline(never)]
fn changed_variable(
    alloc: Global,
    types: &mut Types<'_>,
    old: &Scope,
    new: &Scope,
    t: &Term,
    v: &Variable,
) -> Result<Term, AllocError>
    requires { t.now ≡ var v.now }
    ensures is { IfOk result (λ r. r ≡ var (image types.old (binders old.now) (binders new.now) v.now)) }
    ensures kept { types.new ≡ types.old }
{
    let u = image(alloc, types, old, new, v)?;
    if u.same(v) {
        return t.copy();
    }
    Term::var(alloc, &u)
}

// The instance of the constant: `t`, which is it, where its type stays.
#[inline(never)]
fn changed_constant(
    alloc: Global,
    types: &mut Types<'_>,
    t: &Term,
    c: &Name,
    ty: &Ty,
) -> Result<Term, AllocError>
    requires { t.now ≡ constant c.now ty.now }
    ensures is { IfOk result (λ r. r ≡ constant c.now (type_subst types.old ty.now)) }
    ensures kept { types.new ≡ types.old }
{
    let new_ty = types.instance(alloc, ty)?;
    if new_ty.same(ty) {
        return t.copy();
    }
    Term::constant(alloc, c, &new_ty)
}

// The variable that is bound in the instance of an abstraction: nothing that stands for another free variable of its body.
#[inline(never)]
fn new_binder(
    alloc: Global,
    types: &mut Types<'_>,
    old: &Scope,
    new: &Scope,
    v: &Variable,
    body: &Term,
) -> Result<Variable, AllocError>
    requires { KeepsBases (binders old.now) (binders new.now) }
    ensures is { IfOk result (λ u. IsVariant (map (λ t. nameless [] t) (images_without types.old (binders old.now) (binders new.now) v.now (add_all [] (free_occurrences (nameless [] body.now))))) (variable_inst types.old v.now) u) }
    ensures kept { types.new ≡ types.old }
{
    let others = other_images(alloc, types, old, new, v, body)?;
    let own = instance(alloc, types, v)?;
    variant(alloc, &others, &own)
}

// What stands for the free variables of the body other than the bound one, as terms, as far as a variant of that one may meet it.
fn other_images(
    alloc: Global,
    types: &mut Types<'_>,
    old: &Scope,
    new: &Scope,
    v: &Variable,
    body: &Term,
) -> Result<Vec<Term>, AllocError>
    requires { KeepsBases (binders old.now) (binders new.now) }
    ensures is { IfOk result (λ ts. (u : List ℕ × TypeTree) → base_of u.0 ≡ base_of v.now.0 → is_free_in (map (λ t. nameless [] t) ts.items) u ≡ is_free_in (map (λ t. nameless [] t) (images_without types.old (binders old.now) (binders new.now) v.now (add_all [] (free_occurrences (nameless [] body.now))))) u) }
    ensures kept { types.new ≡ types.old }
{
    let base = base_name(v.name().as_str());
    let primed = NameFilter::of_primed(base);
    let mut found = Vec::new(alloc);
    add_alike(
        &Alike { v, base, primed },
        &Scope::Outside,
        body,
        &mut found,
    )?;
    images(alloc, types, old, new, &found)
}

// Puts each variable alike that is free in the term, and not there yet, at the end. Of the binders that were passed only those that are
// alike bind one. A part that has none of their places is passed over.
#[tactic(auto, using(crate::proofs::AlikeFilters::none_alike))]
fn add_alike(
    alike: &Alike<'_>,
    inner: &Scope,
    t: &Term,
    found: &mut Vec<Variable>,
) -> Result<(), AllocError>
    requires base { alike.now.base.now ≡ base_of alike.now.v.now.0 }
    requires primed { HasPrimed alike.now.primed.bits (base_of alike.now.v.now.0) }
    ensures { OnOk result ((w : List ℕ × TypeTree) → binds found.new.items w ≡ (binds found.old.items w || is_alike_in alike.now.v.now (binders inner.now) t.now w)) }
{
    if !t.filter().meets(alike.primed) {
        return Ok(());
    }
    match t.node() {
        TermNode::Var(w) => add_variable(alike, inner, w, found),
        TermNode::Const(_, _) => Ok(()),
        TermNode::Comb(f, x) => {
            add_alike(alike, inner, f, found)?;
            add_alike(alike, inner, x, found)
        }
        TermNode::Abs(l, b) => {
            if is_alike(alike, l) {
                return add_alike(alike, &Scope::Inside(l, &*inner), b, found);
            }
            add_alike(alike, inner, b, found)
        }
    }
}

// Puts the variable at the end, if it is alike, free under the binders, and not there yet.
fn add_variable(
    alike: &Alike<'_>,
    inner: &Scope,
    w: &Variable,
    found: &mut Vec<Variable>,
) -> Result<(), AllocError>
    requires { alike.now.base.now ≡ base_of alike.now.v.now.0 }
    ensures { OnOk result ((u : List ℕ × TypeTree) → binds found.new.items u ≡ (binds found.old.items u || is_alike_in alike.now.v.now (binders inner.now) (var w.now) u)) }
{
    if is_new(alike, inner, w, found) {
        found.push(w.copy()?)?;
    }
    Ok(())
}

// Whether the variable is alike, free under the binders, and none of those that were found.
fn is_new(alike: &Alike<'_>, inner: &Scope, w: &Variable, found: &[Variable]) -> bool
    requires { alike.now.base.now ≡ base_of alike.now.v.now.0 }
    ensures { result ≡ (is_alike alike.now.v.now w.now && (not (binds found.now w.now) && not (binds (binders inner.now) w.now))) }
{
    is_alike(alike, w) && !contains(found, w) && !is_bound(inner, w)
}

// Whether one of the binders is the variable.
fn is_bound(inner: &Scope, w: &Variable) -> bool
    ensures { result ≡ binds (binders inner.now) w.now }
{
    match inner {
        Scope::Outside => false,
        Scope::Inside(l, outer) => are_same(l, w) || is_bound(outer, w),
    }
}

// Whether the two are the same: as `Variable::same`, but most that differ are told apart by the places of their names.
#[tactic(auto, using(crate::proofs::Alike::told_apart))]
fn are_same(v: &Variable, w: &Variable) -> bool
    ensures { result ≡ variable_eq v.now w.now }
{
    v.filter().same(w.filter()) && v.same(w)
}

// Whether it is another variable than the bound one, and differs from it in name by primes alone.
fn is_alike(alike: &Alike<'_>, w: &Variable) -> bool
    requires { alike.now.base.now ≡ base_of alike.now.v.now.0 }
    ensures { result ≡ is_alike alike.now.v.now w.now }
{
    base_name(w.name().as_str()) == alike.base && !w.same(alike.v)
}

// What stands for each of the variables, as terms.
fn images(
    alloc: Global,
    types: &mut Types<'_>,
    old: &Scope,
    new: &Scope,
    variables: &[Variable],
) -> Result<Vec<Term>, AllocError>
    ensures is { IfOk result (λ ts. ts.items ≡ images_of types.old (binders old.now) (binders new.now) variables.now) }
    ensures kept { types.new ≡ types.old }
{
    let mut images = Vec::new(alloc);
    for w in variables {
        push_image(alloc, &mut images, types, old, new, w)?;
    }
    Ok(images)
}

// Puts what stands for the variable at the end, as a term.
fn push_image(
    alloc: Global,
    images: &mut Vec<Term>,
    types: &mut Types<'_>,
    old: &Scope,
    new: &Scope,
    w: &Variable,
) -> Result<(), AllocError>
    ensures is { OnOk result (images.new.items ≡ images.old.items ++ var (image types.old (binders old.now) (binders new.now) w.now) ∷ []) }
    ensures kept { types.new ≡ types.old }
{
    let u = image(alloc, types, old, new, w)?;
    images.push(Term::var(alloc, &u)?)?;
    Ok(())
}

// What stands for the variable: the new binder where an old one binds it, and else its instance.
fn image(
    alloc: Global,
    types: &mut Types<'_>,
    old: &Scope,
    new: &Scope,
    v: &Variable,
) -> Result<Variable, AllocError>
    ensures is { IfOk result (λ u. u ≡ image types.old (binders old.now) (binders new.now) v.now) }
    ensures kept { types.new ≡ types.old }
{
    match standing(old, new, v) {
        Some(u) => u.copy(),
        None => instance(alloc, types, v),
    }
}

// The new binder that stands for the variable, where an old one binds it.
fn standing<'a>(old: &Scope, new: &Scope<'a>, v: &Variable) -> Option<&'a Variable>
    ensures { (pairs : List (TypeTree × List ℕ)) → MatchOption result (image pairs (binders old.now) (binders new.now) v.now ≡ variable_inst pairs v.now) (λ u. image pairs (binders old.now) (binders new.now) v.now ≡ u.now) }
{
    match (old, new) {
        (Scope::Outside, _) => None,
        (Scope::Inside(_, _), Scope::Outside) => None,
        (Scope::Inside(l, old), Scope::Inside(r, new)) => {
            if are_same(l, v) {
                Some(*r)
            } else {
                standing(old, new, v)
            }
        }
    }
}

// The variable with types for the variables of its type.
#[inline(never)]
fn instance(alloc: Global, types: &mut Types<'_>, v: &Variable) -> Result<Variable, AllocError>
    ensures is { IfOk result (λ u. u ≡ variable_inst types.old v.now) }
    ensures kept { types.new ≡ types.old }
{
    let ty = types.instance(alloc, v.ty())?;
    Variable::new(v.name(), &ty)
}
