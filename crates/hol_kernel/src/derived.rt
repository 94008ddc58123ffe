//! Rules of equal.ml and bool.ml that are made at once: each gives exactly what the primitive rules give, one after the other, and has their
//! derivation. The theorems between aren't made.
ghost use Rattle.std.specs.Prelude.{◌≡◌, [], IfOk, IsSome, Some};
ghost use Rattle.std.specs.FinSet as set;
ghost use Rattle.std.specs.Option.{option_map};
ghost use Rattle.hol_types.specs.Fun.{fun_type};
ghost use Rattle.hol_terms.specs.Alpha.{strip};
ghost use Rattle.hol_terms.specs.Named.{comb, named_type};
ghost use Rattle.hol_terms.specs.Nameless.{nameless};
ghost use Rattle.hol_formulas.specs.Equation.{bool_type, dest_eq, equation, mk_eq};
ghost use Rattle.hol_kernel.specs.Rules.{mk_comb_of, reflexive};
ghost use Rattle.hol_kernel.specs.Sequent.{sequent_of};
ghost use Rattle.hol_kernel.specs.Theorem.{over, theorem_over};
ghost use Rattle.hol_kernel.specs.Typing.{HasType};

use crate::basis::Basis;
use crate::thm::Thm;
use hol_formulas::{Sides, dest_eq};
use hol_terms::Term;
use hol_types::Ty;
use std::alloc::{AllocError, Global};

impl Thm {
    /// PROVE_HYP (bool.ml): from `A |- p` and `B |- q`, `A u (B - p) |- q`. It is EQ_MP of DEDUCT_ANTISYM_RULE of the two and of the first.
    /// It applies to any two theorems.
    pub fn prove_hyp(alloc: Global, a: &Thm, b: &Thm) -> Result<Thm, AllocError>
        requires one_basis { a.now.basis ≡ b.now.basis }
        ensures { IfOk result (λ th. th ≡ theorem_over a.now.basis (set.union a.now.sequent.hyps (set.remove b.now.sequent.hyps (strip a.now.sequent.concl))) b.now.sequent.concl) }
    {
        a.promise();
        b.promise();
        let rest = b.hypotheses().without(alloc, a.concl())?;
        let hyps = a.hypotheses().union(alloc, &rest)?;
        let concl = b.concl().copy()?;
        Thm::closed(a.basis(), hyps, concl)
    }

    /// SYM (equal.ml), of an equation: from `s = t`, `t = s`. It is EQ_MP of MK_COMB of MK_COMB of REFL of `=` and of the theorem and of REFL
    /// of `s`, and of that REFL.
    pub fn sym(alloc: Global, a: &Thm) -> Result<Thm, AllocError>
        requires equation { IsSome (dest_eq a.now.sequent.concl) }
        ensures { IfOk result (λ th. over a.now.basis (option_map (λ x. sequent_of a.now.sequent.hyps (equation x.sides_type x.right x.left)) (dest_eq a.now.sequent.concl)) ≡ Some th) }
    {
        a.promise();
        a.well_typed();
        let Some(x) = dest_eq(a.concl()) else {
            unreachable!()
        };
        let concl = a.basis().equation(alloc, x.ty, x.right, x.left)?;
        let hyps = a.hypotheses().copy()?;
        Thm::closed(a.basis(), hyps, concl)
    }

    /// AP_TERM (equal.ml), for a function of the type that fits: from `s = t`, `f s = f t`. It is MK_COMB of REFL of `f` and of the theorem.
    pub fn ap_term(alloc: Global, ty: &Ty, f: &Term, a: &Thm) -> Result<Thm, AllocError>
        requires typed { HasType a.now.basis (nameless [] f.now) ty.now }
        requires fits { IsSome (mk_comb_of (reflexive (nameless [] f.now) ty.now) a.now.sequent) }
        ensures { IfOk result (λ th. over a.now.basis (mk_comb_of (reflexive (nameless [] f.now) ty.now) a.now.sequent) ≡ Some th) }
    {
        a.promise();
        let Some(x) = dest_eq(a.concl()) else {
            unreachable!()
        };
        let Some((_domain, range)) = ty.dest_fun() else {
            unreachable!()
        };
        let concl = images(alloc, a.basis(), f, x, range)?;
        let same = a.hypotheses().copy()?;
        Thm::closed(a.basis(), same, concl)
    }
}

// The equation of the applications of `f`, which is a function to `range`, to the sides.
#[tactic(auto, using(hol_formulas::proofs::PartTypes::applications))]
fn images(
    alloc: Global,
    basis: &Basis,
    f: &Term,
    x: Sides<'_>,
    range: &Ty,
) -> Result<Term, AllocError>
    requires function { named_type f.now ≡ Some (fun_type x.ty.now range.now) }
    requires left { named_type x.left.now ≡ Some x.ty.now }
    requires right { named_type x.right.now ≡ Some x.ty.now }
    ensures is { IfOk result (λ t. t ≡ mk_eq range.now (comb f.now x.entry.left.now) (comb f.now x.entry.right.now)) }
    ensures typed { IfOk result (λ t. named_type t ≡ Some bool_type) }
{
    let left = Term::application_to(alloc, f, x.left, range)?;
    let right = Term::application_to(alloc, f, x.right, range)?;
    basis.equation(alloc, range, &left, &right)
}
