//! The basic rewrites (theorems.ml).
ghost use Rattle.std.specs.Prelude.{◌≡◌, IfOk};
ghost use Rattle.hol_clauses.specs.Statements.{stated, refl_clause, eq_clauses, not_clauses_weak, and_clauses, or_clauses, imp_clauses};

use crate::stated::theorem;
use hol_formulas::Sort;
use hol_formulas::Written::{self, Applied, Connective, Constant, Equation, Quantified, Variable};
use hol_kernel::Thm;
use std::alloc::{AllocError, Global};

// The parts stand as constants, which a function borrows at no cost to its proof.

const TRUTH: Written<'static> = Constant("T", Sort::Truth);

const FALSITY: Written<'static> = Constant("F", Sort::Truth);

const ELEMENT: Written<'static> = Variable("x", Sort::Element);

const ITSELF: Written<'static> = Equation(Sort::Element, &ELEMENT, &ELEMENT);

const ITSELF_HOLDS: Written<'static> = Equation(Sort::Truth, &ITSELF, &TRUTH);

const REFL_CLAUSE: Written<'static> = Quantified("!", "x", Sort::Element, &ITSELF_HOLDS);

/// REFL_CLAUSE: `!x:A. x = x <=> T`.
pub fn refl_clause(alloc: Global) -> Result<Thm, AllocError>
    ensures { IfOk result (λ th. th ≡ stated refl_clause) }
{
    theorem(alloc, &REFL_CLAUSE)
}

const NOT: Written<'static> = Constant("~", Sort::Negation);

const NOT_TRUTH: Written<'static> = Applied(&NOT, &TRUTH);

const NOT_FALSITY: Written<'static> = Applied(&NOT, &FALSITY);

const NOT_TRUTH_IS_FALSITY: Written<'static> = Equation(Sort::Truth, &NOT_TRUTH, &FALSITY);

const NOT_FALSITY_IS_TRUTH: Written<'static> = Equation(Sort::Truth, &NOT_FALSITY, &TRUTH);

const NOT_CLAUSES_WEAK: Written<'static> = Connective(
    "/\\",
    &NOT_TRUTH_IS_FALSITY,
    &NOT_FALSITY_IS_TRUTH,
);

/// NOT_CLAUSES_WEAK: the rewrites of `~T` and `~F`.
#[tactic(auto, using(crate::proofs::Clauses::not_clauses_derived))]
pub fn not_clauses_weak(alloc: Global) -> Result<Thm, AllocError>
    ensures { IfOk result (λ th. th ≡ stated not_clauses_weak) }
{
    theorem(alloc, &NOT_CLAUSES_WEAK)
}

const T: Written<'static> = Variable("t", Sort::Truth);

const NOT_T: Written<'static> = Applied(&NOT, &T);

const TRUTH_EQ_T: Written<'static> = Equation(Sort::Truth, &TRUTH, &T);

const TRUTH_EQ_T_IS_T: Written<'static> = Equation(Sort::Truth, &TRUTH_EQ_T, &T);

const T_EQ_TRUTH: Written<'static> = Equation(Sort::Truth, &T, &TRUTH);

const T_EQ_TRUTH_IS_T: Written<'static> = Equation(Sort::Truth, &T_EQ_TRUTH, &T);

const FALSITY_EQ_T: Written<'static> = Equation(Sort::Truth, &FALSITY, &T);

const FALSITY_EQ_T_IS_NOT_T: Written<'static> = Equation(Sort::Truth, &FALSITY_EQ_T, &NOT_T);

const T_EQ_FALSITY: Written<'static> = Equation(Sort::Truth, &T, &FALSITY);

const T_EQ_FALSITY_IS_NOT_T: Written<'static> = Equation(Sort::Truth, &T_EQ_FALSITY, &NOT_T);

const EQ_FROM_THIRD: Written<'static> = Connective(
    "/\\",
    &FALSITY_EQ_T_IS_NOT_T,
    &T_EQ_FALSITY_IS_NOT_T,
);

const EQ_FROM_SECOND: Written<'static> = Connective("/\\", &T_EQ_TRUTH_IS_T, &EQ_FROM_THIRD);

const EQ_REWRITES: Written<'static> = Connective("/\\", &TRUTH_EQ_T_IS_T, &EQ_FROM_SECOND);

const EQ_CLAUSES: Written<'static> = Quantified("!", "t", Sort::Truth, &EQ_REWRITES);

/// EQ_CLAUSES: the rewrites of `<=>`.
pub fn eq_clauses(alloc: Global) -> Result<Thm, AllocError>
    ensures { IfOk result (λ th. th ≡ stated eq_clauses) }
{
    theorem(alloc, &EQ_CLAUSES)
}

const TRUTH_AND_T: Written<'static> = Connective("/\\", &TRUTH, &T);

const TRUTH_AND_T_IS_T: Written<'static> = Equation(Sort::Truth, &TRUTH_AND_T, &T);

const T_AND_TRUTH: Written<'static> = Connective("/\\", &T, &TRUTH);

const T_AND_TRUTH_IS_T: Written<'static> = Equation(Sort::Truth, &T_AND_TRUTH, &T);

const FALSITY_AND_T: Written<'static> = Connective("/\\", &FALSITY, &T);

const FALSITY_AND_T_IS_FALSITY: Written<'static> = Equation(Sort::Truth, &FALSITY_AND_T, &FALSITY);

const T_AND_FALSITY: Written<'static> = Connective("/\\", &T, &FALSITY);

const T_AND_FALSITY_IS_FALSITY: Written<'static> = Equation(Sort::Truth, &T_AND_FALSITY, &FALSITY);

const T_AND_T: Written<'static> = Connective("/\\", &T, &T);

const T_AND_T_IS_T: Written<'static> = Equation(Sort::Truth, &T_AND_T, &T);

const AND_FROM_FOURTH: Written<'static> = Connective(
    "/\\",
    &T_AND_FALSITY_IS_FALSITY,
    &T_AND_T_IS_T,
);

const AND_FROM_THIRD: Written<'static> = Connective(
    "/\\",
    &FALSITY_AND_T_IS_FALSITY,
    &AND_FROM_FOURTH,
);

const AND_FROM_SECOND: Written<'static> = Connective("/\\", &T_AND_TRUTH_IS_T, &AND_FROM_THIRD);

const AND_REWRITES: Written<'static> = Connective("/\\", &TRUTH_AND_T_IS_T, &AND_FROM_SECOND);

const AND_CLAUSES: Written<'static> = Quantified("!", "t", Sort::Truth, &AND_REWRITES);

/// AND_CLAUSES: the rewrites of `/\`.
pub fn and_clauses(alloc: Global) -> Result<Thm, AllocError>
    ensures { IfOk result (λ th. th ≡ stated and_clauses) }
{
    theorem(alloc, &AND_CLAUSES)
}

const TRUTH_OR_T: Written<'static> = Connective("\\/", &TRUTH, &T);

const TRUTH_OR_T_IS_TRUTH: Written<'static> = Equation(Sort::Truth, &TRUTH_OR_T, &TRUTH);

const T_OR_TRUTH: Written<'static> = Connective("\\/", &T, &TRUTH);

const T_OR_TRUTH_IS_TRUTH: Written<'static> = Equation(Sort::Truth, &T_OR_TRUTH, &TRUTH);

const FALSITY_OR_T: Written<'static> = Connective("\\/", &FALSITY, &T);

const FALSITY_OR_T_IS_T: Written<'static> = Equation(Sort::Truth, &FALSITY_OR_T, &T);

const T_OR_FALSITY: Written<'static> = Connective("\\/", &T, &FALSITY);

const T_OR_FALSITY_IS_T: Written<'static> = Equation(Sort::Truth, &T_OR_FALSITY, &T);

const T_OR_T: Written<'static> = Connective("\\/", &T, &T);

const T_OR_T_IS_T: Written<'static> = Equation(Sort::Truth, &T_OR_T, &T);

const OR_FROM_FOURTH: Written<'static> = Connective("/\\", &T_OR_FALSITY_IS_T, &T_OR_T_IS_T);

const OR_FROM_THIRD: Written<'static> = Connective("/\\", &FALSITY_OR_T_IS_T, &OR_FROM_FOURTH);

const OR_FROM_SECOND: Written<'static> = Connective("/\\", &T_OR_TRUTH_IS_TRUTH, &OR_FROM_THIRD);

const OR_REWRITES: Written<'static> = Connective("/\\", &TRUTH_OR_T_IS_TRUTH, &OR_FROM_SECOND);

const OR_CLAUSES: Written<'static> = Quantified("!", "t", Sort::Truth, &OR_REWRITES);

/// OR_CLAUSES: the rewrites of `\/`.
pub fn or_clauses(alloc: Global) -> Result<Thm, AllocError>
    ensures { IfOk result (λ th. th ≡ stated or_clauses) }
{
    theorem(alloc, &OR_CLAUSES)
}

const TRUTH_IMP_T: Written<'static> = Connective("==>", &TRUTH, &T);

const TRUTH_IMP_T_IS_T: Written<'static> = Equation(Sort::Truth, &TRUTH_IMP_T, &T);

const T_IMP_TRUTH: Written<'static> = Connective("==>", &T, &TRUTH);

const T_IMP_TRUTH_IS_TRUTH: Written<'static> = Equation(Sort::Truth, &T_IMP_TRUTH, &TRUTH);

const FALSITY_IMP_T: Written<'static> = Connective("==>", &FALSITY, &T);

const FALSITY_IMP_T_IS_TRUTH: Written<'static> = Equation(Sort::Truth, &FALSITY_IMP_T, &TRUTH);

const T_IMP_T: Written<'static> = Connective("==>", &T, &T);

const T_IMP_T_IS_TRUTH: Written<'static> = Equation(Sort::Truth, &T_IMP_T, &TRUTH);

const T_IMP_FALSITY: Written<'static> = Connective("==>", &T, &FALSITY);

const T_IMP_FALSITY_IS_NOT_T: Written<'static> = Equation(Sort::Truth, &T_IMP_FALSITY, &NOT_T);

const IMP_FROM_FOURTH: Written<'static> = Connective(
    "/\\",
    &T_IMP_T_IS_TRUTH,
    &T_IMP_FALSITY_IS_NOT_T,
);

const IMP_FROM_THIRD: Written<'static> = Connective(
    "/\\",
    &FALSITY_IMP_T_IS_TRUTH,
    &IMP_FROM_FOURTH,
);

const IMP_FROM_SECOND: Written<'static> = Connective("/\\", &T_IMP_TRUTH_IS_TRUTH, &IMP_FROM_THIRD);

const IMP_REWRITES: Written<'static> = Connective("/\\", &TRUTH_IMP_T_IS_T, &IMP_FROM_SECOND);

const IMP_CLAUSES: Written<'static> = Quantified("!", "t", Sort::Truth, &IMP_REWRITES);

/// IMP_CLAUSES: the rewrites of `==>`.
pub fn imp_clauses(alloc: Global) -> Result<Thm, AllocError>
    ensures { IfOk result (λ th. th ≡ stated imp_clauses) }
{
    theorem(alloc, &IMP_CLAUSES)
}
