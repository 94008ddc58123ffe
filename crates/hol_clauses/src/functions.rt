//! ONE_ONE and ONTO as they are read: of each function (nums.ml).
ghost use Rattle.std.specs.Prelude.{◌≡◌, IfOk};
ghost use Rattle.hol_clauses.specs.Statements.{stated, one_one, onto};

use crate::stated::theorem;
use hol_formulas::Sort;
use hol_formulas::Written::{self, Applied, Connective, Constant, Equation, Quantified, Variable};
use hol_kernel::Thm;
use std::alloc::{AllocError, Global};

// The parts stand as constants, which a function borrows at no cost to its proof.

const FUNCTION: Written<'static> = Variable("f", Sort::Function);

const ONE_ONE: Written<'static> = Constant("ONE_ONE", Sort::OfFunction);

const IS_ONE_ONE: Written<'static> = Applied(&ONE_ONE, &FUNCTION);

const FIRST: Written<'static> = Variable("x1", Sort::Element);

const SECOND: Written<'static> = Variable("x2", Sort::Element);

const AT_FIRST: Written<'static> = Applied(&FUNCTION, &FIRST);

const AT_SECOND: Written<'static> = Applied(&FUNCTION, &SECOND);

const SAME_VALUES: Written<'static> = Equation(Sort::Value, &AT_FIRST, &AT_SECOND);

const SAME_ELEMENTS: Written<'static> = Equation(Sort::Element, &FIRST, &SECOND);

const SAME_IF_VALUES_ARE: Written<'static> = Connective("==>", &SAME_VALUES, &SAME_ELEMENTS);

const FOR_EACH_SECOND: Written<'static> = Quantified("!", "x2", Sort::Element, &SAME_IF_VALUES_ARE);

const INJECTIVE: Written<'static> = Quantified("!", "x1", Sort::Element, &FOR_EACH_SECOND);

const MEANS_INJECTIVE: Written<'static> = Equation(Sort::Truth, &IS_ONE_ONE, &INJECTIVE);

const ONE_ONE_OF_EACH: Written<'static> = Quantified("!", "f", Sort::Function, &MEANS_INJECTIVE);

/// ONE_ONE: `!f. ONE_ONE f <=> (!x1 x2. f x1 = f x2 ==> x1 = x2)`.
pub fn one_one(alloc: Global) -> Result<Thm, AllocError>
    ensures { IfOk result (λ th. th ≡ stated one_one) }
{
    theorem(alloc, &ONE_ONE_OF_EACH)
}

const ONTO: Written<'static> = Constant("ONTO", Sort::OfFunction);

const IS_ONTO: Written<'static> = Applied(&ONTO, &FUNCTION);

const ELEMENT: Written<'static> = Variable("x", Sort::Element);

const VALUE: Written<'static> = Variable("y", Sort::Value);

const AT_ELEMENT: Written<'static> = Applied(&FUNCTION, &ELEMENT);

const IS_VALUE: Written<'static> = Equation(Sort::Value, &VALUE, &AT_ELEMENT);

const OF_SOME: Written<'static> = Quantified("?", "x", Sort::Element, &IS_VALUE);

const SURJECTIVE: Written<'static> = Quantified("!", "y", Sort::Value, &OF_SOME);

const MEANS_SURJECTIVE: Written<'static> = Equation(Sort::Truth, &IS_ONTO, &SURJECTIVE);

const ONTO_OF_EACH: Written<'static> = Quantified("!", "f", Sort::Function, &MEANS_SURJECTIVE);

/// ONTO: `!f. ONTO f <=> (!y. ?x. y = f x)`.
pub fn onto(alloc: Global) -> Result<Thm, AllocError>
    ensures { IfOk result (λ th. th ≡ stated onto) }
{
    theorem(alloc, &ONTO_OF_EACH)
}
