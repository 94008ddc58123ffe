//! The statements of the definitions and axioms of the prelude.
ghost use Rattle.std.specs.Prelude.{◌≡◌, IfOk, IsSome, Some, codes};
ghost use Rattle.hol_terms.specs.Named.{abs, named_type};
ghost use Rattle.hol_formulas.specs.Equation.{bool_type};
ghost use Rattle.hol_formulas.specs.Formula.{connective_type};
ghost use Rattle.hol_formulas.specs.Constants.{binder_type, function_property_type};
ghost use Rattle.hol_formulas.specs.Prelude.{boolean, property, function, defining, postulated};
ghost use Rattle.hol_formulas.specs.Written.{sort_type, written_term};
ghost use Rattle.hol_formulas.specs.declared.postulate.Postulate.TheVariants as postulate;

use crate::postulate::Postulate;
use crate::sort::Sort;
use crate::written::Written::{
    self, Applied, Connective, Constant, Equation, Function, Quantified, Variable,
};
use crate::written::written_term;
use hol_terms::Term;
use std::alloc::{AllocError, Global};

// The parts stand as constants, which a function borrows at no cost to its proof.

const P: Written<'static> = Variable("p", Sort::Truth);

const Q: Written<'static> = Variable("q", Sort::Truth);

const R: Written<'static> = Variable("r", Sort::Truth);

const X: Written<'static> = Variable("x", Sort::Element);

const Y: Written<'static> = Variable("y", Sort::Element);

const PROPERTY: Written<'static> = Variable("P", Sort::Property);

const FUNCTION: Written<'static> = Variable("f", Sort::Function);

const TRUTH: Written<'static> = Constant("T", Sort::Truth);

const FALSITY: Written<'static> = Constant("F", Sort::Truth);

const NOT: Written<'static> = Constant("~", Sort::Negation);
// `P x`.
const HOLDS: Written<'static> = Applied(&PROPERTY, &X);

const IDENTITY: Written<'static> = Function("p", Sort::Truth, &P);

const SAME_IDENTITY: Written<'static> = Equation(Sort::Negation, &IDENTITY, &IDENTITY);

// `T = ((\p:bool. p) = (\p. p))`.
fn truth_definition(alloc: Global) -> Result<Term, AllocError>
    ensures { IfOk result (λ t. t ≡ postulated postulate.TDef) }
{
    define(alloc, "T", Sort::Truth, &SAME_IDENTITY)
}

const CONNECTIVE: Written<'static> = Variable("f", Sort::Connective);

const OF_TRUTH: Written<'static> = Applied(&CONNECTIVE, &TRUTH);

const OF_TRUTHS: Written<'static> = Applied(&OF_TRUTH, &TRUTH);

const TRUTHS: Written<'static> = Function("f", Sort::Connective, &OF_TRUTHS);

const OF_FIRST: Written<'static> = Applied(&CONNECTIVE, &P);

const OF_BOTH: Written<'static> = Applied(&OF_FIRST, &Q);

const PAIR: Written<'static> = Function("f", Sort::Connective, &OF_BOTH);

const PAIR_OF_TRUTHS: Written<'static> = Equation(Sort::OfConnective, &PAIR, &TRUTHS);

// `(/\) = (\p q. (\f:bool->bool->bool. f p q) = (\f. f T T))`.
fn conjunction_definition(alloc: Global) -> Result<Term, AllocError>
    ensures { IfOk result (λ t. t ≡ postulated postulate.AndDef) }
{
    define_connective(alloc, "/\\", &PAIR_OF_TRUTHS)
}

const BOTH: Written<'static> = Connective("/\\", &P, &Q);

const BOTH_IF_FIRST: Written<'static> = Equation(Sort::Truth, &BOTH, &P);

// `(==>) = (\p q. p /\ q <=> p)`.
fn implication_definition(alloc: Global) -> Result<Term, AllocError>
    ensures { IfOk result (λ t. t ≡ postulated postulate.ImpDef) }
{
    define_connective(alloc, "==>", &BOTH_IF_FIRST)
}

const CONSTANTLY_TRUE: Written<'static> = Function("x", Sort::Element, &TRUTH);

const EVERYWHERE: Written<'static> = Equation(Sort::Property, &PROPERTY, &CONSTANTLY_TRUE);

// `(!) = (\P:A->bool. P = (\x. T))`.
fn universal_definition(alloc: Global) -> Result<Term, AllocError>
    ensures { IfOk result (λ t. t ≡ postulated postulate.ForallDef) }
{
    define_binder(alloc, "!", &EVERYWHERE)
}

const IMPLIED_HERE: Written<'static> = Connective("==>", &HOLDS, &Q);

const IMPLIED_ANYWHERE: Written<'static> = Quantified("!", "x", Sort::Element, &IMPLIED_HERE);

const IMPLIED: Written<'static> = Connective("==>", &IMPLIED_ANYWHERE, &Q);

const SOMEWHERE: Written<'static> = Quantified("!", "q", Sort::Truth, &IMPLIED);

// `(?) = (\P:A->bool. !q. (!x. P x ==> q) ==> q)`.
fn existential_definition(alloc: Global) -> Result<Term, AllocError>
    ensures { IfOk result (λ t. t ≡ postulated postulate.ExistsDef) }
{
    define_binder(alloc, "?", &SOMEWHERE)
}

const BY_FIRST: Written<'static> = Connective("==>", &P, &R);

const BY_SECOND: Written<'static> = Connective("==>", &Q, &R);

const REST: Written<'static> = Connective("==>", &BY_SECOND, &R);

const CASES: Written<'static> = Connective("==>", &BY_FIRST, &REST);

const EITHER: Written<'static> = Quantified("!", "r", Sort::Truth, &CASES);

// `(\/) = (\p q. !r. (p ==> r) ==> (q ==> r) ==> r)`.
fn disjunction_definition(alloc: Global) -> Result<Term, AllocError>
    ensures { IfOk result (λ t. t ≡ postulated postulate.OrDef) }
{
    define_connective(alloc, "\\/", &EITHER)
}

const EVERYTHING: Written<'static> = Quantified("!", "p", Sort::Truth, &P);

// `F = (!p. p)`.
fn falsity_definition(alloc: Global) -> Result<Term, AllocError>
    ensures { IfOk result (λ t. t ≡ postulated postulate.FDef) }
{
    define(alloc, "F", Sort::Truth, &EVERYTHING)
}

const ABSURD: Written<'static> = Connective("==>", &P, &FALSITY);

const NEGATION: Written<'static> = Function("p", Sort::Truth, &ABSURD);

// `(~) = (\p. p ==> F)`.
fn negation_definition(alloc: Global) -> Result<Term, AllocError>
    ensures { IfOk result (λ t. t ≡ postulated postulate.NotDef) }
{
    define(alloc, "~", Sort::Negation, &NEGATION)
}

const HOLDS_OF_OTHER: Written<'static> = Applied(&PROPERTY, &Y);

const HOLDS_TWICE: Written<'static> = Connective("/\\", &HOLDS, &HOLDS_OF_OTHER);

const SAME_ELEMENT: Written<'static> = Equation(Sort::Element, &X, &Y);

const AT_MOST_ONE: Written<'static> = Connective("==>", &HOLDS_TWICE, &SAME_ELEMENT);

const WITH_EACH: Written<'static> = Quantified("!", "y", Sort::Element, &AT_MOST_ONE);

const UNIQUE: Written<'static> = Quantified("!", "x", Sort::Element, &WITH_EACH);

const EXISTS: Written<'static> = Constant("?", Sort::Binder);

const SOME: Written<'static> = Applied(&EXISTS, &PROPERTY);

const EXACTLY_ONE: Written<'static> = Connective("/\\", &SOME, &UNIQUE);

// `?! = (\P:A->bool. (?) P /\ (!x y. P x /\ P y ==> x = y))`.
fn unique_existence_definition(alloc: Global) -> Result<Term, AllocError>
    ensures { IfOk result (λ t. t ≡ postulated postulate.ExistsUniqueDef) }
{
    define_binder(alloc, "?!", &EXACTLY_ONE)
}

const FIRST: Written<'static> = Variable("x1", Sort::Element);

const SECOND: Written<'static> = Variable("x2", Sort::Element);

const OF_FIRST_ELEMENT: Written<'static> = Applied(&FUNCTION, &FIRST);

const OF_SECOND_ELEMENT: Written<'static> = Applied(&FUNCTION, &SECOND);

const SAME_VALUES: Written<'static> = Equation(Sort::Value, &OF_FIRST_ELEMENT, &OF_SECOND_ELEMENT);

const SAME_ELEMENTS: Written<'static> = Equation(Sort::Element, &FIRST, &SECOND);

const SAME_IF_VALUES_ARE: Written<'static> = Connective("==>", &SAME_VALUES, &SAME_ELEMENTS);

const FOR_EACH_SECOND: Written<'static> = Quantified("!", "x2", Sort::Element, &SAME_IF_VALUES_ARE);

const INJECTIVE: Written<'static> = Quantified("!", "x1", Sort::Element, &FOR_EACH_SECOND);

// `ONE_ONE = (\f:A->B. !x1 x2. f x1 = f x2 ==> x1 = x2)`.
fn injectivity_definition(alloc: Global) -> Result<Term, AllocError>
    ensures { IfOk result (λ t. t ≡ postulated postulate.OneOne) }
{
    define_property(alloc, "ONE_ONE", &INJECTIVE)
}

const VALUE: Written<'static> = Variable("y", Sort::Value);

const OF_ELEMENT: Written<'static> = Applied(&FUNCTION, &X);

const IS_VALUE: Written<'static> = Equation(Sort::Value, &VALUE, &OF_ELEMENT);

const OF_SOME: Written<'static> = Quantified("?", "x", Sort::Element, &IS_VALUE);

const SURJECTIVE: Written<'static> = Quantified("!", "y", Sort::Value, &OF_SOME);

// `ONTO = (\f:A->B. !y. ?x. y = f x)`.
fn surjectivity_definition(alloc: Global) -> Result<Term, AllocError>
    ensures { IfOk result (λ t. t ≡ postulated postulate.Onto) }
{
    define_property(alloc, "ONTO", &SURJECTIVE)
}

const MAP: Written<'static> = Variable("t", Sort::Function);

const MAPPED: Written<'static> = Applied(&MAP, &X);

const EXPANSION: Written<'static> = Function("x", Sort::Element, &MAPPED);

const SAME_MAP: Written<'static> = Equation(Sort::Function, &EXPANSION, &MAP);

const ETA: Written<'static> = Quantified("!", "t", Sort::Function, &SAME_MAP);

// `!t:A->B. (\x. t x) = t`.
fn eta_axiom(alloc: Global) -> Result<Term, AllocError>
    ensures { IfOk result (λ t. t ≡ postulated postulate.EtaAx) }
{
    written_term(alloc, &ETA)
}

const SELECT: Written<'static> = Constant("@", Sort::Choice);

const CHOSEN: Written<'static> = Applied(&SELECT, &PROPERTY);

const HOLDS_OF_CHOSEN: Written<'static> = Applied(&PROPERTY, &CHOSEN);

const CHOICE_HERE: Written<'static> = Connective("==>", &HOLDS, &HOLDS_OF_CHOSEN);

const CHOICE_OF_PROPERTY: Written<'static> = Quantified("!", "x", Sort::Element, &CHOICE_HERE);

const CHOICE: Written<'static> = Quantified("!", "P", Sort::Property, &CHOICE_OF_PROPERTY);

// `!P (x:A). P x ==> P ((@) P)`.
fn choice_axiom(alloc: Global) -> Result<Term, AllocError>
    ensures { IfOk result (λ t. t ≡ postulated postulate.SelectAx) }
{
    written_term(alloc, &CHOICE)
}

const SUCCESSOR: Written<'static> = Variable("f", Sort::OnIndividuals);

const ONE_ONE: Written<'static> = Constant("ONE_ONE", Sort::OfOnIndividuals);

const IS_ONE_ONE: Written<'static> = Applied(&ONE_ONE, &SUCCESSOR);

const ONTO: Written<'static> = Constant("ONTO", Sort::OfOnIndividuals);

const IS_ONTO: Written<'static> = Applied(&ONTO, &SUCCESSOR);

const IS_NOT_ONTO: Written<'static> = Applied(&NOT, &IS_ONTO);

const IS_INFINITE: Written<'static> = Connective("/\\", &IS_ONE_ONE, &IS_NOT_ONTO);

const INFINITY: Written<'static> = Quantified("?", "f", Sort::OnIndividuals, &IS_INFINITE);

// `?f:ind->ind. ONE_ONE f /\ ~ONTO f`.
fn infinity_axiom(alloc: Global) -> Result<Term, AllocError>
    ensures { IfOk result (λ t. t ≡ postulated postulate.InfinityAx) }
{
    written_term(alloc, &INFINITY)
}

// The definition of the constant of the name and the type as the term.
fn define(alloc: Global, name: &str, sort: Sort, right: &Written<'_>) -> Result<Term, AllocError>
    requires { IsSome (named_type (defining name.now (sort_type sort) (written_term right.now))) }
    ensures { IfOk result (λ t. t ≡ defining name.now (sort_type sort) (written_term right.now)) }
{
    written_term(alloc, &Equation(sort, &Constant(name, sort), right))
}

// The definition of a connective of `p` and `q`.
fn define_connective(alloc: Global, name: &str, body: &Written<'_>) -> Result<Term, AllocError>
    requires { named_type (written_term body.now) ≡ Some bool_type }
    ensures { IfOk result (λ t. t ≡ defining name.now connective_type (abs (boolean (codes "p")) (abs (boolean (codes "q")) (written_term body.now)))) }
{
    let of_second = Function("q", Sort::Truth, body);
    let of_both = Function("p", Sort::Truth, &of_second);
    define(alloc, name, Sort::Connective, &of_both)
}

// The definition of a quantifier of `P:A->bool`.
fn define_binder(alloc: Global, name: &str, body: &Written<'_>) -> Result<Term, AllocError>
    requires { named_type (written_term body.now) ≡ Some bool_type }
    ensures { IfOk result (λ t. t ≡ defining name.now binder_type (abs property (written_term body.now))) }
{
    let right = Function("P", Sort::Property, body);
    define(alloc, name, Sort::Binder, &right)
}

// The definition of a property of `f:A->B`.
fn define_property(alloc: Global, name: &str, body: &Written<'_>) -> Result<Term, AllocError>
    requires { named_type (written_term body.now) ≡ Some bool_type }
    ensures { IfOk result (λ t. t ≡ defining name.now function_property_type (abs function (written_term body.now))) }
{
    let right = Function("f", Sort::Function, body);
    define(alloc, name, Sort::OfFunction, &right)
}

/// The statement of a definition or an axiom of the prelude.
pub fn statement(alloc: Global, which: Postulate) -> Result<Term, AllocError>
    ensures { IfOk result (λ t. t ≡ postulated which) }
{
    match which {
        Postulate::TDef => truth_definition(alloc),
        Postulate::AndDef => conjunction_definition(alloc),
        Postulate::ImpDef => implication_definition(alloc),
        Postulate::ForallDef => universal_definition(alloc),
        Postulate::ExistsDef => existential_definition(alloc),
        Postulate::OrDef => disjunction_definition(alloc),
        Postulate::FDef => falsity_definition(alloc),
        Postulate::NotDef => negation_definition(alloc),
        Postulate::ExistsUniqueDef => unique_existence_definition(alloc),
        Postulate::EtaAx => eta_axiom(alloc),
        Postulate::SelectAx => choice_axiom(alloc),
        Postulate::OneOne => injectivity_definition(alloc),
        Postulate::Onto => surjectivity_definition(alloc),
        Postulate::InfinityAx => infinity_axiom(alloc),
    }
}
