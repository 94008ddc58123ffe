//! Reasons and moves.
ghost use Rattle.std.specs.Prelude.{◌≡◌, IfOk};
ghost use Rattle.hol_just.specs.declared.reason.Reason.TheVariants.{Existence, Replacement, Matching};

use hol_conv::Trace;
use hol_kernel::Given;
use hol_terms::Term;
use std::alloc::AllocError;

/// Why goals were left of a goal: the rule that makes a theorem of it from theirs.
#[derive(Drop)]
pub enum Reason {
    /// Leaves no goal: an equation of the term and itself (REFL).
    Reflexivity(Term),
    /// Leaves no goal: the theorem, or the assumption of the term.
    Premise(Given),
    /// Leaves `f = g` and `x = y`: `f x = g y` (MK_COMB).
    Combination,
    /// Leaves `q` from `p`, and `p` from `q`: `p <=> q` (DEDUCT_ANTISYM_RULE, of the second theorem and the first).
    Antisymmetry,
    /// Leaves `p` and `q`: `p /\ q` (CONJ).
    Conjunction,
    /// Leaves `p`: `p \/ q`, for the term `q` (DISJ1).
    LeftDisjunct(Term),
    /// Leaves `q`: `p \/ q`, for the term `p` (DISJ2).
    RightDisjunct(Term),
    /// Leaves `q` from `p`, the term: `p ==> q` (DISCH).
    Discharge(Term),
    /// Leaves `p ==> q`: `q` from `p` (UNDISCH).
    Undischarge,
    /// Leaves `p ==> F`: `~p` (NOT_INTRO).
    Negation,
    /// Leaves `p ==> q` and `p`: `q` (MP).
    ModusPonens,
    /// Leaves `F`: the term (CONTR).
    Contradiction(Term),
    /// Leaves `p` at the variable: `!x. p` (GEN).
    Generalization(Term),
    /// Leaves `p` at the second term: the first, `?x. p` (EXISTS).
    Existence(Term, Term),
    /// Leaves `p /\ q`: `p` (CONJUNCT1).
    LeftConjunct,
    /// Leaves `p /\ q`: `q` (CONJUNCT2).
    RightConjunct,
    /// Leaves `p \/ q`, `r` from `p`, and `r` from `q`: `r` (DISJ_CASES).
    Cases,
    /// Leaves `p`, and `q` from `p`: `q` (PROVE_HYP).
    Cut,
    /// Leaves `s = t`: `t = s` (SYM).
    Symmetry,
    /// Leaves `s = t` and the second term with `s` for the first, a variable: the second term with `t` for it (SUBST).
    Replacement(Term, Term),
    /// Leaves `!x. p`: `p` at the term (SPEC).
    Specialization(Term),
    /// Leaves `?x. p`, and `q` from `p` at the term, a variable: `q` (CHOOSE).
    Choice(Term),
    /// Leaves no goal: `T` (TRUTH).
    Truth,
    /// Leaves what a term became: the term (EQ_MP, by SYM of the equation of the trace).
    Conversion(Trace),
    /// Leaves no goal: the second term, an instance of what stands under the theorem's outer quantifiers, whose variables are called as those of the first, a
    /// formula that is equal to its conclusion (SPEC, INST_TYPE, INST).
    Matching(Given, Term, Term),
}

/// The goal at this place, counted from 0, was taken out of the list of open goals, and those that the reason leaves stand there.
#[derive(Drop)]
pub struct Move {
    /// The place in the list of open goals.
    pub place: usize,
    /// Why the goals were left.
    pub reason: Reason,
}

impl Reason {
    /// An equal reason.
    pub fn copy(&self) -> Result<Reason, AllocError>
        ensures { IfOk result (λ reason. reason ≡ self.now) }
    {
        match self {
            Reason::Reflexivity(t) => Ok(Reason::Reflexivity(t.copy()?)),
            Reason::Premise(given) => Ok(Reason::Premise(given.copy()?)),
            Reason::Combination => Ok(Reason::Combination),
            Reason::Antisymmetry => Ok(Reason::Antisymmetry),
            Reason::Conjunction => Ok(Reason::Conjunction),
            Reason::LeftDisjunct(q) => Ok(Reason::LeftDisjunct(q.copy()?)),
            Reason::RightDisjunct(p) => Ok(Reason::RightDisjunct(p.copy()?)),
            Reason::Discharge(p) => Ok(Reason::Discharge(p.copy()?)),
            Reason::Undischarge => Ok(Reason::Undischarge),
            Reason::Negation => Ok(Reason::Negation),
            Reason::ModusPonens => Ok(Reason::ModusPonens),
            Reason::Contradiction(p) => Ok(Reason::Contradiction(p.copy()?)),
            Reason::Generalization(v) => Ok(Reason::Generalization(v.copy()?)),
            Reason::Existence(e, t) => existence(e, t),
            Reason::LeftConjunct => Ok(Reason::LeftConjunct),
            Reason::RightConjunct => Ok(Reason::RightConjunct),
            Reason::Cases => Ok(Reason::Cases),
            Reason::Cut => Ok(Reason::Cut),
            Reason::Symmetry => Ok(Reason::Symmetry),
            Reason::Replacement(v, m) => replacement(v, m),
            Reason::Specialization(t) => Ok(Reason::Specialization(t.copy()?)),
            Reason::Choice(v) => Ok(Reason::Choice(v.copy()?)),
            Reason::Truth => Ok(Reason::Truth),
            Reason::Conversion(trace) => Ok(Reason::Conversion(trace.copy()?)),
            Reason::Matching(given, formula, t) => matching(given, formula, t),
        }
    }
}

// The reason EXISTS of equal terms.
fn existence(e: &Term, t: &Term) -> Result<Reason, AllocError>
    ensures { IfOk result (λ reason. reason ≡ Existence e.now t.now) }
{
    let formula = e.copy()?;
    Ok(Reason::Existence(formula, t.copy()?))
}

// The reason SUBST of equal terms.
fn replacement(v: &Term, m: &Term) -> Result<Reason, AllocError>
    ensures { IfOk result (λ reason. reason ≡ Replacement v.now m.now) }
{
    let variable = v.copy()?;
    Ok(Reason::Replacement(variable, m.copy()?))
}

// The reason by an instance of an equal theorem.
fn matching(given: &Given, formula: &Term, t: &Term) -> Result<Reason, AllocError>
    ensures { IfOk result (λ reason. reason ≡ Matching given.now formula.now t.now) }
{
    let named = formula.copy()?;
    let term = t.copy()?;
    Ok(Reason::Matching(given.copy()?, named, term))
}

impl Move {
    /// An equal move.
    pub fn copy(&self) -> Result<Move, AllocError>
        ensures { IfOk result (λ one. one ≡ self.now) }
    {
        Ok(Move {
            place: self.place,
            reason: self.reason.copy()?,
        })
    }
}
