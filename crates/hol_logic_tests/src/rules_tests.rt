//! Rules, over no items: once where each applies, and once where it is refused. A row has a rule's name and the terms between commas that it is handed, after `of` its premises
//! between bars, each the assumption of a formula, and after `is` what it makes, or its refusal. Where no premise is written, it is `T`.
ghost use Rattle.std.specs.Prelude.{◌≡◌, IfOk};

use crate::written::Written;
use hol_bool::{
    choose, conj, contr, disch, disj_cases, disj1, disj2, eqf_intro, eqt_intro, exists, generalize,
    not_intro, undisch,
};
use hol_equal::{alpha, ap_term, ap_thm, beta_conv, prove_hyp, subst};
use hol_kernel::{Basis, Thm};
use hol_terms::Term;
use hol_types::TyNode;
use std::fmt::Debug;
use std::test::Fail;

const ROWS: &str = r"REFL p:bool is |- p:bool = p
REFL x:foo is Refused(Refl)
ASSUME p:bool is p:bool |- p:bool
ASSUME f:bool->bool is Refused(Assume)
ASSUME x:foo = x is Refused(Assume)
TRANS of q:bool = p | p:bool = r is p:bool = r, q:bool = p |- q:bool = r
TRANS of p:bool = q | p:bool = q is Refused(Trans)
MK_COMB of f:bool->bool = f | p:bool = q is p:bool = q, f:bool->bool = f |- (f:bool->bool) p = f q
MK_COMB of f:bool->bool = f | f:bool->bool = f is Refused(MkComb)
ABS x:bool of T = T is T = T |- (\x:bool. T) = (\x. T)
ABS x:bool of x:bool = y is Refused(Abs)
BETA (\x:bool. x) x is |- (\x:bool. x) x = x
BETA (\x:bool. x) y is Refused(Beta)
EQ_MP of p:bool = q | p:bool is p:bool, p:bool = q |- q:bool
EQ_MP of p:bool = q | q:bool is Refused(EqMp)
DEDUCT_ANTISYM_RULE of p:bool | p:bool is |- p:bool = p
INST_TYPE p:bool, y:A of x:A = y is x:bool = y |- x:bool = y
INST_TYPE z:foo, y:A of x:A = y is Refused(InstType)
INST y:bool, x:bool of x:bool is y:bool |- y:bool
INST y:A, x:bool of x:bool is Refused(Inst)
AP_TERM f:bool->bool of q:bool = p is q:bool = p |- (f:bool->bool) q = f p
AP_TERM p:bool of q:bool = p is Refused(ApTerm)
AP_THM p:bool of f:bool->bool = f is f:bool->bool = f |- (f:bool->bool) p = f p
AP_THM p:bool of q:bool = p is Refused(ApThm)
ALPHA \x:bool. x, \y:bool. y is |- (\x:bool. x) = (\y. y)
ALPHA p:bool, q:bool is Refused(Alpha)
BETA_CONV (\x:bool. x) x is |- (\x:bool. x) x = x
BETA_CONV (\x:bool. x) p is |- (\x:bool. x) p = p
BETA_CONV p:bool is Refused(BetaConv)
PROVE_HYP of q:bool = p | p:bool is p:bool, q:bool = p |- p:bool
SUBST v:bool, v /\ p of p:bool = q | p /\ p is p /\ p, p:bool = q |- q /\ p
SUBST v:bool, v /\ p of p:bool = q | q /\ p is Refused(Subst)
GEN q:bool of p:bool is p:bool |- !q:bool. p
GEN p:bool of p:bool is Refused(Gen)
EXISTS ?x:bool. x, p:bool of p:bool is p:bool |- ?x:bool. x
EXISTS ?x:bool. x, q:bool of p:bool is Refused(Exists)
EXISTS ?x:A. R x (y:A), z:A of (R:A->A->bool) z y is (R:A->A->bool) z y |- ?x. (R:A->A->bool) x y
CHOOSE v:bool of ?x:bool. p | p:bool is ?x:bool. p |- p:bool
CHOOSE p:bool of ?x:bool. p | p:bool is Refused(Choose)
CHOOSE v:A of ?x:A. P x | (P:A->bool) v is Refused(Choose)
CHOOSE v:B of ?x:A. P x | p:bool is Refused(Choose)
EQT_INTRO of p:bool is p:bool |- p <=> T
EQF_INTRO of ~p is ~p |- p <=> F
EQF_INTRO of p:bool is Refused(EqfIntro)
CONJ of p:bool | q:bool is p:bool, q:bool |- p /\ q
DISCH p:bool of p:bool is |- p ==> p
DISCH q:bool of p:bool is p:bool |- q ==> p
DISCH f:bool->bool of p:bool is Refused(Disch)
UNDISCH of p ==> q is p:bool, p ==> q |- q:bool
UNDISCH of p /\ q is Refused(Undisch)
DISJ1 q:bool of p:bool is p:bool |- p \/ q
DISJ1 f:bool->bool of p:bool is Refused(Disj1)
DISJ2 p:bool of q:bool is q:bool |- p \/ q
DISJ2 f:bool->bool of q:bool is Refused(Disj2)
DISJ_CASES of p \/ q | r:bool | r:bool is r:bool, p \/ q |- r:bool
DISJ_CASES of p \/ p | p:bool | p:bool is p \/ p |- p:bool
DISJ_CASES of p \/ q | p:bool | q:bool is Refused(DisjCases)
CONTR p:bool of F is F |- p:bool
CONTR p:bool of T is Refused(Contr)
NOT_INTRO of p ==> F is p ==> F |- ~p
NOT_INTRO of p ==> q is Refused(NotIntro)";

// A rule, and what it is to make.
#[derive(Drop)]
struct Row<'a> {
    written: &'a Written,
    rule: &'a str,
    wanted: &'a str,
}

fn are_same(terms: &[Term], others: &[Term]) -> bool {
    for (t, other) in terms.iter().zip(others.iter()) {
        if !t.same(other) {
            return false;
        }
    }
    terms.len() == others.len()
}

impl Row<'_> {
    // Whether the theorem is `p, q |- r`, as it is written, hypotheses in this order.
    fn is_made(&self, th: &Thm) -> Result<bool, Fail> {
        let (hyps, concl) = self.wanted.split_once("|- ").unwrap_or(("", "F"));
        let hyps = self.written.terms(hyps.trim())?;
        let concl = self.written.term(concl)?;
        Ok(are_same(th.hyps(), &hyps) && th.concl().same(&concl))
    }

    fn is_refused<E: Debug + Drop>(&self, refusal: E) -> Result<bool, Fail> {
        let text = format!(in self.written.alloc; "{refusal:?}")?;
        Ok(text.as_str() == self.wanted)
    }

    fn gives<E: Debug + Drop>(&self, made: Result<Thm, E>) -> Result<bool, Fail> {
        match made {
            Ok(th) => self.is_made(&th),
            Err(refusal) => self.is_refused(refusal),
        }
    }

    // The assumption of the formula that is written.
    fn premise(&self, basis: &Basis, text: &str) -> Result<Thm, Fail>
        ensures { IfOk result (λ th. th.basis ≡ basis.now) }
    {
        let p = self.written.term(text)?;
        Ok(Thm::assume(self.written.alloc, basis, &p)?)
    }

    // The same over no items.
    fn first_premise(&self, text: &str) -> Result<Thm, Fail> {
        let basis = Basis::empty(self.written.alloc)?;
        self.premise(&basis, text)
    }

    fn of_theorem(&self, a: &Thm) -> Result<bool, Fail> {
        let alloc = self.written.alloc;
        match self.rule {
            "EQT_INTRO" => self.gives(eqt_intro(alloc, a)),
            "EQF_INTRO" => self.gives(eqf_intro(alloc, a)),
            "UNDISCH" => self.gives(undisch(alloc, a)),
            "NOT_INTRO" => self.gives(not_intro(alloc, a)),
            _ => Ok(false),
        }
    }

    fn of_theorems(&self, a: &Thm, b: &Thm, c: &Thm) -> Result<bool, Fail>
        requires second { a.now.basis ≡ b.now.basis }
        requires third { a.now.basis ≡ c.now.basis }
    {
        let alloc = self.written.alloc;
        match self.rule {
            "TRANS" => self.gives(Thm::trans(alloc, a, b)),
            "MK_COMB" => self.gives(Thm::mk_comb(alloc, a, b)),
            "EQ_MP" => self.gives(Thm::eq_mp(alloc, a, b)),
            "DEDUCT_ANTISYM_RULE" => self.gives(Thm::deduct_antisym(alloc, a, b)),
            "PROVE_HYP" => self.gives(prove_hyp(alloc, a, b)),
            "CONJ" => self.gives(conj(alloc, a, b)),
            "DISJ_CASES" => self.gives(disj_cases(alloc, a, b, c)),
            _ => self.of_theorem(a),
        }
    }

    fn with_formula(&self, t: &Term, a: &Thm) -> Result<bool, Fail> {
        let alloc = self.written.alloc;
        match self.rule {
            "GEN" => self.gives(generalize(alloc, t, a)),
            "DISCH" => self.gives(disch(alloc, t, a)),
            "DISJ1" => self.gives(disj1(alloc, a, t)),
            "DISJ2" => self.gives(disj2(alloc, t, a)),
            "CONTR" => self.gives(contr(alloc, t, a)),
            _ => self.over(a.basis(), t),
        }
    }

    fn over(&self, basis: &Basis, t: &Term) -> Result<bool, Fail> {
        let alloc = self.written.alloc;
        match self.rule {
            "REFL" => self.gives(Thm::refl(alloc, basis, t)),
            "ASSUME" => self.gives(Thm::assume(alloc, basis, t)),
            "BETA" => self.gives(Thm::beta(alloc, basis, t)),
            "BETA_CONV" => self.gives(beta_conv(alloc, basis, t)),
            _ => Ok(false),
        }
    }

    fn with_term(&self, t: &Term, a: &Thm, b: &Thm) -> Result<bool, Fail>
        requires second { a.now.basis ≡ b.now.basis }
    {
        let alloc = self.written.alloc;
        match self.rule {
            "ABS" => self.gives(Thm::abs(alloc, t, a)),
            "AP_TERM" => self.gives(ap_term(alloc, t, a)),
            "AP_THM" => self.gives(ap_thm(alloc, a, t)),
            "CHOOSE" => self.gives(choose(alloc, t, a, b)),
            _ => self.with_formula(t, a),
        }
    }

    fn with_pair(&self, new: &Term, old: &Term, a: &Thm) -> Result<bool, Fail> {
        let pairs = [(new.copy()?, old.copy()?)];
        self.gives(Thm::inst(self.written.alloc, &pairs, a))
    }

    // By the types of the two, the second of which is a type variable.
    fn with_types(&self, new: &Term, old: &Term, a: &Thm) -> Result<bool, Fail> {
        let TyNode::Var(name) = old.type_of().node() else {
            return Ok(false);
        };
        let pairs = [(new.type_of().copy()?, name.copy()?)];
        self.gives(Thm::inst_type(self.written.alloc, &pairs, a))
    }

    fn with_two(&self, s: &Term, t: &Term, a: &Thm, b: &Thm) -> Result<bool, Fail>
        requires second { a.now.basis ≡ b.now.basis }
    {
        let alloc = self.written.alloc;
        match self.rule {
            "INST" => self.with_pair(s, t, a),
            "INST_TYPE" => self.with_types(s, t, a),
            "ALPHA" => self.gives(alpha(alloc, a.basis(), s, t)),
            "EXISTS" => self.gives(exists(alloc, s, t, a)),
            "SUBST" => self.gives(subst(alloc, a, s, t, b)),
            _ => Ok(false),
        }
    }

    fn with_terms(&self, terms: &[Term], a: &Thm, b: &Thm, c: &Thm) -> Result<bool, Fail>
        requires second { a.now.basis ≡ b.now.basis }
        requires third { a.now.basis ≡ c.now.basis }
    {
        match terms {
            [] => self.of_theorems(a, b, c),
            [t] => self.with_term(t, a, b),
            [s, t] => self.with_two(s, t, a, b),
            _ => Ok(false),
        }
    }

    fn of_two(&self, terms: &[Term], a: &Thm, b: &Thm, third: &str) -> Result<bool, Fail>
        requires { a.now.basis ≡ b.now.basis }
    {
        let c = self.premise(a.basis(), third)?;
        self.with_terms(terms, a, b, &c)
    }

    fn of_premise(&self, terms: &[Term], a: &Thm, others: &str) -> Result<bool, Fail> {
        let (second, third) = others.split_once(" | ").unwrap_or((others, "T"));
        let b = self.premise(a.basis(), second)?;
        self.of_two(terms, a, &b, third)
    }

    fn of_premises(&self, terms: &[Term], premises: &str) -> Result<bool, Fail> {
        let (first, others) = premises.split_once(" | ").unwrap_or((premises, "T"));
        let a = self.first_premise(first)?;
        self.of_premise(terms, &a, others)
    }
}

fn is_met(written: &Written, row: &str) -> Result<bool, Fail> {
    let (made, wanted) = row.split_once(" is ").unwrap_or((row, ""));
    let (head, premises) = made.split_once(" of ").unwrap_or((made, "T"));
    let (rule, terms) = head.split_once(' ').unwrap_or((head, ""));
    let terms = written.terms(terms)?;
    let row = Row {
        written,
        rule,
        wanted,
    };
    row.of_premises(&terms, premises)
}

// The first row that isn't met, or nothing.
fn unmet(written: &Written) -> Result<&'static str, Fail> {
    for row in ROWS.lines() {
        if !is_met(written, row)? {
            return Ok(row);
        }
    }
    Ok("")
}

#[test]
fn rules_make_what_their_rows_say(rt: HostRuntime) -> Result<(), Fail> {
    let written = Written::new(rt.alloc())?;
    assert_eq!(rt; unmet(&written)?, "");
    Ok(())
}
