//! What was shown of goals that are shown one after the other.
ghost use Rattle.std.specs.Prelude.{◌≡◌, ◌≤◌, ◌-◌, [], IfOk, IsTrue, OnOk, drop, length, map, string_bytes};
ghost use Rattle.hol_terms.specs.Nameless.{nameless};
ghost use Rattle.hol_print.specs.ShowTerm.{show};
ghost use Rattle.hol_print.specs.ShowGoal.{goal_variables, put_terms};

use crate::free_variables::put_each;
use crate::room::Room;
use crate::shown_terms::ShownTerms;
use hol_terms::{Term, Variable};
use std::alloc::{AllocError, Global};
use std::marker::Model;

/// What was shown of goals that are shown one after the other, and may come again.
#[derive(Drop)]
pub struct ShownBefore<'a> {
    terms: ShownTerms<'a>,
    // the assumptions of the last goal
    last: &'a [Term],
    common: CommonAssumptions<'a>,
    // of all texts, those that were told before too
    room: Room,
}

impl<'a> ShownBefore<'a> {
    /// Nothing yet; the texts of all of them have the room of one reply.
    pub fn new(alloc: Global) -> ShownBefore<'a> {
        ShownBefore {
            terms: ShownTerms::new(alloc),
            last: &[],
            common: CommonAssumptions {
                assumptions: &[],
                free: Vec::new(alloc),
            },
            room: Room::new(),
        }
    }

    /// Takes the room of a text that is told beside those of terms.
    pub(crate) fn take(&mut self, text: &str) -> Result<(), AllocError> {
        self.room.take(text)
    }

    /// The text of a goal's conclusion.
    pub(crate) fn conclusion_text(
        &mut self,
        alloc: Global,
        concl: &'a Term,
    ) -> Result<String, AllocError>
        ensures { IfOk result (λ text. string_bytes text ≡ show (nameless [] concl.now)) }
    {
        let text = self.terms.text(alloc, concl, 0)?;
        self.room.take(text.as_str())?;
        Ok(text)
    }

    /// The texts of a goal's assumptions, the newest first.
    pub(crate) fn assumption_texts(
        &mut self,
        alloc: Global,
        asl: &'a [Term],
    ) -> Result<Vec<String>, AllocError>
        ensures { IfOk result (λ texts. map string_bytes texts.items ≡ map show (map (nameless []) asl.now)) }
    {
        let mut texts = Vec::with_capacity(alloc, asl.len())?;
        for (i, t) in asl.iter().enumerate() {
            let text = self.terms.text(alloc, t, asl.len() - i)?;
            self.room.take(text.as_str())?;
            texts.push(text)?;
        }
        Ok(texts)
    }

    /// The free variables of a goal, each once, in order.
    #[tactic(auto, using(crate::proofs::InOrder::common_put))]
    pub(crate) fn goal_variables(
        &mut self,
        alloc: Global,
        asl: &'a [Term],
        concl: &'a Term,
    ) -> Result<Vec<Variable>, AllocError>
        ensures { IfOk result (λ vs. vs.items ≡ goal_variables (map (nameless []) asl.now) (nameless [] concl.now)) }
    {
        let mut among = Vec::new(alloc);
        self.terms.put_free(alloc, concl, 0, &mut among)?;
        self.set_common(alloc, asl)?;
        let older = self.common.assumptions.len();
        let newer = &asl[..asl.len() - older];
        self.terms.put_assumptions(alloc, newer, older, &mut among)?;
        put_each(alloc, &self.common.free, &mut among)?;
        Ok(among)
    }

    // Sets the common assumptions to some that these end in: to those that they have in common with the last goal's, unless the ones before
    // are half as many.
    fn set_common(&mut self, alloc: Global, asl: &'a [Term]) -> Result<(), AllocError>
        ensures within { OnOk result (length self.new.common ≤ length asl.now) }
        ensures ends { OnOk result (drop (length asl.now - length self.new.common) asl.now ≡ self.new.common) }
    {
        let common = common_length(self.last, asl);
        self.last = asl;
        if common / 2 <= self.common.assumptions.len() && end_in(asl, self.common.assumptions) {
            return Ok(());
        }
        let assumptions = &asl[asl.len() - common..];
        let mut free = Vec::new(alloc);
        self.terms
            .put_assumptions(alloc, assumptions, 0, &mut free)?;
        self.common = CommonAssumptions { assumptions, free };
        Ok(())
    }
}

// Assumptions that goals have in common, with their free variables, each once, in order.
#[derive(Drop)]
struct CommonAssumptions<'a> {
    assumptions: &'a [Term],
    free: Vec<Variable>,
}

impl<'a> Model for CommonAssumptions<'a> {
    ghost use Rattle.std.specs.Prelude.{◌≡◌, [], List, map};
    ghost use Rattle.std.specs.Coded.{coded_list};
    ghost use Rattle.hol_terms.specs.Named.{Named};
    ghost use Rattle.hol_terms.specs.Nameless.{nameless};
    ghost use Rattle.hol_terms.specs.Code.{coded_named};
    ghost use Rattle.hol_print.specs.ShowGoal.{put_terms};

    ghost Value = { List Named };

    ghost coded = { coded_list coded_named };

    ghost view = { λ c. c.assumptions.now };

    ghost invariant = { λ c. c.free.items ≡ put_terms [] (map (nameless []) c.assumptions.now) };
}

// How many terms at the end are seen to be the same.
fn common_length(others: &[Term], terms: &[Term]) -> usize
    ensures { result ≤ length terms.now }
{
    let mut n = 0;
    'terms: while n < others.len() && n < terms.len() {
        if !others[others.len() - 1 - n].same_node(&terms[terms.len() - 1 - n]) {
            return n;
        }
        n += 1;
    }
    n
}

// Whether the terms are seen to end in the others.
fn end_in(terms: &[Term], others: &[Term]) -> bool
    ensures within { IsTrue result → length others.now ≤ length terms.now }
    ensures ends { IsTrue result → drop (length terms.now - length others.now) terms.now ≡ others.now }
{
    others.len() <= terms.len() && are_same(&terms[terms.len() - others.len()..], others)
}

// Whether the terms, as many as the others, are seen to be the same.
fn are_same(terms: &[Term], others: &[Term]) -> bool
    requires { length terms.now ≡ length others.now }
    ensures { IsTrue result → terms.now ≡ others.now }
{
    for (i, t) in terms.iter().enumerate() {
        if !t.same_node(&others[i]) {
            return false;
        }
    }
    true
}
