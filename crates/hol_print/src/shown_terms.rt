//! The larger terms that were shown, none of which is written again where it comes again.
ghost use Rattle.std.specs.Prelude.{◌≡◌, [], IfOk, IfSome, IsTrue, OnOk, Some, map, slice_get, string_bytes};
ghost use Rattle.hol_terms.specs.Nameless.{nameless};
ghost use Rattle.hol_print.specs.ShowTerm.{show};
ghost use Rattle.hol_print.specs.ShowGoal.{put_all, put_terms, free_variables};
ghost use Rattle.hol_print.specs.InOrder.{IsInOrder};

use crate::free_variables::{put_each, put_free};
use crate::term_text::show_term;
use hol_terms::{Scope, Term, Variable};
use std::alloc::{AllocError, Global};
use std::marker::Model;

// A smaller term is written as soon as found.
const LEAST_SIZE: u32 = 16;

/// The larger terms of goals that were shown, with what goals show of them.
#[derive(Drop)]
pub(crate) struct ShownTerms<'a> {
    terms: Vec<ShownTerm<'a>>,
    // which of them stood last at each place in a goal
    at_places: Vec<usize>,
}

impl<'a> ShownTerms<'a> {
    /// None yet.
    pub(crate) fn new(alloc: Global) -> ShownTerms<'a> {
        ShownTerms {
            terms: Vec::new(alloc),
            at_places: Vec::new(alloc),
        }
    }

    /// The text of the term at a place in a goal: the conclusion's, 0, or an assumption's, counted from the oldest.
    pub(crate) fn text(
        &mut self,
        alloc: Global,
        t: &'a Term,
        place: usize,
    ) -> Result<String, AllocError>
        ensures { IfOk result (λ text. string_bytes text ≡ show (nameless [] t.now)) }
    {
        if t.size() < LEAST_SIZE {
            return show_term(alloc, t);
        }
        let at = self.find_or_add(alloc, t, place)?;
        self.terms[at].text(alloc)
    }

    /// Puts each free variable of the term at a place in a goal in its own place, unless it is there.
    #[tactic(auto, using(crate::proofs::InOrder::put_once))]
    pub(crate) fn put_free(
        &mut self,
        alloc: Global,
        t: &'a Term,
        place: usize,
        among: &mut Vec<Variable>,
    ) -> Result<(), AllocError>
        requires { IsInOrder among.old.items }
        ensures put { OnOk result (among.new.items ≡ put_all among.old.items (free_variables (nameless [] t.now))) }
        ensures ordered { OnOk result (IsInOrder among.new.items) }
    {
        if t.size() < LEAST_SIZE {
            return put_free(alloc, t, &Scope::Outside, among);
        }
        let at = self.find_or_add(alloc, t, place)?;
        self.terms[at].put_free(alloc, among)
    }

    /// The same for assumptions, the newest first, so many of which are older than these.
    pub(crate) fn put_assumptions(
        &mut self,
        alloc: Global,
        assumptions: &'a [Term],
        older: usize,
        among: &mut Vec<Variable>,
    ) -> Result<(), AllocError>
        requires { IsInOrder among.old.items }
        ensures put { OnOk result (among.new.items ≡ put_terms among.old.items (map (nameless []) assumptions.now)) }
        ensures ordered { OnOk result (IsInOrder among.new.items) }
    {
        for (i, t) in assumptions.iter().enumerate() {
            self.put_free(alloc, t, older.saturating_add(assumptions.len() - i), among)?;
        }
        Ok(())
    }

    // Where the term is, which is put at the end if it is found nowhere.
    fn find_or_add(&mut self, alloc: Global, t: &'a Term, place: usize) -> Result<usize, AllocError>
        ensures { IfOk result (λ at. slice_get self.new.terms.items at ≡ Some t.now) }
    {
        if let Some(at) = self.find(t, place) {
            set_at(&mut self.at_places, place, at)?;
            return Ok(at);
        }
        let at = self.terms.len();
        self.terms.push(ShownTerm::new(alloc, t)?)?;
        set_at(&mut self.at_places, place, at)?;
        Ok(at)
    }

    // Where the term is: looks at what stood last at the place, and then at no more of the newest than the term has nodes.
    fn find(&self, t: &Term, place: usize) -> Option<usize>
        ensures { IfSome result (λ at. slice_get self.now.terms.items at ≡ Some t.now) }
    {
        if let Some(at) = self.at_places.get(place) {
            if self.is_at(*at, t) {
                return Some(*at);
            }
        }
        let mut at = self.terms.len();
        let last = at.saturating_sub(t.size() as usize);
        'newest: while at > last {
            at -= 1;
            if self.is_at(at, t) {
                return Some(at);
            }
        }
        None
    }

    // Whether the term is seen to be the one that is there.
    fn is_at(&self, at: usize, t: &Term) -> bool
        ensures { IsTrue result → slice_get self.now.terms.items at ≡ Some t.now }
    {
        match self.terms.get(at) {
            Some(shown) => shown.term.same_node(t),
            None => false,
        }
    }
}

// Sets the number at a place, and those that are missing before it.
fn set_at(numbers: &mut Vec<usize>, place: usize, number: usize) -> Result<(), AllocError> {
    'places: while numbers.len() <= place {
        numbers.push(number)?;
    }
    numbers[place] = number;
    Ok(())
}

// A term with what goals show of it: its text, and its free variables, each once, in order.
#[derive(Drop)]
struct ShownTerm<'a> {
    term: &'a Term,
    text: String,
    free: Vec<Variable>,
}

impl<'a> Model for ShownTerm<'a> {
    ghost use Rattle.std.specs.Prelude.{◌≡◌, [], string_bytes};
    ghost use Rattle.hol_terms.specs.Named.{Named};
    ghost use Rattle.hol_terms.specs.Nameless.{nameless, free_occurrences};
    ghost use Rattle.hol_print.specs.ShowTerm.{show};
    ghost use Rattle.hol_print.specs.ShowGoal.{put_all};
    ghost use Rattle.hol_terms.specs.Code.{coded_named};

    ghost Value = { Named };

    ghost coded = { coded_named };

    ghost view = { λ s. s.term.now };

    ghost invariant = { λ s. (string_bytes s.text ≡ show (nameless [] s.term.now)) × (s.free.items ≡ put_all [] (free_occurrences (nameless [] s.term.now))) };
}

impl<'a> ShownTerm<'a> {
    // What is shown of the term.
    fn new(alloc: Global, t: &'a Term) -> Result<ShownTerm<'a>, AllocError>
        ensures { IfOk result (λ shown. shown ≡ t.now) }
    {
        let text = show_term(alloc, t)?;
        let mut free = Vec::new(alloc);
        put_free(alloc, t, &Scope::Outside, &mut free)?;
        Ok(ShownTerm {
            term: t,
            text,
            free,
        })
    }

    // Its text.
    fn text(&self, alloc: Global) -> Result<String, AllocError>
        ensures { IfOk result (λ text. string_bytes text ≡ show (nameless [] self.now)) }
    {
        String::from_str(alloc, self.text.as_str())
    }

    // Puts its free variables in their places.
    #[tactic(auto, using(crate::proofs::InOrder::put_once, crate::proofs::InOrder::put_sorted))]
    fn put_free(&self, alloc: Global, among: &mut Vec<Variable>) -> Result<(), AllocError>
        requires { IsInOrder among.old.items }
        ensures put { OnOk result (among.new.items ≡ put_all among.old.items (free_variables (nameless [] self.now))) }
        ensures ordered { OnOk result (IsInOrder among.new.items) }
    {
        put_each(alloc, &self.free, among)
    }
}
