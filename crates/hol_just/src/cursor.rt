//! A list of theorems, with a place in it.
ghost use Rattle.std.specs.Prelude.{◌≡◌, ◌∷◌, ◌++◌, ◌+◌, ◌<◌, ◌≤◌, [], length, IfOk, OnOk, MatchOption};
ghost use Rattle.hol_just.specs.Over.{AreOver, sequents, IsSameCut, IsTaken};

use hol_kernel::{Basis, Thm};
use std::alloc::{AllocError, Global};
use std::marker::Model;

/// Theorems over one basis, cut in two at a place. To go to another place costs what lies between, so that moves made one after
/// another are cheap however many goals are open.
#[derive(Drop)]
pub(crate) struct Cursor {
    basis: Basis,
    // The theorems before the place.
    before: Vec<Thm>,
    // Those after it, the last one first.
    after: Vec<Thm>,
}

impl Model for Cursor {
    ghost use Rattle.std.specs.Prelude.{reverse};
    ghost use Rattle.hol_just.specs.Over.{CutValue, cut_code, AreOver, sequents};

    ghost Value = { CutValue };

    ghost coded = { cut_code };

    ghost view = { λ c. record { basis = c.basis; before = sequents c.before.items; after = sequents (reverse c.after.items) } };

    ghost invariant = { λ c. AreOver c.basis c.before.items × AreOver c.basis (reverse c.after.items) };
}

impl Cursor {
    /// The theorems, with the place after all of them.
    pub(crate) fn new(alloc: Global, thms: Vec<Thm>, basis: &Basis) -> Result<Cursor, AllocError>
        requires { AreOver basis.now thms.items }
        ensures { IfOk result (λ c. c ≡ record { basis = basis.now; before = sequents thms.items; after = [] }) }
    {
        let after = Vec::new(alloc);
        Ok(Cursor {
            basis: basis.copy()?,
            before: thms,
            after,
        })
    }

    /// The basis of all the theorems.
    pub(crate) fn basis(&self) -> &Basis
        ensures { result.now ≡ self.now.basis }
    {
        &self.basis
    }

    /// Goes to the place, counted from 0.
    #[tactic(auto, using(crate::proofs::Cuts::same_then, crate::proofs::Cuts::more_after))]
    pub(crate) fn go_to(&mut self, place: usize) -> Result<(), AllocError>
        requires { place ≤ length (self.old.before ++ self.old.after) }
        ensures same { OnOk result (IsSameCut self.old self.new) }
        ensures place { OnOk result (length self.new.before ≡ place) }
    {
        'back: while self.count_before() > place {
            self.back()?;
        }
        'forward: while self.count_before() < place {
            self.forward()?;
        }
        Ok(())
    }

    /// Takes the theorem after the place, if there is one.
    pub(crate) fn take(&mut self) -> Option<Thm>
        ensures { IsTaken self.old self.new result }
    {
        self.after.pop()
    }

    /// Puts a theorem after the place.
    pub(crate) fn put(&mut self, thm: Thm) -> Result<(), AllocError>
        requires { thm.basis ≡ self.old.basis }
        ensures { OnOk result (self.new ≡ record self.old { after = thm.sequent ∷ self.old.after }) }
    {
        self.after.push(thm)?;
        Ok(())
    }

    /// All the theorems.
    pub(crate) fn finish(self) -> Result<Vec<Thm>, AllocError>
        ensures same { IfOk result (λ thms. sequents thms.items ≡ self.before ++ self.after) }
        ensures over { IfOk result (λ thms. AreOver self.basis thms.items) }
    {
        let Cursor { before, after, .. } = self;
        let mut thms = before;
        let mut after = after;
        'rest: while let Some(thm) = after.pop() {
            thms.push(thm)?;
        }
        Ok(thms)
    }

    // How many theorems stand before the place.
    fn count_before(&self) -> usize
        ensures { result ≡ length self.now.before }
    {
        self.before.len()
    }

    // Goes back by one theorem.
    fn back(&mut self) -> Result<(), AllocError>
        requires { 0 < length self.old.before }
        ensures same { OnOk result (IsSameCut self.old self.new) }
        ensures place { OnOk result (length self.new.before + 1 ≡ length self.old.before) }
    {
        if let Some(thm) = self.before.pop() {
            self.after.push(thm)?;
        }
        Ok(())
    }

    // Goes forward by one theorem.
    fn forward(&mut self) -> Result<(), AllocError>
        requires { 0 < length self.old.after }
        ensures same { OnOk result (IsSameCut self.old self.new) }
        ensures place { OnOk result (length self.new.before ≡ length self.old.before + 1) }
    {
        if let Some(thm) = self.after.pop() {
            self.before.push(thm)?;
        }
        Ok(())
    }
}
