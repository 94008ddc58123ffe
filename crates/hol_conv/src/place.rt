//! A part of a term, and the way to it.
ghost use Rattle.std.specs.Prelude.{◌≡◌, ◌+◌, ◌<◌, ◌++◌, ◌∷◌, [], pred, length, reverse, min, IfOk, OnOk, IfSome, IfNone, IsTrue, IsFalse, List, MatchOption, Some, None, false};
ghost use Rattle.std.specs.Option.{option_map};
ghost use Rattle.hol_terms.specs.Named.{comb, abs, named_type, term_nodes};
ghost use Rattle.hol_terms.specs.Nameless.{Nameless, nameless};
ghost use Rattle.hol_terms.specs.Size.{term_size};
ghost use Rattle.hol_conv.specs.Redexes.{contraction, depth};
ghost use Rattle.hol_conv.specs.Turns.{turn};
ghost use Rattle.hol_conv.specs.Tracing.{Traces, redex_givens};
ghost use Rattle.hol_conv.specs.Places.{around, whole, waiting, NoneLeft, AreWalked, Stands, Lands, Took, StepsIn, ComesBack, is_marked};
ghost use Rattle.hol_conv.specs.declared.redexes.Redexes.{Redexes};
ghost use Rattle.hol_conv.specs.declared.frame.Step.{Step};
ghost use Rattle.hol_conv.specs.declared.frame.Step.TheVariants.{Argument};
ghost use Rattle.hol_conv.specs.declared.trace_node.TraceNode.TheVariants.{Same};
ghost use Rattle.hol_conv.specs.Kept.{node_of, is_kept, IsPut, steps_of, outward, NoneLeftOf, Leaves, Led, HasLed, LeadsOn};

use crate::frame::{Frame, Step, abstraction_of, application_of};
use crate::kept::{Kept, around, is_kept, put, take, then};
use crate::redexes::{Contracted, Redexes};
use crate::trace_node::TraceNode;
use hol_terms::{Term, TermNode, Variable};
use std::alloc::{AllocError, Global};
use std::mem;

/// A part of a term, and the frames around it, the outermost first.
///
/// `entered` has, the innermost last, the terms that were stepped into since the last turn: no more, so that what became of a part is
/// the only one of its kind that is kept.
///
/// `node` is how the part was rewritten since it was come to, `before` how the terms around it were until they were stepped into, and
/// `functions` how the functions to the left of it were.
#[derive(Drop)]
pub(crate) struct Place {
    pub(crate) frames: Vec<Frame>,
    pub(crate) part: Term,
    entered: Vec<Term>,
    pub(crate) node: Option<Box<TraceNode>>,
    before: Vec<Kept>,
    functions: Vec<Kept>,
}

impl Place {
    /// The whole term.
    #[tactic(auto, using(crate::proofs::PlaceTraces::led_of))]
    pub(crate) fn of(alloc: Global, term: &Term) -> Result<Place, AllocError>
        ensures frames { IfOk result (λ p. p.frames.items ≡ []) }
        ensures part { IfOk result (λ p. p.part ≡ term.now) }
        ensures traces { IfOk result (λ p. (r : Redexes) → HasLed r (nameless [] term.now) p) }
    {
        Ok(Place {
            frames: Vec::new(alloc),
            part: term.copy()?,
            entered: Vec::new(alloc),
            node: None,
            before: Vec::new(alloc),
            functions: Vec::new(alloc),
        })
    }

    /// Goes on to the next redex in preorder, the part itself first, and answers what it becomes; `None`, at the whole term, where
    /// there is none.
    #[tactic(auto, using(crate::proofs::Places::going))]
    pub(crate) fn next(
        &mut self,
        alloc: Global,
        redexes: &Redexes,
    ) -> Result<Option<Contracted>, AllocError>
        requires { Stands redexes.now (reverse self.old.frames.items) (nameless [] self.old.part) }
        ensures lands { OnOk result (Lands redexes.now (reverse self.old.frames.items) (nameless [] self.old.part) (reverse self.new.frames.items) (nameless [] self.new.part)) }
        ensures found { IfOk result (λ found. IfSome found (λ c. contraction redexes.now [] (nameless [] self.new.part) ≡ Some (nameless [] c.term))) }
        ensures typed { IfOk result (λ found. IfSome found (λ c. named_type c.term ≡ named_type self.new.part)) }
        ensures traces { IfOk result (λ found. IfSome found (λ c. Traces (redex_givens redexes.now) c.node.value (nameless [] self.new.part) (nameless [] c.term))) }
        ensures led { OnOk result ((t : Nameless) → HasLed redexes.now t self.old → HasLed redexes.now t self.new) }
        ensures end { IfOk result (λ found. IfNone found (self.new.frames.items ≡ [] × turn (contraction redexes.now) [] (nameless [] self.new.part) ≡ None)) }
    {
        'parts: loop {
            if let Some(redex) = redexes.contract(alloc, &self.part)? {
                return Ok(Some(redex));
            }
            if !self.enter(alloc, redexes)? && !self.leave(alloc, redexes)? {
                return Ok(None);
            }
        }
    }

    // Steps into the function or the body, if there is one and the part may have a redex; answers whether it did. The part is no redex.
    #[tactic(auto, using(crate::proofs::Places::entering, crate::proofs::PlaceTraces::led_into_function))]
    fn enter(&mut self, alloc: Global, redexes: &Redexes) -> Result<bool, AllocError>
        requires stands { Stands redexes.now (reverse self.old.frames.items) (nameless [] self.old.part) }
        requires none { contraction redexes.now [] (nameless [] self.old.part) ≡ None }
        ensures lands { OnOk result (Lands redexes.now (reverse self.old.frames.items) (nameless [] self.old.part) (reverse self.new.frames.items) (nameless [] self.new.part)) }
        ensures inside { IfOk result (λ b. IsTrue b → waiting (reverse self.new.frames.items) + term_nodes self.new.part < waiting (reverse self.old.frames.items) + term_nodes self.old.part) }
        ensures led { OnOk result ((t : Nameless) → HasLed redexes.now t self.old → HasLed redexes.now t self.new) }
        ensures leaf { IfOk result (λ b. IsFalse b → turn (contraction redexes.now) [] (nameless [] self.old.part) ≡ None) }
        ensures same { IfOk result (λ b. IsFalse b → self.new ≡ self.old) }
    {
        if !redexes.may_have_redex(&self.part) {
            return Ok(false);
        }
        let _ty = self.part.type_of();
        match self.part.node() {
            TermNode::Comb(f, x) => {
                let step = Step::Function(x.copy()?);
                let function = f.copy()?;
                self.step_in(step, function)?;
                Ok(true)
            }
            TermNode::Abs(v, b) => {
                let inside = redexes.opened(alloc, v, b)?;
                self.step_in(Step::Body(inside.variable), inside.body)?;
                Ok(true)
            }
            TermNode::Var(_) | TermNode::Const(_, _) => Ok(false),
        }
    }

    // By this step to this part.
    #[tactic(auto, using(crate::proofs::Places::stepping))]
    fn step_in(&mut self, step: Step, part: Term) -> Result<(), AllocError>
        ensures frames { OnOk result (StepsIn step self.old.frames.items self.new.frames.items) }
        ensures part { OnOk result (self.new.part ≡ part) }
        ensures node { OnOk result (self.new.node ≡ None) }
        ensures before { OnOk result (IsPut (length self.old.frames.items) (node_of self.old.node) (reverse self.old.before.items) (reverse self.new.before.items)) }
        ensures functions { OnOk result (self.new.functions.items ≡ self.old.functions.items) }
    {
        let entered = mem::replace(&mut self.part, part);
        self.entered.push(entered)?;
        self.keep_before()?;
        let is_passed_over = false;
        Ok(
            self.frames.push(Frame {
                step,
                is_passed_over,
            })?,
        )
    }

    // Steps out of terms that have no redex, up to a function, and on to its argument; answers whether there is one. The part has no redex.
    // (The redexes are there for what is promised.)
    #[tactic(auto, using(crate::proofs::Places::leaving))]
    fn leave(&mut self, alloc: Global, redexes: &Redexes) -> Result<bool, AllocError>
        requires stands { Stands redexes.now (reverse self.old.frames.items) (nameless [] self.old.part) }
        requires none { turn (contraction redexes.now) [] (nameless [] self.old.part) ≡ None }
        ensures lands { OnOk result (Lands redexes.now (reverse self.old.frames.items) (nameless [] self.old.part) (reverse self.new.frames.items) (nameless [] self.new.part)) }
        ensures led { OnOk result ((t : Nameless) → HasLed redexes.now t self.old → HasLed redexes.now t self.new) }
        ensures on { IfOk result (λ b. IsTrue b → waiting (reverse self.new.frames.items) + term_nodes self.new.part < waiting (reverse self.old.frames.items) + term_nodes self.old.part) }
        ensures end { IfOk result (λ b. IsFalse b → (self.new.frames.items ≡ []) × (turn (contraction redexes.now) [] (nameless [] self.new.part) ≡ None)) }
    {
        'frames: while let Some(frame) = self.frames.pop() {
            let Frame {
                step,
                is_passed_over,
            } = frame;
            self.lead_on(alloc, &step)?;
            match step {
                Step::Function(argument) => {
                    self.move_on(argument, is_passed_over)?;
                    return Ok(true);
                }
                Step::Argument(f) => self.out_of_argument(alloc, &f)?,
                Step::Body(v) => self.out_of_body(alloc, &v)?,
            }
        }
        Ok(false)
    }

    // To the argument of the part, within its frame, of which this is known.
    fn move_on(&mut self, argument: Term, is_passed_over: bool) -> Result<(), AllocError>
        ensures frames { OnOk result (ComesBack (Argument self.old.part) is_passed_over self.old.frames.items self.new.frames.items) }
        ensures part { OnOk result (self.new.part ≡ argument) }
        ensures node { OnOk result (self.new.node ≡ self.old.node) }
        ensures before { OnOk result (self.new.before.items ≡ self.old.before.items) }
        ensures functions { OnOk result (self.new.functions.items ≡ self.old.functions.items) }
    {
        let function = mem::replace(&mut self.part, argument);
        come_back(&mut self.frames, Step::Argument(function), is_passed_over)
    }

    // To the term around the part, which is the argument of `f`.
    fn out_of_argument(&mut self, alloc: Global, f: &Term) -> Result<(), AllocError>
        requires { named_type (comb f.now self.old.part) ≡ None → ⊥ }
        ensures frames { OnOk result (self.new.frames.items ≡ self.old.frames.items) }
        ensures part { OnOk result (self.new.part ≡ comb f.now self.old.part) }
        ensures node { OnOk result (self.new.node ≡ self.old.node) }
        ensures before { OnOk result (self.new.before.items ≡ self.old.before.items) }
        ensures functions { OnOk result (self.new.functions.items ≡ self.old.functions.items) }
    {
        self.part = application_of(alloc, self.entered.last(), f, &self.part)?;
        let _entered = self.entered.pop();
        Ok(())
    }

    // To the term around the part, which is the body of the abstraction of `v`.
    fn out_of_body(&mut self, alloc: Global, v: &Variable) -> Result<(), AllocError>
        ensures frames { OnOk result (self.new.frames.items ≡ self.old.frames.items) }
        ensures part { OnOk result (self.new.part ≡ abs v.now self.old.part) }
        ensures node { OnOk result (self.new.node ≡ self.old.node) }
        ensures before { OnOk result (self.new.before.items ≡ self.old.before.items) }
        ensures functions { OnOk result (self.new.functions.items ≡ self.old.functions.items) }
    {
        self.part = abstraction_of(alloc, self.entered.last(), v, &self.part)?;
        let _entered = self.entered.pop();
        Ok(())
    }

    /// The size of the whole term with this part, up to 20,001.
    #[tactic(auto, using(crate::proofs::PlaceSizes::whole_sizes))]
    pub(crate) fn size_with(&self, part: &Term) -> u32
        ensures { result ≡ min (term_size [] (whole (reverse self.now.frames.items) (nameless [] part.now))) 20001 }
    {
        let mut size = part.size();
        let mut outer: &[Frame] = &self.frames;
        'frames: while let Some((frame, rest)) = outer.split_last() {
            size = frame.step.size_around(size);
            outer = rest;
        }
        size
    }

    // Keeps how the part was rewritten, where it is a function, and goes on with its argument; else leaves it by this step.
    #[tactic(auto, using(crate::proofs::PlaceTraces::on_by, crate::proofs::PlaceTraces::led_untraced))]
    fn lead_on(&mut self, alloc: Global, step: &Step) -> Result<(), AllocError>
        ensures frames { OnOk result (self.new.frames.items ≡ self.old.frames.items) }
        ensures part { OnOk result (self.new.part ≡ self.old.part) }
        ensures led { OnOk result ((r : Redexes) (t n : Nameless) → NoneLeft r step.now → Led r (step.now ∷ steps_of (reverse self.old.frames.items)) (reverse self.old.before.items) (reverse self.old.functions.items) (node_of self.old.node) t n → LeadsOn r step.now (steps_of (reverse self.old.frames.items)) (reverse self.new.before.items) (reverse self.new.functions.items) (node_of self.new.node) t n) }
    {
        let depth = self.frames.len();
        if self.is_untraced(depth) {
            return Ok(());
        }
        match step {
            Step::Function(_) => put(&mut self.functions, depth, self.node.take()),
            Step::Argument(_) => self.lead_out(alloc, depth, step),
            Step::Body(_) => self.lead_out(alloc, depth, step),
        }
    }

    // How the term around the part, which is at this depth, was rewritten takes the place of how the part was, which is left by this step.
    #[inline(never)]
    fn lead_out(&mut self, alloc: Global, depth: usize, step: &Step) -> Result<(), AllocError>
        ensures frames { OnOk result (self.new.frames.items ≡ self.old.frames.items) }
        ensures part { OnOk result (self.new.part ≡ self.old.part) }
        ensures led { OnOk result ((r : Redexes) (ss : List Step) (t n : Nameless) → depth ≡ length ss → NoneLeft r step.now → Led r (step.now ∷ ss) (reverse self.old.before.items) (reverse self.old.functions.items) (node_of self.old.node) t n → Led r ss (reverse self.new.before.items) (reverse self.new.functions.items) (node_of self.new.node) t (around step.now n)) }
    {
        let function = take(&mut self.functions, depth);
        let turn = around(alloc, step, function, self.node.take())?;
        self.node = then(alloc, take(&mut self.before, depth), turn)?;
        Ok(())
    }

    // Whether it is seen at once that nothing is known to have become of the part, nor of the term around it, which is at this depth, nor of a function
    // beside the part.
    fn is_untraced(&self, depth: usize) -> bool
        ensures node { IsTrue result → node_of self.now.node ≡ Same }
        ensures functions { IsTrue result → is_kept depth (reverse self.now.functions.items) ≡ false }
        ensures before { IsTrue result → is_kept depth (reverse self.now.before.items) ≡ false }
    {
        self.node.is_none() && !is_kept(&self.functions, depth) && !is_kept(&self.before, depth)
    }

    // Keeps how the part was rewritten, which is now stepped into.
    #[tactic(auto, using(crate::proofs::PlaceTraces::put_none))]
    fn keep_before(&mut self) -> Result<(), AllocError>
        ensures frames { OnOk result (self.new.frames.items ≡ self.old.frames.items) }
        ensures part { OnOk result (self.new.part ≡ self.old.part) }
        ensures node { OnOk result (self.new.node ≡ None) }
        ensures before { OnOk result (IsPut (length self.old.frames.items) (node_of self.old.node) (reverse self.old.before.items) (reverse self.new.before.items)) }
        ensures functions { OnOk result (self.new.functions.items ≡ self.old.functions.items) }
    {
        if self.node.is_none() {
            return Ok(());
        }
        put(&mut self.before, self.frames.len(), self.node.take())
    }

    // The same by all these steps, of which the last is the first.
    fn lead_through(&mut self, alloc: Global, steps: Vec<Step>) -> Result<(), AllocError>
        ensures frames { OnOk result (self.new.frames.items ≡ self.old.frames.items) }
        ensures part { OnOk result (self.new.part ≡ self.old.part) }
        ensures led { OnOk result ((r : Redexes) (t n : Nameless) → NoneLeftOf r (reverse steps.items) → Led r (reverse steps.items ++ steps_of (reverse self.old.frames.items)) (reverse self.old.before.items) (reverse self.old.functions.items) (node_of self.old.node) t n → Led r (steps_of (reverse self.old.frames.items)) (reverse self.new.before.items) (reverse self.new.functions.items) (node_of self.new.node) t (outward (reverse steps.items) n)) }
    {
        let mut steps = steps;
        'steps: while let Some(step) = steps.pop() {
            let depth = self.frames.len() + steps.len();
            self.lead_out(alloc, depth, &step)?;
        }
        Ok(())
    }

    /// Puts what the part becomes in its place, then goes up to the topmost term above that is now a redex, if there is one.
    ///
    /// `levels` is how deep an outline is looked at. A term so many levels above the part, or more, has the outline that it had: where it is
    /// known that it and all above are passed over, none of these is tried.
    pub(crate) fn put(
        &mut self,
        alloc: Global,
        redexes: &Redexes,
        levels: Option<usize>,
        redex: Contracted,
    ) -> Result<(), AllocError>
        requires stands { Stands redexes.now (reverse self.old.frames.items) (nameless [] self.old.part) }
        requires typed { named_type redex.term ≡ named_type self.old.part }
        requires levels { IfSome levels (λ d. d ≡ depth redexes.now) }
        ensures lands { OnOk result (Lands redexes.now (reverse self.old.frames.items) (nameless [] redex.term) (reverse self.new.frames.items) (nameless [] self.new.part)) }
        ensures led { OnOk result ((t : Nameless) → Traces (redex_givens redexes.now) redex.node.value (nameless [] self.old.part) (nameless [] redex.term) → HasLed redexes.now t self.old → HasLed redexes.now t self.new) }
    {
        let Contracted { term, node } = redex;
        self.entered.clear();
        self.node = then(alloc, self.node.take(), Some(node))?;
        let mut steps = Vec::new(alloc);
        self.put_part(alloc, redexes, levels, term, &mut steps)?;
        self.lead_through(alloc, steps)
    }

    // The same, but for the traces; the steps to the part from the term that is gone up to are put into `steps`.
    #[tactic(auto, using(crate::proofs::Rising::putting))]
    fn put_part(
        &mut self,
        alloc: Global,
        redexes: &Redexes,
        levels: Option<usize>,
        term: Term,
        steps: &mut Vec<Step>,
    ) -> Result<(), AllocError>
        requires stands { Stands redexes.now (reverse self.old.frames.items) (nameless [] self.old.part) }
        requires typed { named_type term ≡ named_type self.old.part }
        requires levels { IfSome levels (λ d. d ≡ depth redexes.now) }
        requires steps { steps.old.items ≡ [] }
        ensures lands { OnOk result (Lands redexes.now (reverse self.old.frames.items) (nameless [] term) (reverse self.new.frames.items) (nameless [] self.new.part)) }
        ensures leaves { OnOk result (Leaves (reverse steps.new.items) (steps_of (reverse self.old.frames.items)) (steps_of (reverse self.new.frames.items)) (nameless [] term) (nameless [] self.new.part)) }
        ensures node { OnOk result (self.new.node ≡ self.old.node) }
        ensures before { OnOk result (self.new.before.items ≡ self.old.before.items) }
        ensures functions { OnOk result (self.new.functions.items ≡ self.old.functions.items) }
    {
        let levels = one_less(levels);
        self.part = match rise(alloc, redexes, &mut self.frames, steps, &term, levels)? {
            Some(higher) => higher,
            None => term,
        };
        Ok(())
    }
}

// Goes up to the topmost term above the part that is a redex; `None`, and stays, where there is none. Of the terms above, the next `left`
// may have another outline than before; so may all, where that is `None`. The steps to the part from the term that is found are put into
// `steps`.
#[tactic(auto, using(crate::proofs::Rising::rising, crate::proofs::PlaceTraces::leaving))]
fn rise(
    alloc: Global,
    redexes: &Redexes,
    frames: &mut Vec<Frame>,
    steps: &mut Vec<Step>,
    part: &Term,
    left: Option<usize>,
) -> Result<Option<Term>, AllocError>
    requires walked { AreWalked redexes.now (reverse frames.old.items) (nameless [] part.now) }
    requires took { Took redexes.now left (reverse frames.old.items) (nameless [] part.now) }
    requires steps { steps.old.items ≡ [] }
    ensures leaves { IfOk result (λ found. MatchOption found (Leaves [] (steps_of (reverse frames.old.items)) (steps_of (reverse frames.new.items)) (nameless [] part.now) (nameless [] part.now)) (λ t. Leaves (reverse steps.new.items) (steps_of (reverse frames.old.items)) (steps_of (reverse frames.new.items)) (nameless [] part.now) (nameless [] t))) }
    ensures none { IfOk result (λ found. IfNone found (steps.new.items ≡ [])) }
    ensures lands { IfOk result (λ found. MatchOption found (Lands redexes.now (reverse frames.old.items) (nameless [] part.now) (reverse frames.new.items) (nameless [] part.now)) (λ t. Lands redexes.now (reverse frames.old.items) (nameless [] part.now) (reverse frames.new.items) (nameless [] t))) }
{
    if left == Some(0) && is_marked(frames) {
        return Ok(None);
    }
    let Some(frame) = frames.pop() else {
        return Ok(None);
    };
    let term = frame.step.around(alloc, part)?;
    if let Some(higher) = rise(alloc, redexes, frames, steps, &term, one_less(left))? {
        steps.push(frame.step)?;
        return Ok(Some(higher));
    }
    if redexes.is_redex(alloc, &term)? {
        steps.push(frame.step)?;
        return Ok(Some(term));
    }
    let is_passed_over = is_marked(frames) && redexes.passes_over(&term);
    come_back(frames, frame.step, is_passed_over)?;
    Ok(None)
}

// Puts the frame at the end.
#[inline(never)]
fn come_back(frames: &mut Vec<Frame>, step: Step, is_passed_over: bool) -> Result<(), AllocError>
    ensures { OnOk result (ComesBack step is_passed_over frames.old.items frames.new.items) }
{
    Ok(frames.push(Frame {
        step,
        is_passed_over,
    })?)
}

// Whether it is known that the innermost frame's term, and each one above, is passed over.
fn is_marked(frames: &[Frame]) -> bool
    ensures { result ≡ is_marked (reverse frames.now) }
{
    match frames.last() {
        Some(frame) => frame.is_passed_over,
        None => true,
    }
}

// One less, down to 0.
fn one_less(left: Option<usize>) -> Option<usize>
    ensures { result ≡ option_map pred left }
{
    match left {
        Some(levels) => Some(levels.saturating_sub(1)),
        None => None,
    }
}
