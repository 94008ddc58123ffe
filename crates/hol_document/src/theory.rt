//! A theory that stands.
ghost use Rattle.std.specs.Prelude.{◌≡◌, IfOk, map, string_bytes};
ghost use Rattle.hol_document.specs.Slots.{ended_of};

use crate::slot::Slot;
use hol_exec::{EarlierTheory, State};
use std::alloc::{AllocError, Global};
use std::marker::Model;
use std::rc::Rc;

/// A theory that stands: its name, its slots and its last state. Its copies share these.
#[derive(Drop)]
pub(crate) struct Theory {
    shared: Rc<TheoryShared>,
}

// What the copies of a theory share.
#[derive(Drop)]
struct TheoryShared {
    name: Rc<String>,
    slots: Vec<Rc<Slot>>,
    last: Rc<State>,
}

impl Model for Theory {
    ghost use Rattle.std.specs.Prelude.{map, string_bytes};
    ghost use Rattle.std.specs.Coded.{codes};
    ghost use Rattle.hol_exec.specs.CommandCode.{coded_command};
    ghost use Rattle.hol_stack.specs.Codes.{step_code};
    ghost use Rattle.hol_exec.specs.Codes.{coded_reads, coded_outcome, coded_state};
    ghost use Rattle.hol_document.specs.Slots.{StandingValue};

    ghost Value = { StandingValue };

    ghost coded = { Prim.hlevel (codes, coded_command, coded_reads, coded_outcome, step_code, coded_state) };

    ghost view = { λ t. record { name = string_bytes t.shared.value.name.value; slots = map (λ slot. slot.value) t.shared.value.slots.items; last = t.shared.value.last.value } };
}

impl Theory {
    /// The theory of these.
    pub(crate) fn new(
        alloc: Global,
        name: Rc<String>,
        slots: Vec<Rc<Slot>>,
        last: Rc<State>,
    ) -> Result<Theory, AllocError>
        ensures { IfOk result (λ theory. theory ≡ record { name = string_bytes name.value; slots = map (λ slot. slot.value) slots.items; last = last.value }) }
    {
        let shared = TheoryShared { name, slots, last };
        Ok(Theory {
            shared: Rc::new(alloc, shared)?,
        })
    }

    /// The theory of the same name with these slots, which lead to this state.
    pub(crate) fn with_slots(
        &self,
        alloc: Global,
        slots: Vec<Rc<Slot>>,
        last: Rc<State>,
    ) -> Result<Theory, AllocError>
        ensures { IfOk result (λ theory. theory ≡ record { name = self.now.name; slots = map (λ slot. slot.value) slots.items; last = last.value }) }
    {
        let name = self.shared.name.clone()?;
        Theory::new(alloc, name, slots, last)
    }

    /// The same theory.
    pub(crate) fn copy(&self) -> Result<Theory, AllocError>
        ensures { IfOk result (λ theory. theory ≡ self.now) }
    {
        Ok(Theory {
            shared: self.shared.clone()?,
        })
    }

    /// Its name, to share.
    pub(crate) fn shared_name(&self) -> &Rc<String>
        ensures { string_bytes result.now.value ≡ self.now.name }
    {
        &self.shared.name
    }

    /// Its slots, in order.
    pub(crate) fn slots(&self) -> &[Rc<Slot>]
        ensures { map (λ slot. slot.value) result.now ≡ self.now.slots }
    {
        &self.shared.slots
    }

    /// Its last state, to share.
    pub(crate) fn last(&self) -> &Rc<State>
        ensures { result.now.value ≡ self.now.last }
    {
        &self.shared.last
    }
}

impl EarlierTheory for Theory {
    ghost use Rattle.hol_document.specs.Slots.{ended_of};

    ghost ended = { ended_of };

    fn name(&self) -> &str {
        self.shared.name.as_str()
    }

    fn state(&self) -> &State {
        &self.shared.last
    }
}
