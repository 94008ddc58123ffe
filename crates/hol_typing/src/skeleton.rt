//! Terms with slots in place of types.
ghost use Rattle.std.specs.Prelude.{◌≡◌, ◌<◌, length, slice_get, Some, Ok, IfOk};
ghost use Rattle.hol_typing.specs.SlotTree.{SlotApply, SlotAbstraction};
ghost use Rattle.hol_typing.specs.RawView.{scope_slots, slot_tree};

use hol_types::Name;
use std::alloc::{AllocError, Global};

/// A term with slots for its types.
#[derive(Drop)]
pub enum Skeleton {
    /// The variable of the abstraction so many outwards, from 0.
    Bound(usize),
    /// A constant.
    Constant(Name, usize),
    /// A free variable.
    Free(Name, usize),
    /// An application of the first to the second.
    Apply(Box<Skeleton>, Box<Skeleton>),
    /// An abstraction: the bound variable's name and slot, and the body.
    Abstraction(Name, usize, Box<Skeleton>),
}

impl Skeleton {
    /// The application of the first to the second.
    #[inline(never)]
    pub(crate) fn apply(
        alloc: Global,
        function: Box<Skeleton>,
        argument: Box<Skeleton>,
    ) -> Result<Box<Skeleton>, AllocError>
        ensures { IfOk result (λ t. slot_tree t.value ≡ SlotApply (slot_tree function.value) (slot_tree argument.value)) }
    {
        Ok(Box::new(alloc, Skeleton::Apply(function, argument))?)
    }

    /// The abstraction over a variable of this name and slot.
    #[inline(never)]
    pub(crate) fn abstraction(
        alloc: Global,
        name: &Name,
        slot: usize,
        body: Box<Skeleton>,
    ) -> Result<Box<Skeleton>, AllocError>
        ensures { IfOk result (λ t. slot_tree t.value ≡ SlotAbstraction name.now slot (slot_tree body.value)) }
    {
        Ok(Box::new(alloc, Skeleton::Abstraction(name.copy()?, slot, body))?)
    }

    /// The skeleton in a box: so a call that answers it takes less of the stack.
    #[inline(never)]
    pub(crate) fn boxed(
        alloc: Global,
        skeleton: Result<Skeleton, AllocError>,
    ) -> Result<Box<Skeleton>, AllocError>
        ensures { IfOk result (λ b. skeleton ≡ Ok b.value) }
    {
        Ok(Box::new(alloc, skeleton?)?)
    }
}

/// The slots of the variables of the enclosing abstractions, the innermost first.
#[derive(Clone, Copy)]
pub enum Scope<'a> {
    /// Under no abstraction.
    Outermost,
    /// Under an abstraction whose variable has this slot, which stands in that scope.
    Inside(usize, &'a Scope<'a>),
}

impl<'a> Scope<'a> {
    /// The slot of the variable that an index means.
    pub(crate) fn slot(&self, index: usize) -> usize
        requires { index < length (scope_slots self.now) }
        ensures { slice_get (scope_slots self.now) index ≡ Some result }
    {
        match self {
            Scope::Outermost => 0,
            Scope::Inside(slot, outer) => {
                if index == 0 {
                    *slot
                } else {
                    outer.slot(index - 1)
                }
            }
        }
    }
}
