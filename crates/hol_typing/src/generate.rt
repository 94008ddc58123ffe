//! The equations between slots that the typings of a term meet.
ghost use Rattle.std.specs.Prelude.{◌≡◌, ◌+◌, ◌<◌, ◌≤◌, ℕ, List, [], length, IfOk, OnOk, MatchOption, Some, None};
ghost use Rattle.std.specs.List.{All};
ghost use Rattle.hol_types.specs.Tree.{TyVar};
ghost use Rattle.hol_typing.specs.Raw.{RawBound, RawConstant, RawFree};
ghost use Rattle.hol_typing.specs.RawView.{raw_tree, slot_tree, scope_slots};
ghost use Rattle.hol_typing.specs.Generate.{slots, slot_of, IsWellFormed, IsNewCell, IsFresh, IsFunction, IsEquated, OpensApplication, OpensAbstraction, OpensAnnotation, AddsUnknown, IsPlace, HasNoPlace, IsRigidBut, IsRigidOption, IsClosedAt, BuildsType, Instantiates, FindsName, BuildsVariable, Generates};

use crate::cell::{Cell, Equation};
use crate::raw::RawTerm;
use crate::scheme::Scheme;
use crate::skeleton::{Scope, Skeleton};
use hol_types::{Name, Ty, TyNode};
use std::alloc::{AllocError, Global};

/// Slots, equations between them that are still to be solved, and the slots of the free names.
#[derive(Drop)]
pub(crate) struct Graph {
    pub(crate) cells: Vec<Cell>,
    pub(crate) pending: Vec<Equation>,
    pub(crate) names: Vec<(Name, usize)>,
}

impl Graph {
    /// No slots.
    pub(crate) fn new(alloc: Global) -> Graph
        ensures cells { result.cells.items ≡ [] }
        ensures pending { result.pending.items ≡ [] }
        ensures names { result.names.items ≡ [] }
    {
        Graph {
            cells: Vec::new(alloc),
            pending: Vec::new(alloc),
            names: Vec::new(alloc),
        }
    }

    /// One slot more.
    pub(crate) fn fresh(&mut self, cell: Cell) -> Result<usize, AllocError>
        requires well_formed { IsWellFormed self.old }
        requires cell_in { IsNewCell (slots self.old) cell }
        ensures { IfOk result (λ slot. IsFresh self.old self.new slot cell) }
    {
        let slot = self.cells.len();
        self.cells.push(cell)?;
        Ok(slot)
    }

    // One slot more, for a type of functions.
    fn function(&mut self, alloc: Global, domain: usize, range: usize) -> Result<usize, AllocError>
        requires well_formed { IsWellFormed self.old }
        requires domain_in { domain < slots self.old }
        requires range_in { range < slots self.old }
        ensures { IfOk result (λ slot. IsFunction self.old self.new slot domain range) }
    {
        let name = Name::new(alloc, "fun")?;
        let mut parts = Vec::with_capacity(alloc, 2)?;
        parts.push(domain)?;
        parts.push(range)?;
        self.fresh(Cell::App(name, parts))
    }

    // One equation more.
    fn equate(&mut self, left: usize, right: usize) -> Result<(), AllocError>
        requires well_formed { IsWellFormed self.old }
        requires left_in { left < slots self.old }
        requires right_in { right < slots self.old }
        ensures { OnOk result (IsEquated self.old self.new left right) }
    {
        self.pending.push(Equation { left, right })?;
        Ok(())
    }

    /// Some slots more, of which nothing is known.
    #[tactic(auto, using(crate::proofs::Slots::unknown_none))]
    pub(crate) fn unknowns(&mut self, count: usize) -> Result<usize, AllocError>
        requires { IsWellFormed self.old }
        ensures base { IfOk result (λ base. base ≡ slots self.old) }
        ensures adds { OnOk result (AddsUnknown self.old self.new count) }
    {
        let base = self.cells.len();
        for _ in 0..count {
            self.fresh(Cell::Unknown)?;
        }
        Ok(base)
    }

    // The slot of a type variable, for which that at its place from `base` on stands where it is one of the names.
    #[tactic(auto, using(crate::proofs::Extending::builds_type_place))]
    fn type_variable_slot(
        &mut self,
        names: &[Name],
        base: usize,
        name: &Name,
    ) -> Result<usize, AllocError>
        requires well_formed { IsWellFormed self.old }
        requires base_in { base + length names.now ≤ slots self.old }
        requires rigid { IsRigidBut names.now (TyVar name.now) }
        ensures { IfOk result (λ slot. BuildsType self.old self.new names.now base slot (TyVar name.now)) }
    {
        match place(names, name) {
            Some(at) => Ok(base + at),
            None => self.fresh(Cell::Rigid(name.copy()?)),
        }
    }

    /// A slot for a type, in which the slots from `base` on stand for the names.
    #[tactic(auto, using(crate::proofs::Extending::builds_types_none))]
    pub(crate) fn type_slot(
        &mut self,
        alloc: Global,
        names: &[Name],
        base: usize,
        ty: &Ty,
    ) -> Result<usize, AllocError>
        requires well_formed { IsWellFormed self.old }
        requires base_in { base + length names.now ≤ slots self.old }
        requires rigid { IsRigidBut names.now ty.now }
        ensures { IfOk result (λ slot. BuildsType self.old self.new names.now base slot ty.now) }
    {
        match ty.node() {
            TyNode::Var(name) => self.type_variable_slot(names, base, name),
            TyNode::App(name, args) => {
                let mut parts = Vec::with_capacity(alloc, args.len())?;
                for arg in args {
                    let part = self.type_slot(alloc, names, base, arg)?;
                    parts.push(part)?;
                }
                self.fresh(Cell::App(name.copy()?, parts))
            }
        }
    }

    // Gives the slot an instance of the generic type, whose parts have no slots yet.
    fn instantiate(&mut self, generic: &Scheme, expected: usize) -> Result<(), AllocError>
        requires well_formed { IsWellFormed self.old }
        requires expected_in { expected < slots self.old }
        ensures { OnOk result (Instantiates self.old self.new generic.now expected) }
    {
        let slot = self.fresh(Cell::Generic(generic.copy()?))?;
        self.equate(slot, expected)?;
        Ok(())
    }

    // The slot of a free name that has one.
    fn find(&self, name: &Name) -> Option<usize>
        ensures { result ≡ slot_of self.now.names.items name.now }
    {
        for pair in &self.names {
            if pair.0.same(name) {
                return Some(pair.1);
            }
        }
        None
    }

    // The slot of a free name.
    fn name_slot(&mut self, name: &Name) -> Result<usize, AllocError>
        requires { IsWellFormed self.old }
        ensures { IfOk result (λ slot. FindsName self.old self.new name.now slot) }
    {
        if let Some(slot) = self.find(name) {
            return Ok(slot);
        }
        let slot = self.fresh(Cell::Unknown)?;
        self.names.push((name.copy()?, slot))?;
        Ok(slot)
    }

    // The slot of a bound variable.
    fn variable_slot(&mut self, alloc: Global, annotation: &Option<Ty>) -> Result<usize, AllocError>
        requires well_formed { IsWellFormed self.old }
        requires rigid { IsRigidOption annotation.now }
        ensures { IfOk result (λ slot. BuildsVariable self.old self.new slot annotation.now) }
    {
        match annotation {
            Some(ty) => self.type_slot(alloc, &[], 0, ty),
            None => self.fresh(Cell::Unknown),
        }
    }

    // A bound variable, whose type is that of the slot `expected`.
    #[inline(never)]
    fn bound(
        &mut self,
        scope: &Scope<'_>,
        index: usize,
        expected: usize,
    ) -> Result<Skeleton, AllocError>
        requires well_formed { IsWellFormed self.old }
        requires bound_in { All (λ s. s < slots self.old) (scope_slots scope.now) }
        requires index_in { index < length (scope_slots scope.now) }
        requires expected_in { expected < slots self.old }
        ensures { IfOk result (λ skeleton. Generates self.old self.new (scope_slots scope.now) (RawBound index) expected (slot_tree skeleton)) }
    {
        let slot = scope.slot(index);
        self.equate(slot, expected)?;
        Ok(Skeleton::Bound(index))
    }

    // A constant, whose type is that of the slot `expected`.
    #[inline(never)]
    fn constant(
        &mut self,
        name: &Name,
        generic: &Scheme,
        expected: usize,
    ) -> Result<Skeleton, AllocError>
        requires well_formed { IsWellFormed self.old }
        requires expected_in { expected < slots self.old }
        ensures { IfOk result (λ skeleton. (env : List ℕ) → Generates self.old self.new env (RawConstant name.now generic.now) expected (slot_tree skeleton)) }
    {
        self.instantiate(generic, expected)?;
        Ok(Skeleton::Constant(name.copy()?, expected))
    }

    // A free variable, whose type is that of the slot `expected`.
    #[inline(never)]
    fn free(&mut self, name: &Name, expected: usize) -> Result<Skeleton, AllocError>
        requires well_formed { IsWellFormed self.old }
        requires expected_in { expected < slots self.old }
        ensures { IfOk result (λ skeleton. (env : List ℕ) → Generates self.old self.new env (RawFree name.now) expected (slot_tree skeleton)) }
    {
        let slot = self.name_slot(name)?;
        self.equate(slot, expected)?;
        Ok(Skeleton::Free(name.copy()?, expected))
    }

    // Two slots more: for the type of functions to that of the slot `expected`, and for the type that these are from.
    #[inline(never)]
    fn open_application(
        &mut self,
        alloc: Global,
        expected: usize,
    ) -> Result<(usize, usize), AllocError>
        requires well_formed { IsWellFormed self.old }
        requires expected_in { expected < slots self.old }
        ensures opens { IfOk result (λ p. OpensApplication self.old self.new p.1 p.0 expected) }
        ensures well_formed { OnOk result (IsWellFormed self.new) }
        ensures more { OnOk result (slots self.old ≤ slots self.new) }
        ensures slots_in { IfOk result (λ p. (p.0 < slots self.new) × (p.1 < slots self.new)) }
    {
        let domain = self.fresh(Cell::Unknown)?;
        let whole = self.function(alloc, domain, expected)?;
        Ok((whole, domain))
    }

    // The slots of a bound variable and of what a function of it gives, where the function's type is that of the slot `expected`.
    #[inline(never)]
    fn open_abstraction(
        &mut self,
        alloc: Global,
        annotation: &Option<Ty>,
        expected: usize,
    ) -> Result<(usize, usize), AllocError>
        requires well_formed { IsWellFormed self.old }
        requires rigid { IsRigidOption annotation.now }
        requires expected_in { expected < slots self.old }
        ensures opens { IfOk result (λ p. OpensAbstraction self.old self.new p.0 p.1 expected annotation.now) }
        ensures well_formed { OnOk result (IsWellFormed self.new) }
        ensures more { OnOk result (slots self.old ≤ slots self.new) }
        ensures slots_in { IfOk result (λ p. (p.0 < slots self.new) × (p.1 < slots self.new)) }
    {
        let variable = self.variable_slot(alloc, annotation)?;
        let range = self.fresh(Cell::Unknown)?;
        let whole = self.function(alloc, variable, range)?;
        self.equate(whole, expected)?;
        Ok((variable, range))
    }

    // Gives the slot `expected` the type that is written.
    #[inline(never)]
    fn open_annotation(&mut self, alloc: Global, ty: &Ty, expected: usize) -> Result<(), AllocError>
        requires well_formed { IsWellFormed self.old }
        requires rigid { IsRigidBut [] ty.now }
        requires expected_in { expected < slots self.old }
        ensures opens { OnOk result (OpensAnnotation self.old self.new expected ty.now) }
        ensures well_formed { OnOk result (IsWellFormed self.new) }
        ensures more { OnOk result (slots self.old ≤ slots self.new) }
    {
        let slot = self.type_slot(alloc, &[], 0, ty)?;
        self.equate(slot, expected)
    }

    /// Adds slots and equations for the term, whose type is that of the slot `expected`.
    pub(crate) fn generate(
        &mut self,
        alloc: Global,
        scope: &Scope<'_>,
        term: &RawTerm,
        expected: usize,
    ) -> Result<Box<Skeleton>, AllocError>
        requires well_formed { IsWellFormed self.old }
        requires bound_in { All (λ s. s < slots self.old) (scope_slots scope.now) }
        requires closed { IsClosedAt (length (scope_slots scope.now)) (raw_tree term.now) }
        requires expected_in { expected < slots self.old }
        ensures { IfOk result (λ skeleton. Generates self.old self.new (scope_slots scope.now) (raw_tree term.now) expected (slot_tree skeleton.value)) }
    {
        match term {
            RawTerm::Bound(index) => Skeleton::boxed(alloc, self.bound(&*scope, *index, expected)),
            RawTerm::Constant(name, generic) => {
                Skeleton::boxed(alloc, self.constant(name, generic, expected))
            }
            RawTerm::Free(name) => Skeleton::boxed(alloc, self.free(name, expected)),
            RawTerm::Apply(function, argument) => {
                let (function_slot, domain) = self.open_application(alloc, expected)?;
                let left = self.generate(alloc, &*scope, function, function_slot)?;
                let right = self.generate(alloc, &*scope, argument, domain)?;
                Skeleton::apply(alloc, left, right)
            }
            RawTerm::Abstraction(name, annotation, body) => {
                let (variable, range) = self.open_abstraction(alloc, annotation, expected)?;
                let inside = Scope::Inside(variable, &*scope);
                let inner = self.generate(alloc, &inside, body, range)?;
                Skeleton::abstraction(alloc, name, variable, inner)
            }
            RawTerm::Annotated(inner, ty) => {
                self.open_annotation(alloc, ty, expected)?;
                self.generate(alloc, &*scope, inner, expected)
            }
        }
    }
}

/// The place of a name among the names.
pub(crate) fn place(names: &[Name], name: &Name) -> Option<usize>
    ensures { MatchOption result (HasNoPlace names.now name.now) (λ i. IsPlace names.now name.now i) }
{
    for (i, other) in names.iter().enumerate() {
        if other.same(name) {
            return Some(i);
        }
    }
    None
}
