//! Slots for the parts of generic types, where unification meets them.
ghost use Rattle.std.specs.Prelude.{◌≡◌, ◌+◌, ◌<◌, ◌≤◌, [], length, set, IfOk, IfErr, OnOk, MatchOption, IsTrue};
ghost use Rattle.hol_types.specs.Tree.{TyVar, TyApp, type_list};
ghost use Rattle.hol_types.specs.Names.{is_among, type_names};
ghost use Rattle.hol_typing.specs.declared.cell.Cell.TheVariants.{Unknown, Generic, Part};
ghost use Rattle.hol_typing.specs.Graph.{cell_at, HasNoSolution, IsGenericAt, IsPartIn, generics};
ghost use Rattle.hol_typing.specs.Generate.{slots, IsWellFormed, AreRigidBut, BuildsTypes};
ghost use Rattle.hol_typing.specs.declared.scheme.Variables.TheVariants.{Distinct};
ghost use Rattle.hol_typing.specs.Linear.{AreLinear, AreApart, ArePairwiseApart, AreDistinct, IsLinearBut, AreLinearBut, ArePairwiseApartBut};
ghost use Rattle.hol_typing.specs.Expanding.{Refines, BuildsParts, BuildsBound, BuildsAllBound, BuildsInstance, Expands};

use crate::cell::{Cell, GenericPart};
use crate::fault::Fault;
use crate::generate::{Graph, place};
use crate::graph::unify;
use crate::scheme::{Scheme, Variables};
use hol_types::{Name, Ty, TyNode};
use std::alloc::{AllocError, Global};
use std::rc::Rc;

impl Graph {
    // Slots for types, in which the slots from `base` on stand for the names.
    #[tactic(auto, using(crate::proofs::Extending::builds_types_none))]
    fn type_slots(
        &mut self,
        alloc: Global,
        names: &[Name],
        base: usize,
        types: &[Ty],
    ) -> Result<Vec<usize>, AllocError>
        requires well_formed { IsWellFormed self.old }
        requires base_in { base + length names.now ≤ slots self.old }
        requires rigid { AreRigidBut names.now (type_list types.now) }
        ensures { IfOk result (λ parts. BuildsTypes self.old self.new names.now base parts.items types.now) }
    {
        let mut parts = Vec::with_capacity(alloc, types.len())?;
        for ty in types {
            let part = self.type_slot(alloc, names, base, ty)?;
            parts.push(part)?;
        }
        Ok(parts)
    }

    // Slots for the arguments of the constructor of this generic type, and the cell of the instance.
    fn constructed(
        &mut self,
        alloc: Global,
        generic: &Ty,
        name: &Name,
        args: &[Ty],
    ) -> Result<Cell, AllocError>
        requires well_formed { IsWellFormed self.old }
        requires parts { TyApp name.now (type_list args.now) ≡ generic.now }
        ensures { IfOk result (λ cell. BuildsInstance self.old self.new cell (Generic generic.now)) }
    {
        let names = generic.tyvars(alloc)?;
        let base = self.unknowns(names.len())?;
        let parts = self.type_slots(alloc, &names, base, args)?;
        Ok(Cell::App(name.copy()?, parts))
    }

    // A slot for each of the types, whose parts get no slots yet.
    #[tactic(auto, using(crate::proofs::Splitting::parts_none, crate::proofs::Splitting::parts_all))]
    fn generic_slots(
        &mut self,
        alloc: Global,
        types: &[Ty],
        variables: Variables,
    ) -> Result<Vec<usize>, AllocError>
        requires well_formed { IsWellFormed self.old }
        requires linear { variables ≡ Distinct → AreLinear types.now }
        ensures { IfOk result (λ parts. BuildsParts self.old self.new parts.items types.now) }
    {
        let mut parts = Vec::with_capacity(alloc, types.len())?;
        for ty in types {
            let part = self.fresh(Cell::Generic(Scheme::of(ty, variables)?))?;
            parts.push(part)?;
        }
        Ok(parts)
    }

    // Slots for types of which no two have a type variable in common, whose parts get no slots yet, and the cell of their constructor.
    fn split(
        &mut self,
        alloc: Global,
        name: &Name,
        args: &[Ty],
        variables: Variables,
    ) -> Result<Cell, AllocError>
        requires well_formed { IsWellFormed self.old }
        requires apart { ArePairwiseApart args.now }
        requires linear { variables ≡ Distinct → AreLinear args.now }
        ensures { IfOk result (λ cell. BuildsInstance self.old self.new cell (Generic (TyApp name.now (type_list args.now)))) }
    {
        let parts = self.generic_slots(alloc, args, variables)?;
        Ok(Cell::App(name.copy()?, parts))
    }

    // The slot of a type variable of a part, which is that at its place from `base` on where it is one of the names.
    #[tactic(auto, using(crate::proofs::Bound::bound_place))]
    fn bound_variable(
        &mut self,
        names: &[Name],
        base: usize,
        name: &Name,
    ) -> Result<usize, AllocError>
        requires well_formed { IsWellFormed self.old }
        requires row_in { base + length names.now ≤ slots self.old }
        ensures { IfOk result (λ slot. BuildsBound self.old self.new names.now base slot (TyVar name.now)) }
    {
        match place(names, name) {
            Some(at) => Ok(base + at),
            None => self.fresh(Cell::Unknown),
        }
    }

    // A slot for a type that is a part of an instance in which the slots from `base` on stand for the names.
    fn bound_slot(
        &mut self,
        names: &Rc<Vec<Name>>,
        base: usize,
        ty: &Ty,
    ) -> Result<usize, AllocError>
        requires well_formed { IsWellFormed self.old }
        requires row_in { base + length names.now.value.items ≤ slots self.old }
        requires linear { IsLinearBut names.now.value.items ty.now }
        requires distinct { AreDistinct names.now.value.items }
        ensures { IfOk result (λ slot. BuildsBound self.old self.new names.now.value.items base slot ty.now) }
    {
        match ty.node() {
            TyNode::Var(name) => self.bound_variable(names, base, name),
            TyNode::App(_, _) => {
                let part = GenericPart {
                    ty: ty.copy()?,
                    names: names.clone()?,
                    base,
                };
                self.fresh(Cell::Part(part))
            }
        }
    }

    // Slots for types that are parts of an instance in which the slots from `base` on stand for the names.
    #[tactic(auto, using(crate::proofs::Bound::all_bound_none))]
    fn bound_slots(
        &mut self,
        alloc: Global,
        names: &Rc<Vec<Name>>,
        base: usize,
        types: &[Ty],
    ) -> Result<Vec<usize>, AllocError>
        requires well_formed { IsWellFormed self.old }
        requires row_in { base + length names.now.value.items ≤ slots self.old }
        requires linear { AreLinearBut names.now.value.items types.now }
        requires distinct { AreDistinct names.now.value.items }
        ensures { IfOk result (λ parts. BuildsAllBound self.old self.new names.now.value.items base parts.items types.now) }
    {
        let mut parts = Vec::with_capacity(alloc, types.len())?;
        for ty in types {
            let part = self.bound_slot(names, base, ty)?;
            parts.push(part)?;
        }
        Ok(parts)
    }

    // The cell of a type with this constructor, where no variables but the names stand twice among its arguments: these have slots in
    // common, and the arguments' parts get none yet.
    fn tied(
        &mut self,
        alloc: Global,
        name: &Name,
        args: &[Ty],
        names: &Rc<Vec<Name>>,
    ) -> Result<Cell, AllocError>
        requires well_formed { IsWellFormed self.old }
        requires linear { IsLinearBut names.now.value.items (TyApp name.now (type_list args.now)) }
        requires distinct { AreDistinct names.now.value.items }
        ensures { IfOk result (λ cell. BuildsInstance self.old self.new cell (Generic (TyApp name.now (type_list args.now)))) }
    {
        let base = self.unknowns(names.len())?;
        let parts = self.bound_slots(alloc, names, base, args)?;
        Ok(Cell::App(name.copy()?, parts))
    }

    // The cell of a part of an instance, with slots for its own parts.
    fn part_instance(&mut self, alloc: Global, part: &GenericPart) -> Result<Cell, AllocError>
        requires well_formed { IsWellFormed self.old }
        requires part_in { IsPartIn (slots self.old) part.now }
        ensures { IfOk result (λ cell. BuildsInstance self.old self.new cell (Part part.now)) }
    {
        match part.ty.node() {
            TyNode::Var(_) => Ok(Cell::Unknown),
            TyNode::App(name, args) => {
                let parts = self.bound_slots(alloc, &part.names, part.base, args)?;
                Ok(Cell::App(name.copy()?, parts))
            }
        }
    }

    // The cell of an instance of a type with this constructor, with slots for its arguments.
    fn applied(
        &mut self,
        alloc: Global,
        generic: &Scheme,
        name: &Name,
        args: &[Ty],
    ) -> Result<Cell, AllocError>
        requires well_formed { IsWellFormed self.old }
        requires parts { TyApp name.now (type_list args.now) ≡ generic.now }
        ensures { IfOk result (λ cell. BuildsInstance self.old self.new cell (Generic generic.now)) }
    {
        let variables = generic.variables();
        if variables == Variables::Distinct {
            return self.split(alloc, name, args, variables);
        }
        if let Some(names) = generic.repeated() {
            return self.tied(alloc, name, args, names);
        }
        if are_two_apart(alloc, args)? {
            return self.split(alloc, name, args, Variables::Unknown);
        }
        self.constructed(alloc, generic.ty(), name, args)
    }

    // The cell of an instance of the generic type, with slots for its parts.
    fn instance(&mut self, alloc: Global, generic: &Scheme) -> Result<Cell, AllocError>
        requires { IsWellFormed self.old }
        ensures { IfOk result (λ cell. BuildsInstance self.old self.new cell (Generic generic.now)) }
    {
        match generic.ty().node() {
            TyNode::Var(_) => Ok(Cell::Unknown),
            TyNode::App(name, args) => self.applied(alloc, generic, name, args),
        }
    }

    // Gives the slot another cell.
    fn put(&mut self, slot: usize, cell: Cell)
        requires { slot < slots self.old }
        ensures cells { self.new.cells.items ≡ set self.old.cells.items slot cell }
        ensures pending { self.new.pending.items ≡ self.old.pending.items }
        ensures names { self.new.names.items ≡ self.old.names.items }
    {
        self.cells[slot] = cell;
    }

    // Takes the slot's cell away.
    fn take(&mut self, slot: usize) -> Cell
        requires { slot < slots self.old }
        ensures cell { result ≡ cell_at self.old.cells.items slot }
        ensures cells { self.new.cells.items ≡ set self.old.cells.items slot Unknown }
        ensures pending { self.new.pending.items ≡ self.old.pending.items }
        ensures names { self.new.names.items ≡ self.old.names.items }
    {
        std::mem::replace(&mut self.cells[slot], Cell::Unknown)
    }

    // Gives the parts of the slot's generic type slots.
    fn expand(&mut self, alloc: Global, slot: usize) -> Result<(), AllocError>
        requires well_formed { IsWellFormed self.old }
        requires generic { IsGenericAt self.old.cells.items slot }
        ensures { OnOk result (Expands self.old self.new slot) }
    {
        match self.take(slot) {
            Cell::Generic(generic) => {
                let cell = self.instance(alloc, &generic)?;
                self.put(slot, cell);
                Ok(())
            }
            Cell::Part(part) => {
                let cell = self.part_instance(alloc, &part)?;
                self.put(slot, cell);
                Ok(())
            }
            Cell::Unknown => Ok(()),
            Cell::Link(_) => Ok(()),
            Cell::Rigid(_) => Ok(()),
            Cell::App(_, _) => Ok(()),
        }
    }

    // Solves equations, until none is left or a slot must get slots for the parts of its generic type.
    fn unify_some(&mut self) -> Result<Option<usize>, Fault>
        requires { IsWellFormed self.old }
        ensures refines { OnOk result (Refines self.old self.new) }
        ensures stops { IfOk result (λ o. MatchOption o (self.new.pending.items ≡ []) (λ slot. IsGenericAt self.new.cells.items slot)) }
        ensures generics { OnOk result (generics self.new.cells.items ≤ generics self.old.cells.items) }
        ensures untypable { IfErr result (λ e. e ≡ Fault.Untypable → HasNoSolution self.old.cells.items self.old.pending.items) }
    {
        match unify(&mut self.cells, &mut self.pending) {
            Ok(stop) => Ok(stop),
            Err(fault) => Err(fault),
        }
    }

    /// Solves the equations, and gives the parts of a generic type slots where it meets a type that is known otherwise. Equal generic types
    /// are one without them: so a constant whose instances are only equated with each other costs no slots for its parts, and each such
    /// equation a comparison of two equal types.
    ///
    /// An instance costs two slots for each of its parts that meets a type, and no walk. Where type variables stand twice in a constant's
    /// large type, an instance that meets a type costs slots for these variables too, which its parts have in common: so the time is near
    /// linear in the term, with the type once, as long as few do. A type of at most 64 nodes costs slots for all of it where its arguments
    /// have a variable in common.
    ///
    /// Answers `Untypable` only where no types met the graph and the equations.
    pub(crate) fn settle(&mut self, alloc: Global) -> Result<(), Fault>
        requires { IsWellFormed self.old }
        ensures refines { OnOk result (Refines self.old self.new) }
        ensures solved { OnOk result (self.new.pending.items ≡ []) }
        ensures untypable { IfErr result (λ e. e ≡ Fault.Untypable → HasNoSolution self.old.cells.items self.old.pending.items) }
    {
        while let Some(slot) = self.unify_some()? {
            self.expand(alloc, slot)?;
        }
        Ok(())
    }
}

/// Whether the type variable occurs in the type.
#[tactic(auto, using(crate::proofs::Splitting::among_step, crate::proofs::Splitting::filtered))]
pub(crate) fn has_variable(ty: &Ty, name: &Name) -> bool
    ensures { result ≡ is_among (type_names ty.now) name.now }
{
    if !ty.may_have_var(name) {
        return false;
    }
    match ty.node() {
        TyNode::Var(other) => name.same(other),
        TyNode::App(_, args) => {
            for arg in args {
                if has_variable(arg, name) {
                    return true;
                }
            }
            false
        }
    }
}

// Whether two types have no type variable in common.
fn are_apart(alloc: Global, first: &Ty, second: &Ty) -> Result<bool, AllocError>
    ensures { IfOk result (λ apart. IsTrue apart → AreApart (type_names first.now) (type_names second.now)) }
{
    let names = first.tyvars(alloc)?;
    for name in &names {
        if has_variable(second, name) {
            return Ok(false);
        }
    }
    Ok(true)
}

// Whether the types are two that have no type variable in common.
#[tactic(auto, using(crate::proofs::Linear::two_apart))]
fn are_two_apart(alloc: Global, types: &[Ty]) -> Result<bool, AllocError>
    ensures { IfOk result (λ apart. IsTrue apart → ArePairwiseApart types.now) }
{
    match types {
        [first, second] => are_apart(alloc, first, second),
        _ => Ok(false),
    }
}
