//! Types as inference finds them, over slots that are still open.
ghost use Rattle.std.specs.Prelude.{◌≡◌, ℕ, List, ◌+◌, ◌++◌, ◌<◌, ◌≤◌, ◌^◌, length, IfOk, OnOk, IsTrue, min};
ghost use Rattle.hol_types.specs.Tree.{TyVar};
ghost use Rattle.hol_types.specs.Names.{tyvars};
ghost use Rattle.hol_types.specs.Subst.{type_subst};
ghost use Rattle.hol_typing.specs.Shape.{ShapeTree, Hole, Fixed, Built, shape_list, shape_size, shapes_size, fill, shape_holes, place_among, instance_shape, part_shape, AreWithin, AreSingle};
ghost use Rattle.hol_typing.specs.Typing.{open_name};
ghost use Rattle.hol_typing.specs.Holes.{is_hole_among, add_hole, add_holes, hole_index, open_type, AreHolesOf};
ghost use Rattle.hol_typing.specs.Graph.{pairs_from};
ghost use Rattle.hol_typing.specs.ShapeView.{shape_of};

use hol_types::{Name, Ty, TyNode};
use std::alloc::{AllocError, Global};
use std::marker::Model;
use std::rc::Rc;

/// One more than the nodes that a reading may have.
pub const TOO_LARGE: u32 = 20_001;

/// A type over slots. Its copies share their nodes.
#[cycle(shape)]
#[derive(Drop)]
pub struct Shape {
    size: u32,
    node: Rc<ShapeNode>,
}

/// The top node of a shape.
#[cycle(shape)]
#[derive(Drop)]
pub(crate) enum ShapeNode {
    /// A slot whose type is open.
    Open(usize),
    /// A type variable of an annotation.
    Rigid(Name),
    /// A constructor and its arguments, in order.
    App(Name, Vec<Shape>),
    /// The generic type, whose type variables are the open slots from this number on, in order of their names.
    Instance(Ty, usize),
    /// The same, where for some of its type variables these shapes are put.
    Part(Ty, Vec<(Shape, Name)>, usize),
}

impl Model for Shape {
    ghost use Rattle.std.specs.Prelude.{◌≡◌, min};
    ghost use Rattle.hol_typing.specs.Shape.{ShapeTree, shape_size};
    ghost use Rattle.hol_typing.specs.ShapeCode.{coded_shape};

    ghost Value = { ShapeTree };

    ghost coded = { coded_shape };

    ghost use Rattle.hol_typing.specs.ShapeView.{shape_of, HasNumbers};

    ghost view = { λ a. shape_of a.node.value };

    ghost invariant = { λ a. (a.size ≡ min (shape_size (shape_of a.node.value)) 20001) × HasNumbers a.node.value };

    ghost size = { shape_size };

    ghost use Rattle.hol_typing.specs.ShapeFalls.{deep_le_size};

    ghost size_decreases = { λ a h. deep_le_size a.node.value h.1 };
}

impl Shape {
    /// The open slot of this number.
    pub(crate) fn open(alloc: Global, slot: usize) -> Result<Shape, AllocError>
        ensures { IfOk result (λ s. s ≡ Hole slot) }
    {
        Ok(Shape {
            size: 1,
            node: Rc::new(alloc, ShapeNode::Open(slot))?,
        })
    }

    /// The type variable of this name.
    pub(crate) fn rigid(alloc: Global, name: &Name) -> Result<Shape, AllocError>
        ensures { IfOk result (λ s. s ≡ Fixed name.now) }
    {
        Ok(Shape {
            size: 1,
            node: Rc::new(alloc, ShapeNode::Rigid(name.copy()?))?,
        })
    }

    /// The constructor of this name applied to the parts.
    pub(crate) fn app(alloc: Global, name: &Name, parts: Vec<Shape>) -> Result<Shape, AllocError>
        ensures { IfOk result (λ s. s ≡ Built name.now (shape_list parts.items)) }
    {
        let size = size_with(&parts);
        Ok(Shape {
            size,
            node: Rc::new(alloc, ShapeNode::App(name.copy()?, parts))?,
        })
    }

    /// The generic type, whose type variables are the open slots from `base` on, in order of their names. It takes no walk.
    #[tactic(auto, using(crate::proofs::Numbers::instance_size))]
    pub(crate) fn instance(alloc: Global, generic: &Ty, base: usize) -> Result<Shape, AllocError>
        requires { base + length (tyvars generic.now) < 2 ^ 64 }
        ensures { IfOk result (λ s. s ≡ instance_shape base (tyvars generic.now) generic.now) }
    {
        Ok(Shape {
            size: generic.size(),
            node: Rc::new(alloc, ShapeNode::Instance(generic.copy()?, base))?,
        })
    }

    /// The generic type, where for some of its type variables these shapes are put, and the others are the open slots from `base` on, in
    /// order of all their names. It takes a walk only where one of the shapes has more than one node.
    pub(crate) fn part(
        alloc: Global,
        generic: &Ty,
        bound: Vec<(Shape, Name)>,
        base: usize,
    ) -> Result<Shape, AllocError>
        requires numbers { base + length (tyvars generic.now) < 2 ^ 64 }
        requires within { AreWithin (shape_size (part_shape bound.items base (tyvars generic.now) generic.now)) bound.items }
        ensures { IfOk result (λ s. s ≡ part_shape bound.items base (tyvars generic.now) generic.now) }
    {
        let size = part_size(generic, &bound);
        Ok(Shape {
            size,
            node: Rc::new(alloc, ShapeNode::Part(generic.copy()?, bound, base))?,
        })
    }

    /// The same shape, sharing its nodes.
    pub(crate) fn copy(&self) -> Result<Shape, AllocError>
        ensures { IfOk result (λ s. s ≡ self.now) }
    {
        Ok(Shape {
            size: self.size,
            node: self.node.clone()?,
        })
    }

    /// The number of nodes, or 20,001 where there are more.
    pub(crate) fn size(&self) -> u32
        ensures { result ≡ min (shape_size self.now) 20001 }
    {
        self.size
    }

    /// Puts the open slots at the end of the list as they occur, each unless it is there.
    #[tactic(auto, using(crate::proofs::Holes::add_step))]
    pub(crate) fn add_holes(&self, alloc: Global, order: &mut Vec<usize>) -> Result<(), AllocError>
        ensures { OnOk result (order.new.items ≡ add_holes order.old.items (shape_holes self.now)) }
    {
        match &*self.node {
            ShapeNode::Open(slot) => add_hole(order, *slot),
            ShapeNode::Rigid(_) => Ok(()),
            ShapeNode::App(_, parts) => {
                for part in parts {
                    part.add_holes(alloc, order)?;
                }
                Ok(())
            }
            ShapeNode::Instance(generic, base) => {
                let names = generic.tyvars(alloc)?;
                add_type_holes(&names, *base, generic, order)
            }
            ShapeNode::Part(generic, bound, base) => {
                let mut holes = Vec::with_capacity(alloc, bound.len())?;
                for pair in bound {
                    let mut own = Vec::new(alloc);
                    pair.0.add_holes(alloc, &mut own)?;
                    holes.push((own, pair.1.copy()?))?;
                }
                let names = generic.tyvars(alloc)?;
                add_part_holes(&holes, &names, *base, generic, order)
            }
        }
    }

    /// The type, where an open slot is the type variable named by its place in the order.
    #[tactic(auto, using(crate::proofs::Holes::fill_all, crate::proofs::Numbers::filled))]
    pub(crate) fn ty(&self, alloc: Global, order: &[usize]) -> Result<Ty, AllocError>
        ensures { IfOk result (λ t. t ≡ fill (open_type order.now) self.now) }
    {
        match &*self.node {
            ShapeNode::Open(slot) => open_ty(alloc, order, *slot),
            ShapeNode::Rigid(name) => Ty::var(alloc, name),
            ShapeNode::App(name, parts) => {
                let mut args = Vec::with_capacity(alloc, parts.len())?;
                for part in parts {
                    args.push(part.ty(alloc, order)?)?;
                }
                Ty::app(alloc, name, &args)
            }
            ShapeNode::Instance(generic, base) => {
                opened(alloc, order, generic, *base, Vec::new(alloc))
            }
            ShapeNode::Part(generic, bound, base) => {
                let mut pairs = Vec::with_capacity(alloc, bound.len())?;
                for pair in bound {
                    pairs.push((pair.0.ty(alloc, order)?, pair.1.copy()?))?;
                }
                opened(alloc, order, generic, *base, pairs)
            }
        }
    }
}

// The generic type with these types for some of its type variables, and for the others those of the open slots from `base` on.
fn opened(
    alloc: Global,
    order: &[usize],
    generic: &Ty,
    base: usize,
    bound: Vec<(Ty, Name)>,
) -> Result<Ty, AllocError>
    requires { base + length (tyvars generic.now) < 2 ^ 64 }
    ensures { IfOk result (λ t. t ≡ type_subst (bound.items ++ pairs_from (open_type order.now) base (tyvars generic.now)) generic.now) }
{
    let mut pairs = bound;
    let names = generic.tyvars(alloc)?;
    add_open_pairs(alloc, order, &names, base, &mut pairs)?;
    generic.subst(alloc, &pairs)
}

// The place of a name among the names, or their number.
#[tactic(auto, using(crate::proofs::Numbers::place_most))]
fn place_among(names: &[Name], name: &Name) -> usize
    ensures place { result ≡ place_among names.now name.now }
    ensures most { result ≤ length names.now }
{
    for (i, other) in names.iter().enumerate() {
        if other.same(name) {
            return i;
        }
    }
    names.len()
}

// Puts the open slots that the type variables are at the end of the list as they occur, each unless it is there.
#[tactic(auto, using(crate::proofs::Numbers::add_type_step))]
fn add_type_holes(
    names: &[Name],
    base: usize,
    ty: &Ty,
    order: &mut Vec<usize>,
) -> Result<(), AllocError>
    requires { base + length names.now < 2 ^ 64 }
    ensures { OnOk result (order.new.items ≡ add_holes order.old.items (shape_holes (instance_shape base names.now ty.now))) }
{
    match ty.node() {
        TyNode::Var(name) => add_hole(order, base + place_among(names, name)),
        TyNode::App(_, args) => {
            for arg in args {
                add_type_holes(names, base, arg, order)?;
            }
            Ok(())
        }
    }
}

// Puts the open slots of the type at the end of the list as they occur, each unless it is there. Some of its type variables have a list of
// theirs.
fn add_part_holes(
    bound: &[(Vec<usize>, Name)],
    names: &[Name],
    base: usize,
    ty: &Ty,
    order: &mut Vec<usize>,
) -> Result<(), AllocError>
    requires { base + length names.now < 2 ^ 64 }
    ensures { OnOk result ((shapes : List (ShapeTree × List ℕ)) → AreHolesOf bound.now shapes → order.new.items ≡ add_holes order.old.items (shape_holes (part_shape shapes base names.now ty.now))) }
{
    match ty.node() {
        TyNode::Var(name) => add_variable_holes(bound, names, base, name, order),
        TyNode::App(_, args) => {
            for arg in args {
                add_part_holes(bound, names, base, arg, order)?;
            }
            Ok(())
        }
    }
}

// The same of a type variable.
fn add_variable_holes(
    bound: &[(Vec<usize>, Name)],
    names: &[Name],
    base: usize,
    name: &Name,
    order: &mut Vec<usize>,
) -> Result<(), AllocError>
    requires { base + length names.now < 2 ^ 64 }
    ensures { OnOk result ((shapes : List (ShapeTree × List ℕ)) → AreHolesOf bound.now shapes → order.new.items ≡ add_holes order.old.items (shape_holes (part_shape shapes base names.now (TyVar name.now)))) }
{
    for pair in bound {
        if pair.1.same(name) {
            return add_all_holes(order, &pair.0);
        }
    }
    add_hole(order, base + place_among(names, name))
}

// Puts the slots at the end, each unless it is there.
#[tactic(auto, using(crate::proofs::Holes::hole_step))]
fn add_all_holes(order: &mut Vec<usize>, holes: &[usize]) -> Result<(), AllocError>
    ensures { OnOk result (order.new.items ≡ add_holes order.old.items holes.now) }
{
    for hole in holes {
        add_hole(order, *hole)?;
    }
    Ok(())
}

// Puts the names at the end, each with the type of its open slot: these are those from `base` on.
fn add_open_pairs(
    alloc: Global,
    order: &[usize],
    names: &[Name],
    base: usize,
    pairs: &mut Vec<(Ty, Name)>,
) -> Result<(), AllocError>
    requires { base + length names.now < 2 ^ 64 }
    ensures { OnOk result (pairs.new.items ≡ pairs.old.items ++ pairs_from (open_type order.now) base names.now) }
{
    for (i, name) in names.iter().enumerate() {
        let ty = open_ty(alloc, order, base + i)?;
        pairs.push((ty, name.copy()?))?;
    }
    Ok(())
}

// Whether the slot is in the order.
fn is_hole_among(order: &[usize], slot: usize) -> bool
    ensures { result ≡ is_hole_among order.now slot }
{
    for other in order {
        if *other == slot {
            return true;
        }
    }
    false
}

// Puts the slot at the end, unless it is there.
fn add_hole(order: &mut Vec<usize>, slot: usize) -> Result<(), AllocError>
    ensures { OnOk result (order.new.items ≡ add_hole order.old.items slot) }
{
    if is_hole_among(order, slot) {
        return Ok(());
    }
    order.push(slot)?;
    Ok(())
}

// The place of the slot in the order, or the number of places.
fn hole_index(order: &[usize], slot: usize) -> usize
    ensures { result ≡ hole_index order.now slot }
{
    for (i, other) in order.iter().enumerate() {
        if *other == slot {
            return i;
        }
    }
    order.len()
}

// The name of the k-th type that is left open.
fn open_name(alloc: Global, k: usize) -> Result<Name, AllocError>
    ensures { IfOk result (λ name. name ≡ open_name k) }
{
    let text = format!(in alloc; "?{k}")?;
    Name::new(alloc, text.as_str())
}

// The type of an open slot: the type variable named by its place in the order.
fn open_ty(alloc: Global, order: &[usize], slot: usize) -> Result<Ty, AllocError>
    ensures { IfOk result (λ t. t ≡ open_type order.now slot) }
{
    let name = open_name(alloc, hole_index(order, slot))?;
    Ty::var(alloc, &name)
}

// The number of nodes of a constructor with these parts, or 20,001 where there are more.
fn size_with(parts: &[Shape]) -> u32
    ensures { result ≡ min (1 + shapes_size (shape_list parts.now)) 20001 }
{
    let mut size: u32 = 1;
    for part in parts {
        size = (size + part.size()).min(TOO_LARGE);
    }
    size
}

// Whether each of the shapes has one node.
#[tactic(auto, using(crate::proofs::Parts::single_step, crate::proofs::Parts::single_all))]
fn are_single(bound: &[(Shape, Name)]) -> bool
    ensures { IsTrue result → AreSingle bound.now }
{
    for pair in bound {
        if pair.0.size() != 1 {
            return false;
        }
    }
    true
}

// The number of nodes of what is put for a type variable, or 20,001 where there are more.
#[tactic(auto, using(crate::proofs::Parts::lookup_next))]
fn variable_size(name: &Name, bound: &[(Shape, Name)]) -> u32
    ensures small { result ≤ 20001 }
    ensures size { (base : ℕ) (names : List (List ℕ)) → result ≡ min (shape_size (part_shape bound.now base names (TyVar name.now))) 20001 }
{
    for pair in bound {
        if pair.1.same(name) {
            return pair.0.size();
        }
    }
    1
}

// The number of nodes of a generic type where shapes are put for some of its variables, or 20,001 where there are more, by a walk.
fn walked_size(ty: &Ty, bound: &[(Shape, Name)]) -> u32
    ensures small { result ≤ 20001 }
    ensures size { (base : ℕ) (names : List (List ℕ)) → result ≡ min (shape_size (part_shape bound.now base names ty.now)) 20001 }
{
    match ty.node() {
        TyNode::Var(name) => variable_size(name, bound),
        TyNode::App(_, args) => {
            let mut size: u32 = 1;
            for arg in args {
                size = (size + walked_size(arg, bound)).min(TOO_LARGE);
            }
            size
        }
    }
}

// The same, with a walk only where one of the shapes has more than one node.
fn part_size(ty: &Ty, bound: &[(Shape, Name)]) -> u32
    ensures { (base : ℕ) (names : List (List ℕ)) → result ≡ min (shape_size (part_shape bound.now base names ty.now)) 20001 }
{
    if are_single(bound) {
        return ty.size();
    }
    walked_size(ty, bound)
}
