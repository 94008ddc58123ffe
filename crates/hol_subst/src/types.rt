//! Types for type variables, with the instance that was made last.
ghost use Rattle.std.specs.Prelude.{◌≡◌, IfOk};
ghost use Rattle.hol_types.specs.Subst.{type_subst};
ghost use Rattle.hol_types.specs.Filter.{pairs_filter};

use hol_types::{Name, NameFilter, Ty};
use std::alloc::{AllocError, Global};
use std::marker::Model;

/// Types for type variables: pairs, of which the first of a name counts.
///
/// The instance that was made last is kept, and shared where the same type comes next: a term has few types, each at many places.
#[derive(Drop)]
pub(crate) struct Types<'a> {
    pairs: &'a [(Ty, Name)],
    // The names of the pairs are among these.
    names: NameFilter,
    last: Option<TypeInstance>,
}

// A type that is no variable and has at most 20,000 nodes, so that it is compared in bounded time, and its instance.
#[derive(Drop)]
struct TypeInstance {
    ty: Ty,
    instance: Ty,
}

// The most nodes of a type whose instance is kept.
const LARGEST_KEPT: u32 = 20_000;

impl<'a> Model for Types<'a> {
    ghost use Rattle.std.specs.Prelude.{◌≡◌, ℕ, List, IfSome};
    ghost use Rattle.std.specs.Coded.{codes};
    ghost use Rattle.hol_types.specs.Code.{coded_type};
    ghost use Rattle.hol_types.specs.Tree.{TypeTree};
    ghost use Rattle.hol_types.specs.Subst.{type_subst};
    ghost use Rattle.hol_types.specs.Filter.{pairs_filter};

    ghost Value = { List (TypeTree × List ℕ) };

    ghost coded = { Prim.hlevel (codes, coded_type) };

    ghost view = { λ a. a.pairs.now };

    ghost invariant = { λ a. (a.names.bits ≡ pairs_filter a.pairs.now) × IfSome a.last (λ i. i.instance ≡ type_subst a.pairs.now i.ty) };
}

impl<'a> Types<'a> {
    /// By these pairs.
    pub(crate) fn new(pairs: &'a [(Ty, Name)]) -> Types<'a>
        ensures { result ≡ pairs.now }
    {
        Types {
            pairs,
            names: NameFilter::of_pairs(pairs),
            last: None,
        }
    }

    /// A set that has the names of the pairs, and may have others.
    pub(crate) fn names(&self) -> NameFilter
        ensures { result.bits ≡ pairs_filter self.now }
    {
        self.names
    }

    /// The instance of the type.
    #[tactic(auto, using(hol_types::proofs::Filters::kept_type))]
    pub(crate) fn instance(&mut self, alloc: Global, ty: &Ty) -> Result<Ty, AllocError>
        ensures is { IfOk result (λ s. s ≡ type_subst self.old ty.now) }
        ensures kept { self.new ≡ self.old }
    {
        if !ty.filter().meets(self.names) {
            return ty.copy();
        }
        if let Some(last) = &self.last {
            if last.ty.same(ty) {
                return last.instance.copy();
            }
        }
        let made = ty.subst(alloc, self.pairs)?;
        if (2..=LARGEST_KEPT).contains(&ty.size()) {
            self.last = Some(TypeInstance {
                ty: ty.copy()?,
                instance: made.copy()?,
            });
        }
        Ok(made)
    }
}
