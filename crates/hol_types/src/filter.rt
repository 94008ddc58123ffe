//! What types and terms keep of the names that stand in them, to tell at once that a name is none of these.
ghost use Rattle.std.specs.Prelude.{◌≡◌, ◌≢◌, ◌<◌, ◌↔◌, ◌++◌, ◌∷◌, ◌+◌, ◌*◌, ◌^◌, ◌%◌, [], ℕ, List, IsTrue};
ghost use Rattle.std.specs.Int.{bit_at};
ghost use Rattle.std.specs.Int.RustNames.{bit_and, bit_or};
ghost use Rattle.hol_types.specs.Filter.{name_place, name_bit, pairs_filter};

use crate::name::Name;
use crate::ty::Ty;

/// A set of names by their places, of which there are 64. So it may have names that were never put in, and lacks none that was.
#[derive(Clone, Copy)]
pub struct NameFilter {
    bits: u64,
}

impl NameFilter {
    /// The set of no name.
    pub fn empty() -> NameFilter
        ensures { result.bits ≡ 0 }
    {
        NameFilter { bits: 0 }
    }

    /// The set of this name, and of all names of its place.
    pub fn of_name(name: &Name) -> NameFilter
        ensures { result.bits ≡ name_bit name.now }
    {
        NameFilter::of_place(place_of(name.as_str()))
    }

    /// A set that has this base, and it with any number of primes at its end: these have four places.
    #[tactic(auto, using(crate::proofs::PrimedFilters::four_places, crate::proofs::PrimedFilters::closed))]
    pub fn of_primed(base: &str) -> NameFilter
        ensures base { bit_at result.bits (name_place 0 base.now) ≡ 1 }
        ensures primed { (a : List ℕ) → bit_at result.bits (name_place 0 a) ≡ 1 → bit_at result.bits (name_place 0 (a ++ 39 ∷ [])) ≡ 1 }
    {
        let none = place_of(base);
        let one = primed_place(none);
        let two = primed_place(one);
        let three = primed_place(two);
        NameFilter::of_place(none)
            .union(NameFilter::of_place(one))
            .union(NameFilter::of_place(two))
            .union(NameFilter::of_place(three))
    }

    // The set of all names of this place.
    #[tactic(auto, using(crate::proofs::Filters::one_bit))]
    fn of_place(place: u32) -> NameFilter
        requires { place < 64 }
        ensures { result.bits ≡ 2 ^ place }
    {
        NameFilter { bits: 1 << place }
    }

    /// The set of the names for which the pairs have types.
    #[tactic(auto, using(crate::proofs::Filters::pairs_step, crate::proofs::Filters::pairs_all))]
    pub fn of_pairs(pairs: &[(Ty, Name)]) -> NameFilter
        ensures { result.bits ≡ pairs_filter pairs.now }
    {
        let mut names = NameFilter::empty();
        for pair in pairs {
            names = names.union(NameFilter::of_name(&pair.1));
        }
        names
    }

    /// The names of either set.
    pub fn union(self, other: NameFilter) -> NameFilter
        ensures { result.bits ≡ bit_or self.bits other.bits }
    {
        NameFilter {
            bits: self.bits | other.bits,
        }
    }

    /// Whether the set has no name.
    pub fn is_empty(self) -> bool
        ensures { IsTrue result ↔ (self.bits ≡ 0) }
    {
        self.bits == 0
    }

    /// Whether the two sets have the same names.
    pub fn same(self, other: NameFilter) -> bool
        ensures { IsTrue result ↔ (self.bits ≡ other.bits) }
    {
        self.bits == other.bits
    }

    /// Whether some name is in both sets.
    pub fn meets(self, other: NameFilter) -> bool
        ensures { IsTrue result ↔ (bit_and self.bits other.bits ≢ 0) }
    {
        self.bits & other.bits != 0
    }
}

// The place of a name with one prime more than one of this place.
fn primed_place(place: u32) -> u32
    requires { place < 64 }
    ensures place { result ≡ (31 * place + 39) % 64 }
    ensures within { result < 64 }
{
    (31 * place + 39) % 64
}

// The place of a name, below 64: its bytes, mixed.
#[tactic(auto, using(crate::proofs::Filters::place_within))]
fn place_of(name: &str) -> u32
    ensures place { result ≡ name_place 0 name.now }
    ensures within { result < 64 }
{
    let mut place = 0;
    for byte in name.as_bytes() {
        place = (31 * place + *byte as u32) % 64;
    }
    place
}
