//! Left sides as keys of a map.
ghost use Rattle.std.specs.Prelude.{◌≡◌, [], IfOk, Some, refl};
ghost use Rattle.std.specs.Cmp;
ghost use Rattle.std.specs.Cmp.{on_total, partial_order_from_agreeing_total};
ghost use Rattle.std.specs.Cmp.Rules.{comparing};
ghost use Rattle.std.specs.Ordering.{eq_by_cmp};
ghost use Rattle.std.proofs.Common.{rules};
ghost use Rattle.hol_terms.specs.Nameless.{nameless};
ghost use Rattle.hol_subst.proofs.AlphaOrder.{alpha_total};
ghost use Rattle.hol_match.specs.HeadView.{side_cmp};

use hol_subst::alpha_order;
use hol_terms::Term;
use std::alloc::AllocError;
use std::cmp::Ordering;

/// A term, in the order of terms up to the names of bound variables.
#[derive(Drop)]
pub(crate) struct Side {
    term: Term,
}

impl Side {
    /// The term as a key.
    pub(crate) fn of(term: &Term) -> Result<Side, AllocError>
        ensures { IfOk result (λ side. side.term ≡ term.now) }
    {
        Ok(Side { term: term.copy()? })
    }
}

impl PartialEq for Side {
    ghost eq = { λ a b. eq_by_cmp side_cmp a b };

    ghost laws = { Cmp.partial_equiv_from_equiv (Cmp.eq_by_cmp_equiv (on_total (λ s. nameless [] s.term) alpha_total)) };

    fn eq(&self, other: &Side) -> bool {
        self.cmp(other).is_eq()
    }
}

impl Eq for Side {
    ghost laws = { Cmp.eq_by_cmp_equiv (on_total (λ s. nameless [] s.term) alpha_total) };
}

impl PartialOrd for Side {
    ghost partial_cmp = { λ a b. Some (side_cmp a b) };

    ghost laws = { partial_order_from_agreeing_total side_cmp (on_total (λ s. nameless [] s.term) alpha_total) (λ a b. refl) (λ a b. refl) };

    fn partial_cmp(&self, other: &Side) -> Option<Ordering> {
        Some(self.cmp(other))
    }
}

impl Ord for Side {
    ghost cmp = { λ a b. side_cmp a b };

    ghost total = { on_total (λ s. nameless [] s.term) alpha_total };

    ghost matches_partial_cmp = { Prim.search (comparing, rules) };

    ghost matches_eq = { λ a b. refl };

    fn cmp(&self, other: &Side) -> Ordering {
        alpha_order(&self.term, &other.term)
    }
}
