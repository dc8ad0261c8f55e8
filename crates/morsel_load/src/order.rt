//! Loads are ordered by their numbers, the greater number first.
ghost use Rattle.std.specs.Prelude.{◌≡◌, Some, nat_eq, refl};
ghost use Rattle.std.proofs.Common.{◌∙◌};
ghost use Rattle.std.specs.Ordering.{nat_cmp};
ghost use Rattle.std.specs.Cmp.{back_po, back_total, nat_cmp_total, nat_eq_equiv, on_equiv, on_po, on_total, partial_equiv_from_equiv, unsigned_po, unsigned_ties};
ghost use Rattle.morsel_load.specs.Loads.{load_seq};

use crate::load::Load;
use std::cmp::Ordering;

impl<K, J> PartialEq for Load<K, J> {
    ghost eq = { λ x y. nat_eq (load_seq x) (load_seq y) };

    ghost laws = { partial_equiv_from_equiv (on_equiv load_seq nat_eq_equiv) };

    fn eq(&self, other: &Load<K, J>) -> bool {
        self.seq() == other.seq()
    }
}

impl<K, J> Eq for Load<K, J> {
    ghost laws = { on_equiv load_seq nat_eq_equiv };
}

impl<K, J> PartialOrd for Load<K, J> {
    ghost partial_cmp = { λ x y. Some (nat_cmp (load_seq y) (load_seq x)) };

    ghost laws = { back_po (partial_equiv_from_equiv (on_equiv load_seq nat_eq_equiv)) (on_po load_seq unsigned_po) };

    fn partial_cmp(&self, other: &Load<K, J>) -> Option<Ordering> {
        Some(self.cmp(other))
    }
}

impl<K, J> Ord for Load<K, J> {
    ghost cmp = { λ x y. nat_cmp (load_seq y) (load_seq x) };

    ghost total = { back_total (on_total load_seq nat_cmp_total) };

    ghost matches_partial_cmp = { λ x y. refl };

    ghost matches_eq = { λ x y. nat_eq_equiv.symm (load_seq x) (load_seq y) ∙ unsigned_ties (load_seq y) (load_seq x) };

    fn cmp(&self, other: &Load<K, J>) -> Ordering {
        other.seq().cmp(&self.seq())
    }
}
