// Comparisons read the elements alone: a derive would read the slots behind them too.
ghost use Rattle.std.specs.Cmp.{on_per, on_equiv, on_po, on_total};
ghost use Rattle.std.specs.Cmp.Lexicographic.{slice_cmp, slice_partial_cmp, pointwise, lists_per, lists_equiv, lists_po, lists_total, lists_agrees, lists_ties};
ghost use Rattle.arrays.specs.Items.{items};

use super::ArrayVec;
use std::cmp::Ordering;

impl<T: Copy + PartialEq, const N: usize> PartialEq for ArrayVec<T, N> {
    ghost eq = { λ v w. pointwise T.eq (items v) (items w) };

    ghost laws = { on_per items (lists_per T.laws) };

    fn eq(&self, other: &Self) -> bool {
        self.as_slice() == other.as_slice()
    }
}

impl<T: Copy + Eq, const N: usize> Eq for ArrayVec<T, N> {
    ghost laws = { on_equiv items (lists_equiv T.Eq.laws) };
}

impl<T: Copy + PartialOrd, const N: usize> PartialOrd for ArrayVec<T, N> {
    ghost partial_cmp = { λ v w. slice_partial_cmp T.partial_cmp (items v) (items w) };

    ghost laws = { on_po items (lists_po T.PartialOrd.laws) };

    fn partial_cmp(&self, other: &Self) -> Option<Ordering> {
        self.as_slice().partial_cmp(&other.as_slice())
    }
}

impl<T: Copy + Ord, const N: usize> Ord for ArrayVec<T, N> {
    ghost cmp = { λ v w. slice_cmp T.cmp (items v) (items w) };

    ghost total = { on_total items (lists_total T.total) };

    ghost matches_partial_cmp = { λ v w. lists_agrees T.matches_partial_cmp (items v) (items w) };

    ghost matches_eq = { λ v w. lists_ties T.cmp T.matches_eq (items v) (items w) };

    fn cmp(&self, other: &Self) -> Ordering {
        self.as_slice().cmp(&other.as_slice())
    }
}
