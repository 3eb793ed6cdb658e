// The second ring of a cell, in rising order, with no scratch memory: the next cell of it is searched
// for along the chains of neighbours.
ghost use Rattle.std.specs.Prelude.{◌≡◌, ◌<◌, ◌≤◌, SomeIff, IfSome};
ghost use Rattle.chain.specs.Sound.{Sound, items_from};
ghost use Rattle.stencil.specs.Ring.{Web, ways};

use chain::{Form, Records};
use mesh::Counts;

// That of the cell c, and which cells are neighbours.
#[derive(Clone, Copy)]
pub struct Ring<'a> {
    pub counts: Counts,
    pub heads: &'a [usize],
    pub bordering: &'a [usize],
    pub c: usize,
    pub ghost web: { Web (ways counts heads.now bordering.now) },
    pub ghost present: { c < counts.cells },
}

impl<'a> Ring<'a> {
    ghost use Rattle.stencil.specs.Ring.{neighbours_of, beside, lower_fresh, lowest_in, lowest_all, ring_from, ring_at};
    ghost use Rattle.stencil.specs.Bundles.{ways_of};

    // The neighbours of the cell n.
    #[tactic(auto, using(crate::proofs::Walks::sound_in))]
    fn neighbours(&self, n: usize) -> Records<'a>
        requires { n < self.now.counts.cells }
        ensures ended { Sound result.records.now result.next }
        ensures items { items_from result.records.now result.next ≡ neighbours_of (ways_of self.now) n }
    {
        Records::of(Form::Second, self.heads, self.bordering, n)
    }

    // Whether d is a neighbour of c.
    fn is_beside(&self, d: usize) -> bool
        ensures { result ≡ beside (ways_of self.now) d self.now.c }
    {
        self.neighbours(self.c).any(|e| e == d)
    }

    // d where it is from `from` on, below `lowest`, and neither c nor a neighbour of c; else `lowest`.
    #[tactic(auto, unfolding(crate::specs::Ring::lower_fresh, crate::specs::Ring::fresh))]
    fn lower_of(&self, from: usize, lowest: usize, d: usize) -> usize
        ensures { result ≡ lower_fresh (ways_of self.now) self.now.c from lowest d }
    {
        let stands = (from <= d) && (d < lowest) && (d != self.c) && !self.is_beside(d);
        if stands { d } else { lowest }
    }

    // The same over the neighbours of the cell n.
    fn lowest_in(&self, from: usize, best: usize, n: usize) -> usize
        requires { n < self.now.counts.cells }
        ensures lowest { let w = ways_of self.now in
            result ≡ lowest_in w self.now.c from best (neighbours_of w n) }
    {
        self.neighbours(n)
            .fold(best, |lowest, d| self.lower_of(from, lowest, d))
    }

    // The lowest cell of the ring from `from` on, where there is one. The search starts at the number of cells, which is
    // no cell: an `Option` that starts as `None` would ask at each cell whether there is a lowest one yet.
    #[tactic(auto, using(crate::proofs::Walks::first_below, crate::proofs::Walks::walk_bounded))]
    pub fn next_in_ring(&self, from: usize) -> Option<usize>
        ensures lowest { let w = ways_of self.now in
            let d = lowest_all w self.now.c from w.counts.cells (neighbours_of w self.now.c) in
            SomeIff result (d < w.counts.cells) d }
        ensures first { let w = ways_of self.now in
            from ≤ w.counts.cells → ring_from w self.now.c from ≡ ring_at w self.now.c result }
        ensures onward { IfSome result (λ d. from ≤ d) }
    {
        let mut lowest = self.counts.cells;
        for n in self.neighbours(self.c) {
            lowest = self.lowest_in(from, lowest, n);
        }
        if lowest < self.counts.cells {
            Some(lowest)
        } else {
            None
        }
    }
}
