// The weighted least-squares stencil of one cell: its equations, and the inverse of its normal matrix.
ghost use Rattle.std.specs.Prelude.{◌≡◌, ◌<◌};
ghost use Rattle.chain.specs.Sound.{Sound, items_from};
ghost use Rattle.stencil.specs.Lent.{cell_faces};
ghost use Rattle.stencil.specs.Cell.{wall, Lendable};

use crate::inner::build::Domain;
use crate::inner::building::{Building, Equation, Source};
use crate::inner::ring::Ring;
use chain::inner::first_of;
use chain::{Form, Records};
use matrix::Normal;
use mesh::inner::cell_at;
use mesh::{Answer, Condition};
use refusal::{Reason, Refusal};
use vector::Vec3;

// What a face gives the stencil of a cell: a closing normal, nothing for want of a condition, or a
// difference from a source, at an offset, with the fixed value.
#[derive(Clone, Copy)]
pub(crate) enum Offer {
    Closing,
    Missing,
    Difference {
        source: Source,
        offset: Vec3,
        value: f64,
    },
}

// The two passes over the faces of a cell: of the differences, and of the zero-gradient faces. Two names and a `match`
// are no less plain than two closures that each lend the building on.
#[derive(Clone, Copy)]
enum Phase {
    Gather,
    Close,
}

// A cell, c, of a mesh.
#[derive(Clone, Copy)]
pub(crate) struct Cell<'a> {
    pub domain: Domain<'a>,
    pub c: usize,
    pub ghost present: { c < domain.mesh.counts.cells },
}

// What a face with one cell and no link gives, `away` from that.
#[inline(always)]
#[tactic(auto, unfolding(crate::specs::Cell::wall))]
fn at_wall(k: Condition, away: Vec3) -> Offer
    ensures offered { result ≡ wall k away }
    ensures lendable { Lendable result }
{
    match k {
        Condition::Fixed(value) => Offer::Difference {
            source: Source::Fixed,
            offset: away,
            value,
        },
        Condition::ZeroGradient => Offer::Closing,
        Condition::Absent => Offer::Missing,
    }
}

impl<'a> Cell<'a> {
    ghost use Rattle.stencil.specs.Cell.{to_cell, offer, over_faces, add_ring, extend, add_closing, inverse_of};
    ghost use Rattle.stencil.specs.Cell.{finish, widen, cell_stencil};
    ghost use Rattle.stencil.specs.Bundles.{lent_in, building_in, SameRecords, course_of, finish_of};

    // The difference to the centre of another cell.
    #[inline(always)]
    fn to_cell(&self, other: usize) -> Offer
        requires { other < self.now.domain.mesh.counts.cells }
        ensures offered { result ≡ to_cell self.now.domain.mesh.places.now self.now.c other }
        ensures lendable { Lendable result }
    {
        let here = cell_at(self.domain.mesh.places, self.c).center;
        let there = cell_at(self.domain.mesh.places, other).center;
        Offer::Difference {
            source: Source::Cell(other),
            offset: there.sub(here),
            value: 0.0,
        }
    }

    // What the face f gives the cell: by its neighbour, else by its link, else by its condition.
    #[inline(always)]
    #[tactic(auto, unfolding(crate::specs::Cell::offer))]
    fn offer_at(&self, f: usize) -> Offer
        requires { f < self.now.domain.mesh.counts.faces }
        ensures offered { result ≡ offer (lent_in self.now.domain) self.now.c f }
        ensures lendable { Lendable result }
    {
        let grid = self.domain.mesh.grid();
        if let Some(neighbour) = grid.neighbour(f) {
            let owner = first_of(grid.adjacency, f);
            return self.to_cell(if owner == self.c { neighbour } else { owner });
        }
        let here = cell_at(self.domain.mesh.places, self.c).center;
        if let Some(peer) = self.domain.bounds.peer(f) {
            let other = first_of(grid.adjacency, peer);
            let there = cell_at(self.domain.mesh.places, other).center;
            return Offer::Difference {
                source: Source::Cell(other),
                offset: there.sub(self.domain.bounds.translation_at(f)).sub(here),
                value: 0.0,
            };
        }
        let away = grid.face_at(f).center.sub(here);
        at_wall(self.domain.bounds.condition_at(f), away)
    }

    // A zero-gradient face's normal.
    #[inline(always)]
    #[tactic(auto, unfolding(crate::specs::Cell::add_closing, crate::specs::Cell::closing))]
    fn add_closing(&self, f: usize, b: &mut Building<'_>) -> Answer
        requires { f < self.now.domain.mesh.counts.faces }
        ensures added { let l = lent_in self.now.domain in
            course_of result b.new ≡ add_closing l b.old.records self.now.c f (building_in b.old) }
        ensures same { SameRecords b.old b.new }
    {
        match self.offer_at(f) {
            Offer::Closing => b.add_normal(self.domain.mesh.grid().face_at(f).normal),
            _ => Ok(()),
        }
    }

    // The faces of the cell, in the order of their chain.
    #[inline(always)]
    #[tactic(auto, using(crate::proofs::Walks::sound_in))]
    fn faces(&self) -> Records<'a>
        ensures ended { Sound result.records.now result.next }
        ensures items { items_from result.records.now result.next ≡ cell_faces (lent_in self.now.domain).mesh self.now.c }
    {
        Records::of(
            Form::First,
            self.domain.mesh.heads,
            self.domain.mesh.facing,
            self.c,
        )
    }

    // A pass over them.
    #[inline(always)]
    #[tactic(auto, using(crate::proofs::Walks::first_below, crate::proofs::Walks::walk_bounded), unfolding(crate::specs::Cell::add_face))]
    fn add_faces(&self, phase: Phase, b: &mut Building<'_>) -> Answer
        ensures added { let l = lent_in self.now.domain in
            course_of result b.new ≡ over_faces phase l b.old.records self.now.c (building_in b.old) }
        ensures same { SameRecords b.old b.new }
    {
        for f in self.faces() {
            match phase {
                Phase::Gather => b.add_offer(f, self.offer_at(f))?,
                Phase::Close => self.add_closing(f, b)?,
            }
        }
        Ok(())
    }

    // A cell of the second ring, unless it is too near or not at a finite distance.
    #[inline(always)]
    #[tactic(auto, unfolding(crate::specs::Cell::add_ring))]
    fn add_ring_cell(&self, d: usize, b: &mut Building<'_>) -> Answer
        requires { d < self.now.domain.mesh.counts.cells }
        ensures added { let l = lent_in self.now.domain in
            course_of result b.new ≡ add_ring l b.old.records self.now.c d (building_in b.old) }
        ensures same { SameRecords b.old b.new }
    {
        let here = cell_at(self.domain.mesh.places, self.c).center;
        let there = cell_at(self.domain.mesh.places, d).center;
        let offset = there.sub(here);
        let squared = offset.norm_squared();
        if !binary64::far(squared) {
            return Ok(());
        }
        let direction = offset.div(offset.norm());
        b.normal = matrix::add_outer(b.normal, direction, direction);
        b.append(Equation {
            source: Source::Cell(d),
            coefficient: offset.div(squared),
            value: 0.0,
        })
    }

    // The second ring of the cell, in rising order. The next cell of it is searched for and not counted, so the loop is
    // a `while`.
    #[inline(always)]
    #[tactic(auto, using(crate::proofs::inner::build::Laws::web_known, crate::proofs::inner::ring::Laws::all_ring), unfolding(crate::specs::Cell::extend))]
    fn add_ring(&self, b: &mut Building<'_>) -> Answer
        ensures added { let l = lent_in self.now.domain in
            course_of result b.new ≡ extend l b.old.records self.now.c (building_in b.old) }
        ensures same { SameRecords b.old b.new }
    {
        let ring = Ring {
            counts: self.domain.mesh.counts,
            heads: self.domain.mesh.heads,
            bordering: self.domain.mesh.bordering,
            c: self.c,
        };
        let mut next = ring.next_in_ring(0);
        while let Some(d) = next {
            self.add_ring_cell(d, b)?;
            next = ring.next_in_ring(d + 1);
        }
        Ok(())
    }

    // The inverse of the normal matrix, where it has one.
    #[inline(always)]
    fn inverse_of(&self, b: &Building<'_>) -> Option<Normal>
        ensures { result ≡ inverse_of (lent_in self.now.domain) (building_in b.now) }
    {
        matrix::inverse_normal_matrix(self.domain.mesh.counts.dimension, b.normal)
    }

    // Closed by the zero-gradient faces, the matrix has an inverse or the stencil is singular.
    #[inline(always)]
    #[tactic(auto, unfolding(crate::specs::Cell::finish, crate::specs::Cell::finished, crate::specs::Cell::close))]
    fn finish(&self, b: &mut Building<'_>) -> Result<Normal, Refusal>
        ensures finished { let l = lent_in self.now.domain in
            finish_of result b.new ≡ finish l b.old.records self.now.c (building_in b.old) }
        ensures same { SameRecords b.old b.new }
    {
        self.add_faces(Phase::Close, b)?;
        self.inverse_of(b).ok_or(Reason::SingularStencil.at(self.c))
    }

    // In 2D the second ring comes first.
    #[inline(always)]
    #[tactic(auto, unfolding(crate::specs::Cell::widen, crate::specs::Cell::widened))]
    fn widen(&self, b: &mut Building<'_>) -> Result<Normal, Refusal>
        ensures finished { let l = lent_in self.now.domain in
            finish_of result b.new ≡ widen l b.old.records self.now.c (building_in b.old) }
        ensures same { SameRecords b.old b.new }
    {
        self.add_ring(b)?;
        if let Some(inverse) = self.inverse_of(b) {
            return Ok(inverse);
        }
        self.finish(b)
    }

    // The equations of the cell, and the inverse of its normal matrix.
    #[inline(always)]
    #[tactic(auto, unfolding(crate::specs::Cell::cell_stencil, crate::specs::Cell::gathered, crate::specs::Cell::gather))]
    pub(crate) fn stencil(&self, b: &mut Building<'_>) -> Result<Normal, Refusal>
        ensures finished { let l = lent_in self.now.domain in
            finish_of result b.new ≡ cell_stencil l b.old.records self.now.c (building_in b.old) }
        ensures same { SameRecords b.old b.new }
    {
        self.add_faces(Phase::Gather, b)?;
        if let Some(inverse) = self.inverse_of(b) {
            return Ok(inverse);
        }
        if self.domain.mesh.counts.dimension == 2 {
            return self.widen(b);
        }
        self.finish(b)
    }
}
