// The stencils of all cells: their equations as chained records, and the inverses of their normal matrices.
ghost use Rattle.std.specs.Prelude.{◌≡◌, ◌+◌, ◌*◌, ◌<◌, ◌≤◌, length, Ok, IfOk};
ghost use Rattle.mesh.specs.Checks.{largest_count};
ghost use Rattle.stencil.specs.Lent.{lent_of_lent, Buildable};
ghost use Rattle.stencil.specs.Stencil.{start_of, put_nine};

use crate::StencilMut;
use crate::inner::building::Building;
use crate::inner::cell::Cell;
use matrix::Normal;
use mesh::{Answer, Bounds, Mesh};
use refusal::Refusal;

// A mesh and the conditions and links of its faces, that passed the checks.
#[derive(Clone, Copy)]
pub struct Domain<'a> {
    pub mesh: Mesh<'a>,
    pub bounds: Bounds<'a>,
    pub ghost buildable: { Buildable (lent_of_lent mesh bounds) },
}

// The normal matrix of no equations.
const ZERO: Normal = Normal {
    xx: 0.0,
    xy: 0.0,
    xz: 0.0,
    yx: 0.0,
    yy: 0.0,
    yz: 0.0,
    zx: 0.0,
    zy: 0.0,
    zz: 0.0,
};

// The record that a cell's chain starts with: 0 where it has none, as the C interface hands it out.
#[tactic(auto, unfolding(crate::specs::Stencil::start_of))]
fn start_of(old: usize, used: usize) -> usize
    requires { used ≤ largest_count }
    ensures { result ≡ start_of old used }
{
    if old < used { old + 1 } else { 0 }
}

// Number by number, as its definition sets them.
#[tactic(auto, unfolding(crate::specs::Stencil::put_nine))]
fn put_nine(c: usize, n: Normal, out: &mut [f64])
    requires { 9 * c + 8 < length out.old }
    ensures { out.new ≡ put_nine out.old c n }
{
    let b = 9 * c;
    out[b] = n.xx;
    out[b + 1] = n.xy;
    out[b + 2] = n.xz;
    out[b + 3] = n.yx;
    out[b + 4] = n.yy;
    out[b + 5] = n.yz;
    out[b + 6] = n.zx;
    out[b + 7] = n.zy;
    out[b + 8] = n.zz;
}

// That the slices have their lengths and room for no more records than a list may have is asked by each method: a
// `StencilMut` is lent before the checks, so that its fields can keep no such fact.
impl<'a> Domain<'a> {
    ghost use Rattle.stencil.specs.Stencil.{blank, SlicesSized, add_cell, Filled, stencil_answer, stencil_slices};
    ghost use Rattle.stencil.specs.Bundles.{lent_in, slices_in, Same, whole_of};

    // The stencil of the cell c after `used` records: how many there are with it.
    #[inline(always)]
    #[tactic(auto, unfolding(crate::specs::Stencil::add_cell, crate::specs::Stencil::joined))]
    fn add_cell(&self, c: usize, used: usize, out: &mut StencilMut<'_>) -> Result<usize, Refusal>
        requires c_lt_cells { c < self.now.mesh.counts.cells }
        requires sized { SlicesSized (lent_in self.now) out.old.records (slices_in out.old) }
        requires room { (used ≤ out.old.records) × (out.old.records ≤ largest_count) }
        ensures added { let l = lent_in self.now in
            whole_of result out.new ≡ add_cell l out.old.records c (whole_of (Ok used) out.old) }
        ensures sized { SlicesSized (lent_in self.now) out.old.records (slices_in out.new) }
        ensures room { IfOk result (λ u. u ≤ out.old.records) }
        ensures same { Same out.old out.new }
    {
        let mut b = Building {
            records: out.records,
            used,
            normal: ZERO,
            equations: &mut *out.equations,
            weights: &mut *out.weights,
        };
        let cell = Cell { domain: *self, c };
        let inverse = cell.stencil(&mut b)?;
        b.end_chain(used);
        let last = b.used;
        out.starts[c] = start_of(used, last);
        put_nine(c, inverse, out.inverses);
        Ok(last)
    }

    // The stencils of all cells, up to the first refusal, in slices that are cleared.
    fn fill_cells(&self, out: &mut StencilMut<'_>) -> Answer
        requires small { out.old.records ≤ largest_count }
        requires cleared { let l = lent_in self.now in
            slices_in out.old ≡ blank l out.old.records }
        ensures filled { let l = lent_in self.now in
            Filled l out.old.records result (slices_in out.new) }
        ensures sized { SlicesSized (lent_in self.now) out.old.records (slices_in out.new) }
        ensures same { Same out.old out.new }
    {
        let mut used = 0;
        for c in 0..self.mesh.counts.cells {
            used = self.add_cell(c, used, out)?;
        }
        Ok(())
    }

    // The stencils of all cells; after a refusal, zeros throughout.
    pub fn least_squares_stencil(&self, out: &mut StencilMut<'_>) -> Answer
        requires sized { SlicesSized (lent_in self.now) out.old.records (slices_in out.old) }
        requires small { out.old.records ≤ largest_count }
        ensures built { let l = lent_in self.now in
            (result ≡ stencil_answer l out.old.records) × (slices_in out.new ≡ stencil_slices l out.old.records) }
        ensures sized { SlicesSized (lent_in self.now) out.old.records (slices_in out.new) }
        ensures same { Same out.old out.new }
    {
        out.clear();
        let answer = self.fill_cells(out);
        if answer.is_err() {
            out.clear();
        }
        answer
    }
}
