// A stencil's slices as they are lent to be written.
ghost use Rattle.std.specs.Prelude.{◌≡◌};
ghost use Rattle.numerics.specs.Slices.{lengths_of, stencil_sized};
ghost use Rattle.numerics.specs.Bundles.{slices_of};
ghost use Rattle.stencil.specs.Bundles.{slices_in, Same};
ghost use Rattle.stencil.specs.Stencil.{cleared};

use numerics::Stencil;

// There is room for `records` records.
#[derive(Drop)]
pub struct StencilMut<'a> {
    pub records: usize,
    pub starts: &'a mut [usize],
    pub equations: &'a mut [usize],
    pub weights: &'a mut [f64],
    pub inverses: &'a mut [f64],
}

impl<'a> StencilMut<'a> {
    // Check 2, for a mesh of so many cells, of the same slices to be read; the number of the mesh is no part of it.
    pub fn is_sized(&self, cells: usize) -> bool
        ensures sized { let s = self.now in
            result ≡ stencil_sized cells s.records (lengths_of (slices_in s)) }
    {
        self.stencil(0).is_sized(cells)
    }

    // The same slices to be read, as those of the mesh of a number.
    pub fn stencil(&self, number: u64) -> Stencil<'_>
        ensures number { (result.number ≡ number) × (result.records ≡ self.now.records) }
        ensures slices { slices_of result ≡ slices_in self.now }
    {
        Stencil {
            number,
            records: self.records,
            starts: self.starts,
            equations: self.equations,
            weights: self.weights,
            inverses: self.inverses,
        }
    }

    // Zeros throughout.
    pub(crate) fn clear(&mut self)
        ensures cleared { slices_in self.new ≡ cleared (slices_in self.old) }
        ensures same { Same self.old self.new }
    {
        self.starts.fill(0);
        self.equations.fill(0);
        mesh::clear(self.weights);
        mesh::clear(self.inverses);
    }
}
