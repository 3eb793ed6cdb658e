// A stencil as C lends it.
ghost use Rattle.std.specs.Prelude.{◌≡◌};
ghost use Rattle.numerics.specs.Slices.{lengths, lengths_of, stencil_sized};
ghost use Rattle.numerics.specs.Bundles.{slices_of};

// The number of its mesh, how many records its equations are, and its four slices.
#[derive(Clone, Copy)]
pub struct Stencil<'a> {
    pub number: u64,
    pub records: usize,
    pub starts: &'a [usize],
    pub equations: &'a [usize],
    pub weights: &'a [f64],
    pub inverses: &'a [f64],
}

// How long its slices are, which the checks compare: lengths, and no places in a list.
#[derive(Clone, Copy)]
pub struct Lengths {
    pub starts: usize,
    pub equations: usize,
    pub weights: usize,
    pub inverses: usize,
}

impl Lengths {
    // Check 2, of a stencil of so many cells and records.
    pub fn are_of(&self, cells: usize, records: usize) -> bool
        ensures sized { let n = self.now in
            result ≡ stencil_sized cells records (lengths n.starts n.equations n.weights n.inverses) }
    {
        (self.starts == cells)
            & mesh::is_sized(self.equations, 2, records)
            & mesh::is_sized(self.weights, 4, records)
            & mesh::is_sized(self.inverses, 9, cells)
    }
}

impl<'a> Stencil<'a> {
    // Check 2, for a mesh of so many cells.
    pub fn is_sized(&self, cells: usize) -> bool
        ensures sized { let s = self.now in
            result ≡ stencil_sized cells s.records (lengths_of (slices_of s)) }
    {
        let lengths = Lengths {
            starts: self.starts.len(),
            equations: self.equations.len(),
            weights: self.weights.len(),
            inverses: self.inverses.len(),
        };
        lengths.are_of(cells, self.records)
    }
}
