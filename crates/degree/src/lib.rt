// How many faces a cell has: the faces that name it, and the records of its chain of faces. Check 14.
#![tactic(auto)]

ghost use Rattle.std.specs.Prelude.{◌≡◌};
ghost use Rattle.degree.specs.Degree.{searched};

mod count;
pub mod inner;
mod length;

use chain::Form;

// The most faces that a cell may have.
pub const MOST_FACES: usize = 26;

// What the checks 5 and 14 find of the chains of faces: the lowest cell whose chain is broken, and the lowest
// whose chain has more than 26 records.
#[derive(Clone, Copy)]
pub struct Facing {
    pub broken: Option<usize>,
    pub long: Option<usize>,
}

// The first records of each cell's two chains, and the records of faces.
#[derive(Clone, Copy)]
pub struct Chains<'a> {
    pub heads: &'a [usize],
    pub facing: &'a [usize],
}

impl<'a> Chains<'a> {
    // The checks 5 and 14, in a mesh of so many faces. Where every record leads to the one behind it or ends its
    // chain, one reading of the records tells both.
    pub fn search(&self, faces: usize) -> Facing
        ensures { result ≡ searched faces self.now.heads.now self.now.facing.now }
    {
        if length::all_short(faces, self.facing) {
            if chain::inner::heads_within_facing(self.facing.len() / 2, self.heads) {
                return Facing {
                    broken: None,
                    long: None,
                };
            }
        }
        Facing {
            broken: chain::lowest_broken(faces, self.facing, Form::First, self.heads),
            long: self.lowest_long(),
        }
    }
}
