// The tests of a single face for the checks 4 and 6.
ghost use Rattle.std.specs.Prelude.{◌≡◌, ◌/◌, ◌<◌, length};
ghost use Rattle.mesh.specs.Checks.{bad_face, bad_link};

use crate::Faces;
use chain::{first_at, second_at};

impl<'a> Faces<'a> {
    // Whether the owner or the neighbour names no cell, or the neighbour is the owner.
    pub(crate) fn is_bad(&self, f: usize) -> bool
        ensures { result ≡ bad_face self.now.counts.cells self.now.adjacency.now f }
    {
        let cells = self.counts.cells;
        let owner = first_at(self.adjacency, f);
        let neighbour = second_at(self.adjacency, f);
        if owner < cells {
            (cells < neighbour) | (neighbour == owner + 1)
        } else {
            true
        }
    }

    // Whether there is a link, and the face has two cells, or the peer is itself, missing, or not linked
    // back. Each number is compared as it is lent: 0 names no cell and no face.
    #[tactic(auto, unfolding(crate::specs::Checks::bad_link))]
    pub(crate) fn is_badly_linked(&self, codes: &[usize], f: usize) -> bool
        requires { f < length codes.now / 2 }
        ensures { result ≡ bad_link self.now.adjacency.now codes.now f }
    {
        let peer = second_at(codes, f);
        if peer == 0 {
            return false;
        }
        if codes.len() / 2 < peer {
            return true;
        }
        let back = second_at(codes, peer - 1);
        let neighbour = second_at(self.adjacency, f);
        (neighbour != 0) | (peer == f + 1) | (back != f + 1)
    }
}
