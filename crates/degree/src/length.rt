// How many records a cell's chain of faces has.
ghost use Rattle.std.specs.Prelude.{◌≡◌, ◌/◌, ◌<◌, ◌≤◌, length};
ghost use Rattle.chain.specs.Chains.{head_at};
ghost use Rattle.chain.specs.declared.Form.TheVariants.{First};
ghost use Rattle.degree.specs.Degree.{long, lowest_long};
ghost use Rattle.degree.specs.Counts.{begin_after, AllShort};

use crate::{Chains, MOST_FACES};
use chain::inner::{first_of, second_of};
use chain::{first_at, second_at};

impl<'a> Chains<'a> {
    // Whether a cell's chain has more than 26 records.
    #[tactic(auto, using(crate::proofs::Chained::passing), unfolding(crate::specs::Degree::long))]
    fn is_long(&self, cell: usize) -> bool
        ensures { result ≡ long self.now.facing.now self.now.heads.now cell }
    {
        if self.facing.len() / 2 <= MOST_FACES {
            return false;
        }
        // it counts from 1, as it is lent, and 0 ends the chain
        let mut r = first_at(self.heads, cell);
        for _n in 0..MOST_FACES {
            if r == 0 {
                return false;
            }
            r = second_at(self.facing, r - 1);
        }
        r != 0
    }

    // Check 14, of the chains of faces: the lowest cell whose chain has more than 26 records.
    pub fn lowest_long(&self) -> Option<usize>
        ensures { result ≡ lowest_long self.now.heads.now self.now.facing.now }
    {
        chain::lowest(self.heads.len() / 2, |cell| self.is_long(cell))
    }
}

// Where the chain of the next record begins, once record i, from 0, of a chain that begins at `begin` is read:
// there too where it leads to the one behind it, and behind it where it ends its chain as one of at most 26.
// None where it does neither, or its item is not below the limit.
#[tactic(auto, unfolding(crate::specs::Counts::begin_after))]
fn begin_after(limit: usize, records: &[usize], i: usize, begin: usize) -> Option<usize>
    requires { (i < length records.now / 2) × (begin ≤ i) }
    ensures { result ≡ begin_after limit records.now i begin }
{
    if limit <= first_of(records, i) {
        return None;
    }
    let next = second_of(records, i);
    if next == i + 2 {
        return Some(begin);
    }
    if (next == 0) & (i - begin < MOST_FACES) {
        return Some(i + 1);
    }
    None
}

// Whether every record has an item below the limit and leads to the one behind it or ends its chain, and no
// chain of them has more than 26 records.
#[tactic(auto, using(crate::proofs::Chained::more))]
pub(crate) fn all_short(limit: usize, records: &[usize]) -> bool
    ensures { AllShort result limit records.now }
{
    let count = records.len() / 2;
    let mut begin = 0;
    for i in 0..count {
        let Some(next) = begin_after(limit, records, i, begin) else {
            return false;
        };
        begin = next;
    }
    begin == count
}
