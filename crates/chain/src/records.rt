// A sound chain of records as an iterator over its items.
ghost use Rattle.std.specs.Prelude.{◌≡◌};
ghost use Rattle.std.specs.Iterator.{YieldsFirst, item_count};
ghost use Rattle.chain.specs.Chains.{head_at};
ghost use Rattle.chain.specs.Sound.{Sound, items_from};

use crate::Form;
use crate::inner::{first_of, second_of};

// What is left of a chain: its records, and the next one as it is lent, 0 where there is none.
#[derive(Drop)]
pub struct Records<'a> {
    pub records: &'a [usize],
    pub next: usize,
}

impl<'a> Records<'a> {
    // Those of the cell c.
    pub fn of(form: Form, heads: &[usize], records: &'a [usize], c: usize) -> Records<'a>
        ensures records { result.records.now ≡ records.now }
        ensures next { result.next ≡ head_at form heads.now c }
    {
        Records {
            records,
            next: form.head_at(heads, c),
        }
    }
}

impl<'a> Iterator for Records<'a> {
    type Item = usize;

    ghost can_next = { λ s. Sound s.records.now s.next };

    ghost next_gives = { YieldsFirst (λ s. items_from s.records.now s.next) };

    ghost remaining = { item_count (λ s. items_from s.records.now s.next) };

    fn next(&mut self) -> Option<usize> {
        if self.next == 0 {
            return None;
        }
        let at = self.next - 1;
        self.next = second_of(self.records, at);
        Some(first_of(self.records, at))
    }
}
