// Records read by value, for callers that know that they are there; and a part of check 5 for those who make the
// rest of it themselves.
ghost use Rattle.std.specs.Prelude.{◌≡◌, ◌+◌, ◌*◌, ◌-◌, ◌<◌, length, SomeIff};
ghost use Rattle.chain.specs.Chains.{HeadsWithin};
ghost use Rattle.chain.specs.Pairs.{first_at, second_at};
ghost use Rattle.chain.specs.declared.Form.TheVariants.{First};

use crate::{Form, walk};

// The two numbers of record i of two. Each reader asks that its record is there: a bound of a slice that is lent
// alone, for which a struct would be no plainer.
pub fn first_of(s: &[usize], i: usize) -> usize
    requires { 2 * i + 1 < length s.now }
    ensures { result ≡ first_at s.now i }
{
    let b = 2 * i;
    s[b]
}

pub fn second_of(s: &[usize], i: usize) -> usize
    requires { 2 * i + 1 < length s.now }
    ensures { result ≡ second_at s.now i }
{
    let b = 2 * i;
    s[b + 1]
}

// What the second of them names: it is lent plus 1, and 0 names nothing.
pub fn named_at(s: &[usize], i: usize) -> Option<usize>
    requires { 2 * i + 1 < length s.now }
    ensures { SomeIff result (0 < second_at s.now i) (second_at s.now i - 1) }
{
    second_of(s, i).checked_sub(1)
}

// Whether no cell's first record of faces is beyond so many records.
pub fn heads_within_facing(records: usize, heads: &[usize]) -> bool
    ensures { HeadsWithin result records First heads.now }
{
    walk::heads_within(records, Form::First, heads)
}
