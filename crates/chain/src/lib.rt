// Records of two whole numbers in flat slices, and chains of them: check 5. The numbers are as C lends them: records,
// and what a second number names, count from 1, and 0 names none.
#![tactic(auto)]

ghost use Rattle.std.specs.Prelude.{◌≡◌, ◌<◌, ℕ, Bool, get_or};
ghost use Rattle.chain.specs.Pairs.{first_at, second_at};
ghost use Rattle.chain.specs.Search.{lower, lowest_where};
ghost use Rattle.chain.specs.Chains.{lowest_broken};

pub mod inner;
mod records;
mod walk;

pub use records::Records;

// How the first records of the cells' chains stand in a slice: a number a cell, as the equations of a stencil,
// or the first or the second of two, as the faces and the neighbours of a mesh.
#[derive(Clone, Copy)]
pub enum Form {
    Single,
    First,
    Second,
}

// The number at i, 0 where it is missing: a missing number ends a chain as a 0 that is lent does, and an `Option` would
// be turned into that at each use.
pub fn number_at(s: &[usize], i: usize) -> usize
    ensures { result ≡ get_or s.now i 0 }
{
    s.get(i).copied().unwrap_or(0)
}

// The two numbers of record i of two, each 0 where it is missing.
#[tactic(auto, unfolding(crate::specs::Pairs::first_at))]
pub fn first_at(s: &[usize], i: usize) -> usize
    ensures { result ≡ first_at s.now i }
{
    if i < (s.len() + 1) / 2 { s[2 * i] } else { 0 }
}

#[tactic(auto, unfolding(crate::specs::Pairs::second_at))]
pub fn second_at(s: &[usize], i: usize) -> usize
    ensures { result ≡ second_at s.now i }
{
    if i < s.len() / 2 { s[2 * i + 1] } else { 0 }
}

// The lowest index below n at which a test holds.
pub fn lowest<F: Fn(usize) -> bool>(n: usize, test: F) -> Option<usize>
    requires callable { (i : ℕ) → i < n → F.pre test i }
    ensures lowest { (g : ℕ → Bool) → ((i : ℕ) (b : Bool) → i < n → F.post test i b → b ≡ g i) → result ≡ lowest_where g n }
{
    for i in 0..n {
        if test(i) {
            return Some(i);
        }
    }
    None
}

// The lower of two places.
#[tactic(auto, unfolding(crate::specs::Search::lower))]
pub fn lower_of(a: Option<usize>, b: Option<usize>) -> Option<usize>
    ensures { result ≡ lower a b }
{
    match (a, b) {
        (Some(i), Some(j)) => Some(i.min(j)),
        _ => a.or(b),
    }
}

// Check 5: the lowest cell whose chain of records, with items below the limit, is broken. The four stand in
// different structs of the callers, who would make one more for this call alone.
pub fn lowest_broken(limit: usize, records: &[usize], form: Form, heads: &[usize]) -> Option<usize>
    ensures { result ≡ lowest_broken limit records.now form heads.now }
{
    walk::lowest_broken(limit, records, form, heads)
}
