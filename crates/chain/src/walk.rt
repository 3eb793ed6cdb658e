// The search for the lowest cell whose chain of records is broken. Limit, records, form and heads go apart, as
// `lowest_broken` in lib.rt says.
ghost use Rattle.std.specs.Prelude.{◌≡◌, ◌+◌, ◌*◌, ◌/◌, ◌<◌, length};
ghost use Rattle.chain.specs.Chains.{step_of, head_at, cell_count, lowest_broken, leads_on, AllLeadOn, HeadsWithin};

use crate::inner::{first_of, second_of};
use crate::{Form, first_at, number_at, second_at};

// The record after r: none where r is missing or its item is not below the limit.
#[tactic(auto, unfolding(crate::specs::Chains::step_of))]
fn step_at(limit: usize, records: &[usize], r: usize) -> Option<usize>
    requires { 0 < r }
    ensures { result ≡ step_of records.now (length records.now / 2) limit r }
{
    if r <= records.len() / 2 {
        if first_at(records, r - 1) < limit {
            return Some(second_at(records, r - 1));
        }
    }
    None
}

impl Form {
    // The first record of a cell's chain, 0 where the cell is missing.
    pub fn head_at(self, heads: &[usize], cell: usize) -> usize
        ensures { result ≡ head_at self heads.now cell }
    {
        match self {
            Form::Single => number_at(heads, cell),
            Form::First => first_at(heads, cell),
            Form::Second => second_at(heads, cell),
        }
    }

    // How many cells the heads are of.
    fn cell_count(self, heads: &[usize]) -> usize
        ensures { result ≡ cell_count self heads.now }
    {
        match self {
            Form::Single => heads.len(),
            Form::First => heads.len() / 2,
            Form::Second => heads.len() / 2,
        }
    }
}

// Whether record i, from 0, which is not the last, has an item below the limit, and ends its chain or leads to
// a later record.
#[tactic(auto, unfolding(crate::specs::Chains::leads_on))]
fn leads_on(limit: usize, records: &[usize], i: usize) -> bool
    requires { i + 1 < length records.now / 2 }
    ensures { result ≡ leads_on limit records.now i }
{
    // without a branch: chains end at places that no branch foresees
    let next = second_of(records, i);
    (first_of(records, i) < limit) & ((next == 0) | ((i + 1 < next) & (next <= records.len() / 2)))
}

// Whether the last record, i, does: it ends its chain.
#[tactic(auto, unfolding(crate::specs::Chains::leads_on))]
fn ends_at(limit: usize, records: &[usize], i: usize) -> bool
    requires { i + 1 ≡ length records.now / 2 }
    ensures { result ≡ leads_on limit records.now i }
{
    (first_of(records, i) < limit) & (second_of(records, i) == 0)
}

// Whether every record does, so that each chain of them ends.
fn all_lead_on(limit: usize, records: &[usize]) -> bool
    ensures { AllLeadOn result limit records.now }
{
    let count = records.len() / 2;
    if count == 0 {
        return true;
    }
    for i in 0..count - 1 {
        if !leads_on(limit, records, i) {
            return false;
        }
    }
    ends_at(limit, records, count - 1)
}

// Whether no cell's first record is beyond so many records.
pub(crate) fn heads_within(records: usize, form: Form, heads: &[usize]) -> bool
    ensures { HeadsWithin result records form heads.now }
{
    for cell in 0..form.cell_count(heads) {
        if records < form.head_at(heads, cell) {
            return false;
        }
    }
    true
}

// The lowest cell whose chain is broken. Records that all lead on need no walk.
pub(crate) fn lowest_broken(
    limit: usize,
    records: &[usize],
    form: Form,
    heads: &[usize],
) -> Option<usize>
    ensures { result ≡ lowest_broken limit records.now form heads.now }
{
    if all_lead_on(limit, records) {
        if heads_within(records.len() / 2, form, heads) {
            return None;
        }
    }
    lowest_walked(limit, records, form, heads)
}

// Both walks, over the cells and over a cell's records, stop at the first broken record, by a label: a rule of the
// project (docs/DECISIONS.md). The next record is read and not counted, so the inner is a `while`.
fn lowest_walked(limit: usize, records: &[usize], form: Form, heads: &[usize]) -> Option<usize>
    ensures { result ≡ lowest_broken limit records.now form heads.now }
{
    let mut broken = None;
    'cells: for cell in 0..form.cell_count(heads) {
        let mut r = form.head_at(heads, cell);
        let mut left = records.len() / 2;
        while r != 0 {
            if left == 0 {
                broken = Some(cell);
                break 'cells;
            }
            let Some(next) = step_at(limit, records, r) else {
                broken = Some(cell);
                break 'cells;
            };
            r = next;
            left -= 1;
        }
    }
    broken
}
