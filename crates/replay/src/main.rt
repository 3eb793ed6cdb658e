// Makes the calls of a list again, which stands on standard input, and writes how many agree with
// it and how many differ. The list is what `oracle list` makes; `oracle/README.md` gives its layout. The
// calls are those of the entries of `numerics`, `simple` and `step`, and the roots are taken by
// `binary64::sqrt`.
#![tactic(auto)]

use crate::blocks::Block;
use crate::calls::Setting;
use crate::fault::Fault;
use crate::list::List;
use crate::tally::{Subject, Tally};
use crate::words::Words;
use std::io::{self, Read};

mod blocks;
mod calls;
mod entry;
mod fault;
mod list;
mod outputs;
mod tally;
mod words;

// A list has fewer bytes.
const TOO_MANY_BYTES: usize = 1310720;

// Standard input, or as much of it as is too long for a list.
fn text_of_input<'a>(
    rt: &impl Input,
    text: &'a mut [u8; TOO_MANY_BYTES],
) -> Result<&'a [u8], Fault> {
    let mut input = rt.reader();
    let mut n = 0;
    while n < TOO_MANY_BYTES {
        let more = input.read(&mut text[n..])?;
        if more == 0 {
            break;
        }
        n += more;
    }
    if n == TOO_MANY_BYTES {
        return Err(Fault::TooLong);
    }
    Ok(&text[..n])
}

// Reads the list. The room for its text is this function's alone, and free again when calls are made.
#[inline(never)]
fn read_list(rt: &impl Input, list: &mut List) -> Result<(), Fault> {
    let mut text = [0; TOO_MANY_BYTES];
    let text = text_of_input(rt, &mut text)?;
    list.parse(text)?;
    Ok(())
}

// Takes the root of the first number of each pair.
fn compare_roots(rt: &impl Print, words: Words<'_>, tally: &mut Tally) -> Result<(), Fault> {
    let (pairs, odd) = words.numbers.as_chunks::<2>();
    let (lines, _) = words.lines.as_chunks::<2>();
    if !odd.is_empty() {
        return Err(Fault::Broken(words.broken()));
    }
    for ([number, root], [line, _]) in pairs.iter().zip(lines) {
        let found = binary64::sqrt(pattern::value(*number as u64));
        tally.count(
            rt,
            Subject::Roots,
            pattern::is_of(*root as u64, found),
            *line,
        )?;
    }
    Ok(())
}

// Makes the calls of a list, on the mesh and the conditions that stand last above each.
fn replay(rt: &impl Print, list: &List) -> Result<Tally, Fault> {
    let mut tally = Tally::default();
    let mut last_mesh = None;
    let mut last_conditions = None;
    for block in list.blocks() {
        match block? {
            Block::Mesh(mesh) => last_mesh = Some(mesh),
            Block::Conditions(conditions) => last_conditions = Some(conditions),
            Block::Roots(words) => compare_roots(rt, words, &mut tally)?,
            Block::Call(entry, words) => {
                let (Some(mesh), Some(conditions)) = (last_mesh, last_conditions) else {
                    return Err(Fault::Broken(words.broken()));
                };
                let setting = Setting { mesh, conditions };
                let agrees = setting.agrees(entry, words)?;
                tally.count(rt, Subject::Calls(entry), agrees, words.block)?;
            }
        }
    }
    Ok(tally)
}

fn run(rt: &(impl Input + Print)) -> Result<Tally, Fault> {
    let mut list = List::new();
    read_list(rt, &mut list)?;
    replay(rt, &list)
}

fn main(rt: HostRuntime) -> io::Result<()> {
    match run(&rt) {
        Ok(tally) => print!(rt; "{tally}"),
        Err(Fault::Io(error)) => Err(error),
        Err(fault) => println!(rt; "{fault}"),
    }
}
