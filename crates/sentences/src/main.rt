// The sentence of each refusal, in slices of several lengths. Writes a line for each call: the number, the
// index, the slice, the bytes that the answer says are needed, and between bars the slice as the call left
// it, which was all `#` before. The lines in the crate's file `stdout` were written from the phrases of
// document 02; none was taken from a run.
#![tactic(auto)]

use std::io;

// Numbers past the table: some whose last 8, 16 or 32 bits are those of 1, and the largest.
const FAR: [u64; 4] = [257, 65537, 4294967297, u64::MAX];

const INDICES: [usize; 4] = [0, 7, 65535, usize::MAX];

// The length of a slice that has several bytes more than any sentence needs.
const WIDE: usize = 44;

// A call with a slice of so many bytes, WIDE at most, and its line.
fn call(rt: &impl Print, number: u64, index: usize, name: &str, length: usize) -> io::Result<()> {
    let mut bytes = [b'#'; WIDE];
    let slice = &mut bytes[..length.min(WIDE)];
    let needed = sentence::sentence(number, index, slice);
    print!(rt; "{number} {index} {name}: needs {needed} |")?;
    rt.write_all(slice)?;
    println!(rt; "|")
}

// A refusal with slices that are one byte short, that fit, that have one byte more and several more.
fn slices(rt: &impl Print, number: u64, index: usize) -> io::Result<()> {
    let needed = sentence::sentence(number, index, &mut []);
    if 0 < needed {
        call(rt, number, index, "short", needed - 1)?;
    }
    call(rt, number, index, "exact", needed)?;
    call(rt, number, index, "long", needed.saturating_add(1))?;
    call(rt, number, index, "wide", WIDE)
}

// The numbers of the table and those beside it, then those past it.
fn main(rt: HostRuntime) -> io::Result<()> {
    for number in (0..22).chain(FAR) {
        for index in INDICES {
            slices(&rt, number, index)?;
        }
    }
    Ok(())
}
