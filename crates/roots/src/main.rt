// Checks `binary64::sqrt` against a list of roots on standard input, and writes how many agreed and
// the first that does not. A line of the list is a value's bit pattern, a space, its root's bit
// pattern and a newline, each pattern of 16 lower-case hex digits.
#![tactic(auto)]

ghost use Rattle.std.specs.Prelude.{◌+◌, ◌^◌, ◌≤◌, ◌<◌, length, IfOk};

use line::{LENGTH, Pair};
use std::fmt;
use std::io::{self, BufRead, Read};

mod line;

// The lines checked so far.
#[derive(Clone, Copy)]
struct Tally {
    agreed: u64,
    differ: u64,
}

impl fmt::Display for Tally {
    fn fmt<W: fmt::Write>(&self, f: &mut fmt::Formatter<W>) -> fmt::Result {
        let Tally { agreed, differ } = *self;
        write!(f, "{agreed} roots agreed")?;
        if differ > 0 {
            write!(f, ", {differ} differ")?;
        }
        Ok(())
    }
}

// A root's pattern, or 'nan'.
#[derive(Clone, Copy)]
struct Root(f64);

impl fmt::Display for Root {
    fn fmt<W: fmt::Write>(&self, f: &mut fmt::Formatter<W>) -> fmt::Result {
        if self.0.is_nan() {
            return write!(f, "nan");
        }
        let pattern = f64::to_bits(self.0);
        write!(f, "{pattern:016x}")
    }
}

impl Tally {
    // Checks a line's root, and counts it. Only the first difference is written.
    fn check(&mut self, rt: &impl Print, line: u64, pair: Pair) -> io::Result<()>
        requires { self.old.agreed + self.old.differ + 1 < 2 ^ 64 }
        ensures { self.new.agreed + self.new.differ ≤ self.old.agreed + self.old.differ + 1 }
    {
        let Pair { value, root } = pair;
        let computed = binary64::sqrt(pattern::value(value));
        if pattern::is_of(root, computed) {
            self.agreed += 1;
            return Ok(());
        }
        if self.differ == 0 {
            let computed = Root(computed);
            println!(rt; "line {line}: root of {value:016x} is {computed}, not {root:016x}")?;
        }
        self.differ += 1;
        Ok(())
    }
}

// Reads the next line into `text`, or as much of it as a line may have, and answers what was read: nothing
// at the input's end. What is read of a line that is too short may go on past its newline. std's `read_until`
// would ask a pipe for each byte.
fn read_line<'a>(input: &mut impl BufRead, text: &'a mut [u8; LENGTH]) -> io::Result<&'a [u8]>
    ensures { IfOk result (λ line. length line.now ≤ 34) }
{
    let mut n = 0;
    // The look ahead has a file read in pieces longer than a line.
    if !input.fill_buf()?.is_empty() {
        while n < LENGTH && !text[..n].contains(&b'\n') {
            let more = input.read(&mut text[n..])?;
            if more == 0 {
                break;
            }
            n += more;
        }
    }
    Ok(&text[..n])
}

// At the list's end it writes the tally, and at a broken line that line's number and no tally. A proved
// loop has to end, and nothing says that the input does: the lines are counted, up to a number that no
// run reaches.
fn main(rt: HostRuntime) -> io::Result<()> {
    let mut input = rt.reader();
    let mut text = [0; LENGTH];
    let mut tally = Tally {
        agreed: 0,
        differ: 0,
    };
    for line in 1..u64::MAX {
        let text = read_line(&mut input, &mut text)?;
        if text.is_empty() {
            return println!(rt; "{tally}");
        }
        let Some(pair) = Pair::of(text) else {
            return println!(rt;
                "line {line}: broken, two patterns of 16 lower-case hex digits expected"
            );
        };
        tally.check(&rt, line, pair)?;
    }
    Ok(())
}
