// How many roots and calls agree with the list, and how many differ.
use crate::entry::Entry;
use std::{fmt, io};

// What is compared with the list.
#[derive(Clone, Copy)]
pub enum Subject {
    Roots,
    Calls(Entry),
}

#[derive(Clone, Copy, Default)]
struct Count {
    agree: usize,
    differ: usize,
}

// The counts of the calls stand in the order of `Entry::ALL`.
#[derive(Clone, Copy, Default)]
pub struct Tally {
    roots: Count,
    calls: [Count; 11],
}

impl fmt::Display for Count {
    fn fmt<W: fmt::Write>(&self, f: &mut fmt::Formatter<W>) -> fmt::Result {
        write!(f, "{} agree, {} differ", self.agree, self.differ)
    }
}

impl Count {
    fn add(&mut self, agrees: bool) {
        let n = if agrees {
            &mut self.agree
        } else {
            &mut self.differ
        };
        *n = n.saturating_add(1);
    }
}

impl Tally {
    // Counts what was compared, and writes its line where it differs.
    pub fn count(
        &mut self,
        rt: &impl Print,
        subject: Subject,
        agrees: bool,
        line: u64,
    ) -> io::Result<()> {
        if !agrees {
            println!(rt; "line {line}: differs")?;
        }
        match subject {
            Subject::Roots => self.roots.add(agrees),
            Subject::Calls(entry) => {
                for (count, other) in self.calls.iter_mut().zip(Entry::ALL) {
                    if other == entry {
                        count.add(agrees);
                    }
                }
            }
        }
        Ok(())
    }
}

// A line for the roots and for each entry, counted or not.
impl fmt::Display for Tally {
    fn fmt<W: fmt::Write>(&self, f: &mut fmt::Formatter<W>) -> fmt::Result {
        let roots = self.roots;
        writeln!(f, "roots: {roots}")?;
        for (entry, count) in Entry::ALL.iter().zip(&self.calls) {
            writeln!(f, "{entry}: {count}")?;
        }
        Ok(())
    }
}
