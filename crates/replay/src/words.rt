// The words of a list, or of a block of it, read one after another.
ghost use Rattle.std.specs.Prelude.{◌≡◌, ◌+◌, length, OnOk};

use crate::fault::Broken;
use mesh::{Conditions, Counts, Field, Mesh};
use numerics::Stencil;

// Words that are still to be read: the same stretch of the three slices of a list. `block` is the line
// where their block starts.
#[derive(Clone, Copy)]
pub struct Words<'a> {
    pub block: u64,
    pub numbers: &'a [usize],
    pub reals: &'a [f64],
    pub lines: &'a [u64],
}

impl<'a> Words<'a> {
    pub fn broken(&self) -> Broken {
        Broken { line: self.block }
    }

    // The next n words.
    pub fn take(&mut self, n: usize) -> Result<Words<'a>, Broken>
        ensures taken { OnOk result (length self.new.lines.now + n ≡ length self.old.lines.now) }
    {
        let broken = self.broken();
        let (numbers, other_numbers) = self.numbers.split_at_checked(n).ok_or(broken)?;
        let (reals, other_reals) = self.reals.split_at_checked(n).ok_or(broken)?;
        let (lines, other_lines) = self.lines.split_at_checked(n).ok_or(broken)?;
        let taken = Words {
            block: self.block,
            numbers,
            reals,
            lines,
        };
        *self = Words {
            block: self.block,
            numbers: other_numbers,
            reals: other_reals,
            lines: other_lines,
        };
        Ok(taken)
    }

    // That there are no more words.
    pub fn end(&self) -> Result<(), Broken> {
        if self.lines.is_empty() {
            Ok(())
        } else {
            Err(self.broken())
        }
    }

    // The next word.
    pub fn number(&mut self) -> Result<usize, Broken>
        ensures taken { OnOk result (length self.new.lines.now + 1 ≡ length self.old.lines.now) }
    {
        let broken = self.broken();
        self.take(1)?.numbers.first().copied().ok_or(broken)
    }

    // The words of the next slice, which follow its length.
    pub fn slice(&mut self) -> Result<Words<'a>, Broken> {
        let n = self.number()?;
        self.take(n)
    }

    pub fn field(&mut self) -> Result<Field<'a>, Broken> {
        Ok(Field {
            number: self.number()? as u64,
            values: self.slice()?.reals,
        })
    }

    pub fn stencil(&mut self, records: usize) -> Result<Stencil<'a>, Broken> {
        Ok(Stencil {
            number: self.number()? as u64,
            records,
            starts: self.slice()?.numbers,
            equations: self.slice()?.numbers,
            weights: self.slice()?.reals,
            inverses: self.slice()?.reals,
        })
    }

    fn counts(&mut self) -> Result<Counts, Broken> {
        Ok(Counts {
            mesh: self.number()? as u64,
            dimension: self.number()?,
            cells: self.number()?,
            faces: self.number()?,
            facings: self.number()?,
            borderings: self.number()?,
        })
    }

    pub fn mesh(&mut self) -> Result<Mesh<'a>, Broken> {
        Ok(Mesh {
            counts: self.counts()?,
            adjacency: self.slice()?.numbers,
            geometry: self.slice()?.reals,
            heads: self.slice()?.numbers,
            places: self.slice()?.reals,
            facing: self.slice()?.numbers,
            bordering: self.slice()?.numbers,
        })
    }

    pub fn conditions(&mut self) -> Result<Conditions<'a>, Broken> {
        Ok(Conditions {
            number: self.number()? as u64,
            codes: self.slice()?.numbers,
            values: self.slice()?.reals,
        })
    }
}
