// The blocks of a list.
ghost use Rattle.std.specs.Prelude.{◌<◌, length, OnOk};
ghost use Rattle.std.specs.Iterator.{at_most};

use crate::entry::Entry;
use crate::fault::Broken;
use crate::words::Words;
use mesh::{Conditions, Mesh};

pub enum Block<'a> {
    Mesh(Mesh<'a>),
    Conditions(Conditions<'a>),
    // Pairs of a number and its root.
    Roots(Words<'a>),
    Call(Entry, Words<'a>),
}

impl<'a> Block<'a> {
    // The block of a kind that has these words. A word of the list becomes a variant here, and nowhere else.
    fn of(kind: usize, mut words: Words<'a>) -> Result<Block<'a>, Broken> {
        match kind {
            1 => {
                let mesh = words.mesh()?;
                words.end()?;
                Ok(Block::Mesh(mesh))
            }
            2 => {
                let conditions = words.conditions()?;
                words.end()?;
                Ok(Block::Conditions(conditions))
            }
            3 => Ok(Block::Roots(words)),
            _ => {
                let entry = Entry::try_from(kind).map_err(|_| words.broken())?;
                Ok(Block::Call(entry, words))
            }
        }
    }
}

// The blocks that start at the next word, up to the first that is broken.
#[derive(Drop)]
pub struct Blocks<'a> {
    pub words: Words<'a>,
}

impl<'a> Blocks<'a> {
    // The next block: its kind, how many words follow, and these.
    fn block(&mut self) -> Result<Block<'a>, Broken>
        ensures taken { OnOk result (length self.new.words.lines.now < length self.old.words.lines.now) }
    {
        let kind = self.words.number()?;
        let n = self.words.number()?;
        let words = self.words.take(n)?;
        Block::of(kind, words)
    }
}

impl<'a> Iterator for Blocks<'a> {
    type Item = Result<Block<'a>, Broken>;

    ghost remaining = { λ s. at_most (length s.words.lines.now) };

    // Nothing is read after a broken block.
    fn next(&mut self) -> Option<Result<Block<'a>, Broken>> {
        self.words.block = *self.words.lines.first()?;
        let block = self.block();
        if block.is_err() {
            self.words.lines = &[];
        }
        Some(block)
    }
}
