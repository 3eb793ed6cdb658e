// The text of a list, read line by line.
use crate::blocks::Blocks;
use crate::fault::Broken;
use crate::words::Words;
use arrayvec::ArrayVec;

// The most words that a list has.
const WORDS: usize = 65536;

// The words of a list as whole numbers and as floats, since entries are lent slices of both, and the lines
// that they stand on.
#[derive(Drop)]
pub struct List {
    numbers: ArrayVec<usize, WORDS>,
    reals: ArrayVec<f64, WORDS>,
    lines: ArrayVec<u64, WORDS>,
}

impl List {
    pub fn new() -> List {
        List {
            numbers: ArrayVec::new(),
            reals: ArrayVec::new(),
            lines: ArrayVec::new(),
        }
    }

    // Each line is a comment or a word, and ends in a newline.
    pub fn parse(&mut self, text: &[u8]) -> Result<(), Broken> {
        for (line, text) in (1..).zip(text.split_inclusive(|b| *b == b'\n')) {
            let text = text.strip_suffix(b"\n").ok_or(Broken { line })?;
            if !text.starts_with(b"#") {
                self.push(pattern::inner::hex(text).ok_or(Broken { line })?, line)?;
            }
        }
        Ok(())
    }

    fn push(&mut self, word: u64, line: u64) -> Result<(), Broken> {
        let fits = self.numbers.try_push(word as usize).is_ok()
            && self.reals.try_push(pattern::value(word)).is_ok()
            && self.lines.try_push(line).is_ok();
        if fits { Ok(()) } else { Err(Broken { line }) }
    }

    pub fn blocks(&self) -> Blocks<'_> {
        Blocks {
            words: Words {
                block: 0,
                numbers: self.numbers.as_slice(),
                reals: self.reals.as_slice(),
                lines: self.lines.as_slice(),
            },
        }
    }
}
