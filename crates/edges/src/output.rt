// What outputs hold after a call. Before it each number is `pattern::FILL`, which is no result of a case.
use mesh::Answer;
use pattern::FILL;
use pattern::inner::holds;
use pattern::word::Words;
use std::fmt;

#[derive(Clone, Copy)]
pub enum Output<'a> {
    Whole(&'a [usize]),
    Floats(&'a [f64]),
}

// The arms of each `match` below read alike, and their numbers are of two types, which one arm cannot bind.
impl Output<'_> {
    fn is_filled_with(&self, word: usize) -> bool {
        match self {
            Output::Whole(numbers) => holds(numbers, &[], word),
            Output::Floats(numbers) => holds(numbers, &[], word),
        }
    }
}

impl fmt::Display for Output<'_> {
    fn fmt<W: fmt::Write>(&self, f: &mut fmt::Formatter<W>) -> fmt::Result {
        match self {
            Output::Whole(numbers) => write!(f, "{}", Words(numbers)),
            Output::Floats(numbers) => write!(f, "{}", Words(numbers)),
        }
    }
}

// What a call answered, and its outputs after it.
#[derive(Clone, Copy)]
pub struct Told<'a> {
    pub answer: Answer,
    pub outputs: &'a [Output<'a>],
}

impl Told<'_> {
    fn all_filled_with(&self, word: usize) -> bool {
        self.outputs
            .iter()
            .all(|output| output.is_filled_with(word))
    }

    // What a refusal left in the outputs.
    fn left(&self) -> &'static str {
        if self.all_filled_with(FILL) {
            "untouched"
        } else if self.all_filled_with(0) {
            "cleared"
        } else {
            "neither untouched nor cleared"
        }
    }
}

impl fmt::Display for Told<'_> {
    fn fmt<W: fmt::Write>(&self, f: &mut fmt::Formatter<W>) -> fmt::Result {
        if let Err(refusal) = self.answer {
            return write!(f, "{refusal}, {}", self.left());
        }
        f.write_str("accepted")?;
        for output in self.outputs {
            write!(f, ",{output}")?;
        }
        Ok(())
    }
}
