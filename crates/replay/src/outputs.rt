// What the list says of a call's answer, and of what the outputs hold after it.
ghost use Rattle.std.specs.Prelude.{◌≤◌, length, IfOk};

use crate::fault::Broken;
use crate::words::Words;
use mesh::Answer;
use pattern::word::Word;
use pattern::{FILL, fill};
use refusal::Refusal;

// The longest output of a call. Of the outputs of a refused call a list has the lengths alone, and a wrong one
// must not take memory without bound.
pub const LONGEST: usize = 1024;

// What the outputs of a refused call hold.
#[derive(Clone, Copy)]
enum Left {
    Untouched,
    Zeros,
}

// A refusal of the list, by its number, which may be no reason's.
#[derive(Clone, Copy)]
struct Refused {
    number: u64,
    index: usize,
    left: Left,
}

// The list's answer.
type Verdict = Result<(), Refused>;

// The last words of a call: its answer, and of the outputs that are still to be read the lengths and the
// words listed.
#[derive(Clone, Copy)]
pub struct Outputs<'a> {
    verdict: Verdict,
    lengths: Words<'a>,
    listed: Words<'a>,
}

// An output, and what it is to hold: the words listed, and `rest` past their end.
#[derive(Drop)]
pub struct Output<'a, 'b, T: Word> {
    pub values: &'b mut [T],
    listed: &'a [usize],
    rest: usize,
}

impl From<Left> for usize {
    fn from(left: Left) -> usize {
        match left {
            Left::Untouched => FILL,
            Left::Zeros => 0,
        }
    }
}

impl Refused {
    fn is_of(self, refusal: Refusal) -> bool {
        u64::from(refusal.reason) == self.number && refusal.index == self.index
    }
}

impl<T: Word> Output<'_, '_, T> {
    pub fn is_right(&self) -> bool {
        pattern::inner::holds(self.values, self.listed, self.rest)
    }
}

impl<'a> Words<'a> {
    fn verdict(&mut self) -> Result<Verdict, Broken> {
        let number = self.number()? as u64;
        let held = self.number()?;
        let index = self.number()?;
        let left = match held {
            0 if number == 0 => return Ok(Ok(())),
            1 if number != 0 => Left::Untouched,
            2 if number != 0 => Left::Zeros,
            _ => return Err(self.broken()),
        };
        Ok(Err(Refused {
            number,
            index,
            left,
        }))
    }

    // What the words that are left say of so many outputs.
    pub fn outputs(mut self, count: usize) -> Result<Outputs<'a>, Broken> {
        let lengths = self.take(count)?;
        let verdict = self.verdict()?;
        Ok(Outputs {
            verdict,
            lengths,
            listed: self,
        })
    }
}

impl<'a> Outputs<'a> {
    // The next output: the front of a room, which the caller has filled.
    pub fn output<'b, T: Word>(
        &mut self,
        room: &'b mut [T; LONGEST],
    ) -> Result<Output<'a, 'b, T>, Broken>
        ensures { IfOk result (λ output. length output.values.now ≤ 1024) }
    {
        let n = self.lengths.number()?;
        if n > LONGEST {
            return Err(self.listed.broken());
        }
        let (listed, rest) = match self.verdict {
            Ok(()) => (n, 0),
            Err(refused) => (0, usize::from(refused.left)),
        };
        Ok(Output {
            values: &mut room[..n],
            listed: self.listed.take(listed)?.numbers,
            rest,
        })
    }

    // Whether the answer is right, after the last output was read.
    pub fn is_right(&self, answer: Answer) -> Result<bool, Broken> {
        self.lengths.end()?;
        self.listed.end()?;
        Ok(match (self.verdict, answer) {
            (Ok(()), Ok(())) => true,
            (Err(refused), Err(refusal)) => refused.is_of(refusal),
            _ => false,
        })
    }
}

impl<'a> Words<'a> {
    // Makes a call with one output; whether the answer and the output are right.
    pub fn one<F: FnOnce(&mut [f64]) -> Answer>(self, call: F) -> Result<bool, Broken>
        requires { F.IsAlwaysCallable call }
    {
        let mut room = [fill(); LONGEST];
        let mut outputs = self.outputs(1)?;
        let out = outputs.output(&mut room)?;
        let answer = call(&mut *out.values);
        Ok(outputs.is_right(answer)? && out.is_right())
    }

    // The same with two outputs: a closure takes each by name, so one function for both would be no plainer.
    pub fn two<F: FnOnce(&mut [f64], &mut [f64]) -> Answer>(self, call: F) -> Result<bool, Broken>
        requires { F.IsAlwaysCallable call }
    {
        let mut rooms = ([fill(); LONGEST], [fill(); LONGEST]);
        let mut outputs = self.outputs(2)?;
        let first = outputs.output(&mut rooms.0)?;
        let second = outputs.output(&mut rooms.1)?;
        let answer = call(&mut *first.values, &mut *second.values);
        Ok(outputs.is_right(answer)? && first.is_right() && second.is_right())
    }
}
