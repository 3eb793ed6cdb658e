// The sentence of a refusal, for a learner to read.
#![tactic(auto)]

ghost use Rattle.std.specs.Prelude.{◌≡◌, ◌≤◌, length};
ghost use Rattle.refusal.specs.Numbers.{number_of};
ghost use Rattle.sentence.specs.Sentence.{decimal, opening, opened, written, SentenceCall};

use itoa::Buffer;
use refusal::{Reason, Refusal};

// The sentence of a refusal, at the start of `out` where there is room for all of it. The answer is its
// length, 0 where the number is not in the table: as the C interface has both.
#[tactic(auto, using(crate::proofs::Table::untold_length, crate::proofs::Table::untold_left))]
pub fn sentence(number: u64, index: usize, out: &mut [u8]) -> usize
    ensures call { SentenceCall number index out.old result out.new }
{
    match Reason::try_from(number) {
        Ok(reason) => tell(reason.at(index), out),
        Err(_) => 0,
    }
}

// The sentence of a reason and an index, likewise.
#[tactic(auto, using(crate::proofs::Table::told_length, crate::proofs::Table::told_left))]
fn tell(refusal: Refusal, out: &mut [u8]) -> usize
    ensures call { SentenceCall (number_of refusal.reason) refusal.index out.old result out.new }
{
    write_sentence(opening(refusal.reason), refusal.index, out)
}

// A sentence with any opening, at the start of `out` where there is room for all of it. The answer is its length.
fn write_sentence(opening: &[u8], index: usize, out: &mut [u8]) -> usize
    ensures length { result ≡ length (opened opening.now index) }
    ensures leaves { out.new ≡ written (opened opening.now index) out.old }
{
    let mut buffer = Buffer::new();
    let digits = decimal(index, &mut buffer);
    let start = opening.len();
    let end = start + digits.len();
    let needed = end + 1;
    if needed <= out.len() {
        put(opening, &mut out[..start]);
        put(digits, &mut out[start..end]);
        out[end] = b'.';
    }
    needed
}

// A text over a slice of its length, byte by byte, by a call: of `copy_from_slice`, and of this loop in the place of the
// call, the compiler makes a call of a function that C would have to bring.
#[inline(never)]
fn put(text: &[u8], out: &mut [u8])
    requires { length text.now ≡ length out.old }
    ensures text { out.new ≡ text.now }
{
    for (i, byte) in out.iter_mut().enumerate() {
        *byte = text[i];
    }
}

// An index in decimal.
#[tactic(auto, using(crate::proofs::Digits::as_printed))]
fn decimal(index: usize, buffer: &mut Buffer) -> &[u8]
    ensures text { result.now ≡ decimal index }
    ensures short { length result.now ≤ 20 }
{
    buffer.format(index).as_bytes()
}

// What the sentences of a reason begin with.
fn opening(reason: Reason) -> &'static [u8]
    ensures text { result.now ≡ opening (number_of reason) }
    ensures short { length result.now ≤ 20 }
{
    match reason {
        Reason::BadSize => b"bad size at ",
        Reason::WrongLength => b"wrong length at ",
        Reason::OtherMesh => b"other mesh at ",
        Reason::BadFace => b"bad face at ",
        Reason::BrokenChain => b"broken chain at ",
        Reason::BadLink => b"bad link at ",
        Reason::TooNear => b"too near at ",
        Reason::SingularStencil => b"singular stencil at ",
        Reason::BadCoefficient => b"bad coefficient at ",
        Reason::NoCondition => b"no condition at ",
        Reason::BadDiagonal => b"bad diagonal at ",
        Reason::BadVolume => b"bad volume at ",
        Reason::CrowdedCell => b"refusal 14 at ",
        Reason::WrongDistance => b"refusal 20 at ",
    }
}
