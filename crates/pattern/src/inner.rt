// What is read, and compared, of a slice.
ghost use Rattle.std.specs.Prelude.{ℕ, ◌<◌, ◌≡◌, ◌↔◌, true, Some, length, get_or, slice_get};
ghost use Rattle.pattern.specs.Text.{Spells};

use crate::word::Word;

// The number whose 16 hex digits are the text. std's `from_str_radix` takes capitals, a sign and fewer digits too.
pub fn hex(text: &[u8]) -> Option<u64>
    ensures { Spells text.now result }
{
    if text.len() != 16 {
        return None;
    }
    let mut n: u64 = 0;
    for b in text {
        n = n * 16 + crate::digit(*b)?;
    }
    Some(n)
}

// Whether a slice holds what is expected, number by number: the words listed, and `rest` past their end.
pub fn holds<T: Word>(out: &[T], expected: &[usize], rest: usize) -> bool
    ensures { (result ≡ true) ↔ ((i : ℕ) → i < length out.now →
        slice_get out.now i ≡ Some (T.of_word (get_or expected.now i rest))) }
{
    out.iter().enumerate().all(|(i, x)| x.is_of(expected.get(i).copied().unwrap_or(rest) as u64))
}
