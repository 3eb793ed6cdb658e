// The text of a line.
ghost use Rattle.roots.specs.Text.{Holds};

use pattern::inner::hex;

// What a line holds: the patterns of a value and of its root.
#[derive(Clone, Copy)]
pub struct Pair {
    pub value: u64,
    pub root: u64,
}

// The bytes of a line.
pub const LENGTH: usize = 34;

impl Pair {
    // The pair of a line, where the text is one.
    #[tactic(auto, using(crate::proofs::Lines::parts))]
    pub(crate) fn of(text: &[u8]) -> Option<Pair>
        ensures { Holds text.now result }
    {
        if text.len() != LENGTH || text[16] != b' ' || text[33] != b'\n' {
            return None;
        }
        Some(Pair {
            value: hex(&text[..16])?,
            root: hex(&text[17..33])?,
        })
    }
}
