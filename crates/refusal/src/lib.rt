// What a call that is not accepted is refused for, and where: docs/REFUSALS.md.
#![tactic(auto)]

ghost use Rattle.std.specs.Prelude.{◌≡◌, ◌++◌, Some, codes, decimal};
ghost use Rattle.refusal.specs.Numbers.{number_of, Numbered, refusal};

use std::error::Error;
use std::fmt;

// The check that was not passed.
#[derive(Clone, Copy, Debug, PartialEq, Eq)]
pub enum Reason {
    BadSize,
    WrongLength,
    OtherMesh,
    BadFace,
    BrokenChain,
    BadLink,
    TooNear,
    SingularStencil,
    BadCoefficient,
    NoCondition,
    BadDiagonal,
    BadVolume,
    CrowdedCell,
    WrongDistance,
}

// The reason, and the face or the cell; 0 where it names none, as the C interface hands it out.
#[derive(Clone, Copy, Debug, PartialEq, Eq)]
pub struct Refusal {
    pub reason: Reason,
    pub index: usize,
}

// A number that no reason has.
#[derive(Clone, Copy, Debug, PartialEq, Eq)]
pub struct UnknownNumber(pub u64);

impl Reason {
    // A refusal for this reason at an index.
    pub fn at(self, index: usize) -> Refusal
        ensures { result ≡ refusal self index }
    {
        Refusal {
            reason: self,
            index,
        }
    }
}

impl From<Reason> for u64 {
    ghost from_gives = { λ reason n. n ≡ number_of reason };

    fn from(reason: Reason) -> u64 {
        match reason {
            Reason::BadSize => 1,
            Reason::WrongLength => 2,
            Reason::OtherMesh => 3,
            Reason::BadFace => 4,
            Reason::BrokenChain => 5,
            Reason::BadLink => 6,
            Reason::TooNear => 7,
            Reason::SingularStencil => 8,
            Reason::BadCoefficient => 9,
            Reason::NoCondition => 10,
            Reason::BadDiagonal => 11,
            Reason::BadVolume => 12,
            Reason::CrowdedCell => 14,
            Reason::WrongDistance => 20,
        }
    }
}

impl TryFrom<u64> for Reason {
    type Error = UnknownNumber;

    ghost try_from_gives = { Numbered };

    fn try_from(number: u64) -> Result<Reason, UnknownNumber> {
        match number {
            1 => Ok(Reason::BadSize),
            2 => Ok(Reason::WrongLength),
            3 => Ok(Reason::OtherMesh),
            4 => Ok(Reason::BadFace),
            5 => Ok(Reason::BrokenChain),
            6 => Ok(Reason::BadLink),
            7 => Ok(Reason::TooNear),
            8 => Ok(Reason::SingularStencil),
            9 => Ok(Reason::BadCoefficient),
            10 => Ok(Reason::NoCondition),
            11 => Ok(Reason::BadDiagonal),
            12 => Ok(Reason::BadVolume),
            14 => Ok(Reason::CrowdedCell),
            20 => Ok(Reason::WrongDistance),
            _ => Err(UnknownNumber(number)),
        }
    }
}

impl fmt::Display for Refusal {
    ghost output = { λ r. Some (codes "refused " ++ decimal (number_of r.reason) ++ codes " at " ++ decimal r.index) };

    fn fmt<W: fmt::Write>(&self, f: &mut fmt::Formatter<W>) -> fmt::Result {
        write!(f, "refused {} at {}", u64::from(self.reason), self.index)
    }
}

impl fmt::Display for UnknownNumber {
    ghost output = { λ e. Some (codes "no refusal has number " ++ decimal e.0) };

    fn fmt<W: fmt::Write>(&self, f: &mut fmt::Formatter<W>) -> fmt::Result {
        write!(f, "no refusal has number {}", self.0)
    }
}

impl Error for Refusal {}

impl Error for UnknownNumber {}
