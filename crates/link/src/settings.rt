// A link's settings, and refusals: why, and where.
ghost use Rattle.std.specs.Prelude.{◌≡◌, ◌++◌, Some, codes, decimal};
ghost use Rattle.link.specs.Refusals.{number_of};
ghost use Rattle.link.specs.Settings.{procedure_of, id_of, offered_of};

use std::error::Error;
use std::fmt;

// Why something is refused, by the number of the rules' table.
#[derive(Clone, Copy, Debug, PartialEq, Eq)]
pub enum Why {
    NotOffered = 1,
    Misshapen = 2,
    Untrue = 3,
    Unknown = 4,
    Mislength = 5,
    FixedWrong = 6,
    FieldWrong = 7,
    NoRoom = 8,
    NotInForm = 9,
    TooLong = 10,
    BadState = 11,
    BadEvent = 12,
}

// The table's number.
impl From<Why> for u8 {
    ghost from_gives = { λ why n. n ≡ number_of why };

    fn from(why: Why) -> u8 {
        why as u8
    }
}

// The table's number, in print.
impl fmt::Display for Why {
    ghost output = { λ why. Some (decimal (number_of why)) };

    fn fmt<W: fmt::Write>(&self, f: &mut fmt::Formatter<W>) -> fmt::Result {
        write!(f, "{}", u8::from(*self))
    }
}

// A refusal: why, and a place counted from 1, or 0 where it has no single place.
#[derive(Clone, Copy, Debug, PartialEq, Eq)]
pub struct Refusal {
    pub why: Why,
    pub place: u16,
}

// As a text: the number and the place.
impl fmt::Display for Refusal {
    ghost output = { λ r. Some (codes "refused " ++ (decimal (number_of r.why) ++ (codes " at " ++ decimal r.place))) };

    fn fmt<W: fmt::Write>(&self, f: &mut fmt::Formatter<W>) -> fmt::Result {
        write!(f, "refused {} at {}", self.why, self.place)
    }
}

impl Error for Refusal {}

// Most refusals have no single place.
impl From<Why> for Refusal {
    ghost from_gives = { λ why r. r ≡ record { why = why; place = 0 } };

    fn from(why: Why) -> Refusal {
        Refusal { why, place: 0 }
    }
}

// A link's settings as a caller has them: the test procedure's letter, and the length of an ID. They are bytes, since others are refused 1.
#[derive(Clone, Copy, Debug, PartialEq, Eq)]
pub struct Settings {
    pub procedure: u8,
    pub id: u8,
}

// The letters of the test procedures, and the lengths of an ID, as settings have them.
pub const PROCEDURE_A: u8 = b'a';

pub const PROCEDURE_B: u8 = b'b';

pub const SHORT_ID: u8 = 10;

pub const LONG_ID: u8 = 13;

// The test procedures that are offered, by their letters.
#[derive(Clone, Copy, Debug, PartialEq, Eq)]
pub enum Procedure {
    A,
    B,
}

impl TryFrom<u8> for Procedure {
    type Error = Refusal;

    ghost try_from_gives = { λ letter r. r ≡ procedure_of letter };

    fn try_from(letter: u8) -> Result<Self, Refusal> {
        match letter {
            PROCEDURE_A => Ok(Procedure::A),
            PROCEDURE_B => Ok(Procedure::B),
            _ => Err(Why::NotOffered.into()),
        }
    }
}

// The lengths of an ID that are offered: 10 and 13. Read as `Procedure` is, from other bytes to another enum.
#[derive(Clone, Copy, Debug, PartialEq, Eq)]
pub enum IdLength {
    Short,
    Long,
}

impl TryFrom<u8> for IdLength {
    type Error = Refusal;

    ghost try_from_gives = { λ length r. r ≡ id_of length };

    fn try_from(length: u8) -> Result<Self, Refusal> {
        match length {
            SHORT_ID => Ok(IdLength::Short),
            LONG_ID => Ok(IdLength::Long),
            _ => Err(Why::NotOffered.into()),
        }
    }
}

// What a link is set to.
#[derive(Clone, Copy, Debug, PartialEq, Eq)]
pub struct Link {
    pub procedure: Procedure,
    pub id: IdLength,
}

// The settings, if a link can have them: refusal 1 if not. A public call of this name, so no TryFrom.
pub fn offered(settings: Settings) -> Result<Link, Refusal>
    ensures { result ≡ offered_of settings }
{
    Ok(Link {
        procedure: Procedure::try_from(settings.procedure)?,
        id: IdLength::try_from(settings.id)?,
    })
}
