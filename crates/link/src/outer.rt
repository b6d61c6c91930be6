// The outer form of a frame: refusals 1 to 5 in order, or what kind of frame it is. Reading looks at nothing else before its layout.
ghost use Rattle.std.specs.Prelude.{◌≡◌};
ghost use Rattle.link.specs.Outer.{kind_of, strip_length, named, length_of, outer_of};

use crate::characters::Shaped;
use crate::control::{CONTROL_LENGTH, Control, SPE};
use crate::settings::{IdLength, Refusal, Settings, Why, offered};

// What a result frame tells of: results, or colour and turbidity.
#[derive(Clone, Copy, Debug, PartialEq, Eq)]
pub enum Kind {
    E,
    D,
}

// By byte 3 of a frame.
impl TryFrom<u8> for Kind {
    type Error = Refusal;

    ghost try_from_gives = { λ byte r. r ≡ kind_of byte };

    fn try_from(byte: u8) -> Result<Self, Refusal> {
        match byte {
            b'E' => Ok(Kind::E),
            b'D' => Ok(Kind::D),
            _ => Err(Refusal {
                why: Why::Unknown,
                place: 3,
            }),
        }
    }
}

impl Kind {
    // L of its frames, by the ID length.
    fn length(self, id: IdLength) -> usize
        ensures { result ≡ strip_length self id }
    {
        match (self, id) {
            (Kind::E, IdLength::Short) => 236,
            (Kind::E, IdLength::Long) => 239,
            (Kind::D, IdLength::Short) => 78,
            (Kind::D, IdLength::Long) => 81,
        }
    }
}

// What a frame is, by its outer form.
#[derive(Clone, Copy, Debug, PartialEq, Eq)]
pub enum Outer {
    Control(Control),
    Strip(Kind),
}

impl Outer {
    // What byte 2, the code, and byte 3 say, as they stand in the frame.
    fn named(code: u8, byte: u8) -> Result<Outer, Refusal>
        ensures { result ≡ named code byte }
    {
        Ok(match code {
            SPE => Outer::Strip(byte.try_into()?),
            _ => Outer::Control(code.try_into()?),
        })
    }

    // L, by the ID length.
    fn length(self, id: IdLength) -> usize
        ensures { result ≡ length_of self id }
    {
        match self {
            Outer::Control(_) => CONTROL_LENGTH,
            Outer::Strip(kind) => kind.length(id),
        }
    }
}

// Judges a lent frame: refusals 1 to 5, in this order, or its kind.
pub fn outer_form(settings: Settings, frame: &[u8]) -> Result<Outer, Refusal>
    ensures { result ≡ outer_of settings frame.now }
{
    let link = offered(settings)?;
    let shape = Shaped::try_from(frame)?;
    if shape.marks != link.procedure.pair(shape.front) {
        return Err(Refusal {
            why: Why::Untrue,
            place: (frame.len() - 2) as u16,
        });
    }
    let outer = Outer::named(frame[1], frame[2])?;
    if frame.len() != outer.length(link.id) {
        return Err(Why::Mislength.into());
    }
    Ok(outer)
}
