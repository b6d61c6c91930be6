// Control frames, of 6 bytes.
ghost use Rattle.std.specs.Prelude.{◌≡◌};
ghost use Rattle.link.specs.Control.{code_of, control_of, control_frame, control_outcome};

use crate::characters::{CR, ETX, STX};
use crate::settings::{Procedure, Refusal, Why};

pub const CONTROL_LENGTH: usize = 6;

// The code of a result frame, which no control frame has.
pub const SPE: u8 = b';';

// What a control frame says, by its code: END, SPM, MOR and REP. The reader's ANY is the host's MOR.
#[derive(Clone, Copy, Debug, PartialEq, Eq)]
pub enum Control {
    End = 0x3A,
    Spm = 0x3C,
    More = 0x3E,
    Repeat = 0x3F,
}

// By its code, byte 2 of a frame.
impl TryFrom<u8> for Control {
    type Error = Refusal;

    ghost try_from_gives = { λ code r. r ≡ control_of code };

    fn try_from(code: u8) -> Result<Self, Refusal> {
        match code {
            0x3A => Ok(Control::End),
            0x3C => Ok(Control::Spm),
            0x3E => Ok(Control::More),
            0x3F => Ok(Control::Repeat),
            _ => Err(Refusal {
                why: Why::Unknown,
                place: 2,
            }),
        }
    }
}

// Its code.
impl From<Control> for u8 {
    ghost from_gives = { λ control code. code ≡ code_of control };

    fn from(control: Control) -> u8 {
        control as u8
    }
}

impl Control {
    // The whole frame, of 6 bytes.
    fn frame(self, procedure: Procedure) -> [u8; 6]
        ensures { result ≡ control_frame procedure self }
    {
        let code = u8::from(self);
        let due = procedure.pair(&[STX, code, ETX]);
        [STX, code, ETX, due.first, due.second, CR]
    }
}

// Writes the control frame of a code to the first 6 bytes of `out`; the bytes past it stay. Procedure and code are bytes, since others are refused 1 and 4.
pub fn control_frame(procedure: u8, code: u8, out: &mut [u8]) -> Result<(), Refusal>
    ensures { (result, out.new) ≡ control_outcome procedure code out.old }
{
    let procedure = Procedure::try_from(procedure)?;
    let control = Control::try_from(code)?;
    if out.len() < CONTROL_LENGTH {
        return Err(Why::NoRoom.into());
    }
    out[..CONTROL_LENGTH].copy_from_slice(&control.frame(procedure));
    Ok(())
}
