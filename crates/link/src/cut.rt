// Cutting bytes into frames: the receiver, one byte at a time, and the finder, over a capture.
//
// Outside a frame all but STX is dropped; STX always begins anew; CR closes. One decision, `judge`, serves receiver and finder.
ghost use Rattle.std.specs.Prelude.{◌≡◌, drop, length};
ghost use Rattle.std.specs.Iterator.{item_count};
ghost use Rattle.link.specs.Cut.{fresh, act_of, receive_of, refusal_in, first_from, span_of, bytes_of, FindsNext, frames_of, frames_left, fed_of};

use crate::characters::{CR, STX};
use crate::settings::{Refusal, Why};

// As many bytes as a receiver can hold, and a frame can have.
pub const HOLDS: usize = 255;

// What a byte does to a receiver.
#[derive(Clone, Copy, Debug, PartialEq, Eq)]
pub enum Act {
    Begin,
    Skip,
    Drop,
    Close,
    Keep,
}

// To one that holds `count` bytes: refusal 11 over 255. Receiver and finder both match on the act.
fn judge(count: usize, byte: u8) -> Result<Act, Refusal>
    ensures { result ≡ act_of count byte }
{
    if HOLDS < count {
        return Err(Why::BadState.into());
    }
    Ok(if byte == STX {
        Act::Begin
    } else if count == 0 {
        Act::Skip
    } else if count == HOLDS {
        Act::Drop
    } else if byte == CR {
        Act::Close
    } else {
        Act::Keep
    })
}

// What a receiver meets. It holds nothing after either.
#[derive(Clone, Copy, Debug, PartialEq, Eq)]
pub enum Received {
    // A frame: the first so many of its bytes.
    Frame(usize),
    // 255 bytes without a CR were dropped.
    Dropped,
}

// What a receiver met in a run of bytes, and how many of them it took for that.
#[derive(Clone, Copy, Debug, PartialEq, Eq)]
pub struct Fed {
    pub received: Received,
    pub used: usize,
}

// The receiver: 255 bytes, of which it holds the first `count`. A count over 255 is refused 11, so it is a number and no list's length.
// It has no `==`, since what stands past the count means nothing.
#[derive(Clone, Copy, Debug)]
pub struct Receiver {
    pub held: [u8; HOLDS],
    pub count: usize,
}

impl Receiver {
    // One that holds nothing.
    #[tactic(auto, unfolding(crate::specs::Cut::fresh))]
    pub fn fresh() -> Receiver
        ensures { result ≡ fresh }
    {
        Receiver {
            held: [0; HOLDS],
            count: 0,
        }
    }

    // Takes one byte.
    pub fn receive(&mut self, byte: u8) -> Result<Option<Received>, Refusal>
        ensures { (result, self.new) ≡ receive_of self.old byte }
    {
        match judge(self.count, byte)? {
            Act::Begin => {
                self.held[0] = byte;
                self.count = 1;
                Ok(None)
            }
            Act::Skip => Ok(None),
            Act::Drop => {
                self.count = 0;
                Ok(Some(Received::Dropped))
            }
            Act::Close => {
                let len = self.count + 1;
                self.held[self.count] = byte;
                self.count = 0;
                Ok(Some(Received::Frame(len)))
            }
            Act::Keep => {
                self.held[self.count] = byte;
                self.count += 1;
                Ok(None)
            }
        }
    }

    // Takes the bytes of a run one by one, up to the first frame or loss; `None` where all are used up before.
    pub fn feed(&mut self, bytes: &[u8]) -> Result<Option<Fed>, Refusal>
        ensures { (result, self.new) ≡ fed_of self.old 0 bytes.now }
    {
        for (i, byte) in bytes.iter().enumerate() {
            if let Some(received) = self.receive(*byte)? {
                return Ok(Some(Fed {
                    received,
                    used: i + 1,
                }));
            }
        }
        Ok(None)
    }
}

// The refusal in a receiver's answer: a loss counts as a frame refused 2.
pub fn refusal_in(answer: Result<Option<Received>, Refusal>) -> Result<(), Refusal>
    ensures { result ≡ refusal_in answer }
{
    match answer? {
        Some(Received::Dropped) => Err(Why::Misshapen.into()),
        Some(Received::Frame(_)) | None => Ok(()),
    }
}

// A part of a capture.
#[derive(Clone, Copy, Debug, PartialEq, Eq)]
pub struct Span {
    pub at: usize,
    pub len: usize,
}

// Where the first frame stands that a fresh receiver would hand over, fed from `start`.
// Over places, since `skip` would step through all before `start`, again for each frame.
#[tactic(auto, using(crate::proofs::Held::held_none))]
pub fn locate(capture: &[u8], start: usize) -> Option<Span>
    ensures { result ≡ span_of (first_from capture.now start) }
{
    let mut count: usize = 0;
    for at in start..capture.len() {
        count = match judge(count, capture[at]) {
            Ok(Act::Begin) => 1,
            Ok(Act::Keep) => count + 1,
            Ok(Act::Close) => {
                let len = count + 1;
                return Some(Span {
                    at: at + 1 - len,
                    len,
                });
            }
            Ok(Act::Skip) => 0,
            Ok(Act::Drop) => 0,
            Err(_) => 0,
        };
    }
    None
}

// The first frame itself, as a part of the capture: an empty one where there is none, as the rules have it. For one frame after the other, `Finder`.
#[tactic(auto, using(crate::proofs::Frames::parts))]
pub fn find(capture: &[u8], start: usize) -> &[u8]
    ensures { result.now ≡ bytes_of (first_from capture.now start) }
{
    match locate(capture, start) {
        Some(s) => &capture[s.at..s.at + s.len],
        None => &capture[..0],
    }
}

// The finder: the frames of a capture from `start` on, one after the other, as parts of it.
#[derive(Clone, Copy, Debug, PartialEq, Eq)]
pub struct Finder<'a> {
    pub capture: &'a [u8],
    pub start: usize,
}

impl<'a> Finder<'a> {
    // From the beginning.
    pub fn new(capture: &'a [u8]) -> Finder<'a>
        ensures capture { result.capture.now ≡ capture.now }
        ensures start { result.start ≡ 0 }
    {
        Finder { capture, start: 0 }
    }
}

impl<'a> Iterator for Finder<'a> {
    type Item = &'a [u8];

    ghost next_gives = { FindsNext };

    ghost remaining = { item_count frames_left };

    #[tactic(auto, using(crate::proofs::Frames::finds))]
    fn next(&mut self) -> Option<&'a [u8]> {
        let Span { at, len } = locate(self.capture, self.start)?;
        let end = at + len;
        self.start = end;
        Some(&self.capture[at..end])
    }
}

// How many frames there are from `start` on.
#[tactic(auto, using(crate::proofs::Frames::few_frames))]
fn frames_after(capture: &[u8], start: usize) -> usize
    ensures { result ≡ length (frames_of (drop start capture.now)) }
{
    Finder { capture, start }.count()
}

// How many frames a receiver hands over that is fed the capture.
pub fn count_frames(capture: &[u8]) -> usize
    ensures { result ≡ length (frames_of capture.now) }
{
    frames_after(capture, 0)
}
