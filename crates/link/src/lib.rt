// The lowest layer of the link: its settings and refusals, test characters, control frames, and the cutting of bytes into frames.
//
// Every call takes any bytes and any numbers, and refuses by a reason, which has a number, and a place. A refusal leaves every lent byte as it was.
#![tactic(auto)]

pub mod characters;
pub mod claims;
pub mod control;
pub mod cut;
pub mod outer;
pub mod settings;
