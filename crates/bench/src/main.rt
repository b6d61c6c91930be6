// The cases of the bench that are run, not proved: control frames under both procedures, frames of 255 and 256 bytes, and a noisy line.
#![tactic(auto)]

use link::characters::{CR, STX};
use link::control::{CONTROL_LENGTH, control_frame};
use link::cut::{count_frames, find};
use std::io;

// Bytes in hexadecimal, with a space before each.
fn show(rt: &impl Print, bytes: &[u8]) -> io::Result<()> {
    for byte in bytes {
        print!(rt; " {byte:02X}")?;
    }
    println!(rt; "")
}

// A control frame as it is written, or the number of its refusal, for any two bytes.
fn control(rt: &impl Print, procedure: u8, code: u8) -> io::Result<()> {
    let mut out = [0u8; CONTROL_LENGTH];
    let letter = char::from(procedure);
    let name = char::from(code);
    print!(rt; "{letter} {name}")?;
    match control_frame(procedure, code, &mut out) {
        Ok(()) => show(rt, &out),
        Err(refusal) => println!(rt; " refused {}", refusal.why),
    }
}

// How many frames a run of bytes gives.
fn count(rt: &impl Print, run: &[u8]) -> io::Result<()> {
    let frames = count_frames(run);
    println!(rt; "{} bytes: frames {frames}", run.len())
}

// A run that a CR closes at 255 bytes, and one that it would close at 256.
fn long(rt: &impl Print) -> io::Result<()> {
    let mut run = [b'A'; 256];
    run[0] = STX;
    run[254] = CR;
    count(rt, &run[..255])?;
    run[254] = b'A';
    run[255] = CR;
    count(rt, &run)
}

fn main(rt: HostRuntime) -> io::Result<()> {
    for frame in [*b"a>", *b"b>", *b"a?", *b"a:", *b"b<", *b"a;", *b"c>"] {
        let [procedure, code] = frame;
        control(&rt, procedure, code)?;
    }
    long(&rt)?;
    let noisy = *b"..\x02<\x02>\x033?\r..\x02:\x033;\r";
    for start in [0, 6, 16] {
        show(&rt, find(&noisy, start))?;
    }
    Ok(())
}
