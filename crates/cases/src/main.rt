// The program `cases`: plays a file of calls from standard input on the monitor, and prints a line for each call on standard output.
// The format of the file and of the lines is that of reference/FORMAT.md; nothing is judged here. Of a longer input it takes the first
// 458,752 bytes.
#![tactic(auto)]

mod calls;
mod command;
mod digest;
mod fields;
mod line;
mod plans;
mod play;
mod reading;

use play::Played;
use std::io;

fn main(rt: HostRuntime) -> io::Result<()> {
    let mut calls = [0u8; 458752];
    let n = intake::fill(&mut rt.stdin(), &mut calls)?;
    let mut to = rt.stdout();
    let mut played = Played::new();
    played.play_all(&calls[..n], &mut to)
}
