// The program `answers` (document 01): a rulebook and then requests on standard input, one line for each request on standard output.
// What it prints is made by the crate `report` from what the crate `monitor` answers; nothing is judged here.
#![tactic(auto)]

use policy::Tables;
use report::shown::{BookRefused, TooLong, Totals};
use std::fmt::Display;
use std::io;
use std::io::Write;

// The most bytes of input that are taken.
const LIMIT: usize = 65536;

// The most bytes of a line that is printed once: `granted G refused R`, with two numbers of at most 20 digits each.
const LINE: usize = 64;

// Prints a line by one write: output is not buffered, and where each part is written by itself, a line is torn as soon as one write fails.
fn print_line<W: Write, L: Display>(line: &L, to: &mut W) -> io::Result<()> {
    let mut out = [0u8; LINE];
    let mut room = &mut out[..];
    write!(room, "{line}")?;
    let len = LINE.saturating_sub(room.len());
    to.write_all(&out[..len])
}

// Prints the lines of the answers, a buffer full at a time.
fn print_lines<W: Write>(answers: &[u8], to: &mut W) -> io::Result<()> {
    let mut first = 0;
    // No `for`: how many lines the buffer took tells where the next turn begins.
    while first < answers.len() {
        let mut out = [0u8; 4096];
        let filled = report::put_lines(answers, first, &mut out);
        to.write_all(&out[..filled.len])?;
        first = filled.next;
    }
    Ok(())
}

// Puts the requests from a blank history and the first levels, and prints the answers and the totals. It is called and not joined to `main`,
// since a refused book needs none of its arrays.
#[inline(never)]
fn print_answers<W: Write>(t: Tables, requests: &[u8], to: &mut W) -> io::Result<()> {
    let mut history = [0u8; history::BYTES];
    let mut levels = [0u8; levels::BYTES];
    let mut answers = [0u8; 21846];
    monitor::blank(t, &mut history, &mut levels);
    let ran = monitor::run(t, &mut history, &mut levels, requests, &mut answers);
    let due = ran.granted + ran.refused;
    print_lines(&answers[..due], to)?;
    let totals = Totals {
        granted: ran.granted,
        refused: ran.refused,
    };
    print_line(&totals, to)
}

// Prints what the input comes to: a refused book, or the answers to its requests.
fn answer<W: Write>(input: &[u8], to: &mut W) -> io::Result<()> {
    let loaded = monitor::load(input);
    if loaded.number != 0 {
        let refused = BookRefused {
            number: loaded.number,
            offset: loaded.offset,
        };
        return print_line(&refused, to);
    }
    print_answers(loaded.tables, monitor::rest(input), to)
}

fn main(rt: HostRuntime) -> io::Result<()> {
    let mut input = [0u8; 65537];
    let n = intake::fill(&mut rt.stdin(), &mut input)?;
    let mut to = rt.stdout();
    if n > LIMIT {
        return print_line(&TooLong, &mut to);
    }
    answer(&input[..n], &mut to)
}
