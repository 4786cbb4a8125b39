// Playing commands on the monitor: the tables, and the buffers that each call is lent a front of.
use crate::command::Command;
use crate::{calls, command, digest, fields, line, reading};
use policy::Tables;
use std::io;
use std::io::Write;

// The bytes of the history buffer.
const HISTORY: usize = 18960;

// The bytes of the level buffer.
const LEVELS: usize = 144;

// The bytes of the answer buffer.
const ANSWERS: usize = 4096;

#[derive(Drop)]
pub struct Played {
    tables: Tables,
    history: [u8; HISTORY],
    levels: [u8; LEVELS],
    answers: [u8; ANSWERS],
}

impl Played {
    // The tables of the empty book, and buffers of zeros.
    pub fn new() -> Played {
        let start = monitor::load(b"");
        Played {
            tables: start.tables,
            history: [0; HISTORY],
            levels: [0; LEVELS],
            answers: [0; ANSWERS],
        }
    }

    // Loads a book, and prints its line.
    fn load<W: Write>(&mut self, book: &[u8], to: &mut W) -> io::Result<()> {
        let loaded = monitor::load(book);
        let left = monitor::rest(book);
        self.tables = loaded.tables;
        let numbers = [
            u64::from(loaded.number),
            loaded.offset as u64,
            left.len() as u64,
            digest::of_tables(&self.tables),
        ];
        line::print(to, "load", &numbers)
    }

    // Blanks a history and levels, and prints its line.
    fn blank<W: Write>(&mut self, s: &[u8], to: &mut W) -> io::Result<()> {
        let Played {
            tables,
            history,
            levels,
            ..
        } = self;
        let number = calls::blank(*tables, s, history, levels);
        self.print_changed("blank", number, to)
    }

    // Prints the line of a call that may have changed the history and the levels.
    fn print_changed<W: Write>(&self, name: &str, number: u8, to: &mut W) -> io::Result<()> {
        let numbers = [
            u64::from(number),
            digest::of_bytes(&self.history),
            digest::of_bytes(&self.levels),
        ];
        line::print(to, name, &numbers)
    }

    // Judges a request, and prints its line.
    fn judge<W: Write>(&self, s: &[u8], to: &mut W) -> io::Result<()> {
        let number = calls::judge(self.tables, s, &self.history, &self.levels);
        line::print(to, "judge", &[u64::from(number)])
    }

    // Puts a request, and prints its line.
    fn put<W: Write>(&mut self, s: &[u8], to: &mut W) -> io::Result<()> {
        let Played {
            tables,
            history,
            levels,
            ..
        } = self;
        let number = calls::put(*tables, s, history, levels);
        self.print_changed("put", number, to)
    }

    // Runs requests, and prints the run's line.
    fn run<W: Write>(&mut self, s: &[u8], to: &mut W) -> io::Result<()> {
        let Played {
            tables,
            history,
            levels,
            answers,
        } = self;
        let ran = calls::run(*tables, s, history, levels, answers);
        let numbers = [
            u64::from(ran.number),
            ran.granted as u64,
            ran.refused as u64,
            digest::of_bytes(&self.history),
            digest::of_bytes(&self.levels),
            digest::of_bytes(&self.answers),
        ];
        line::print(to, "run", &numbers)
    }

    // Asks for a person's standing, and prints its line.
    fn standing<W: Write>(&self, s: &[u8], to: &mut W) -> io::Result<()> {
        let found = calls::standing(self.tables, s, &self.history, &self.levels);
        let numbers = [
            u64::from(found.number),
            u64::from(found.level.0),
            u64::from(found.rights),
            u64::from(found.firms),
        ];
        line::print(to, "standing", &numbers)
    }

    // Plans jobs, puts them in the order handed back, and prints the plan's line.
    fn plan<W: Write>(&mut self, s: &[u8], to: &mut W) -> io::Result<()> {
        let Played {
            tables,
            history,
            levels,
            ..
        } = self;
        let planned = calls::plan(*tables, s, history, levels);
        let numbers = [
            u64::from(planned.number),
            planned.granted,
            planned.left_over,
            digest::of_bytes(&self.history),
            digest::of_bytes(&self.levels),
        ];
        line::print(to, "plan", &numbers)
    }

    // Plays a command.
    fn play<W: Write>(&mut self, command: Command, s: &[u8], to: &mut W) -> io::Result<()> {
        match command {
            Command::Load => return self.load(reading::after(s, 3), to),
            Command::Blank => return self.blank(s, to),
            Command::Judge => return self.judge(s, to),
            Command::Put => return self.put(s, to),
            Command::Run => return self.run(s, to),
            Command::Standing => return self.standing(s, to),
            Command::Plan => return self.plan(s, to),
            Command::Change => fields::change(
                &mut self.tables,
                reading::byte(s, 1),
                usize::from(reading::byte(s, 2)),
                reading::number(s, 3),
            ),
            Command::HistoryByte => {
                self.history[reading::pair(s, 1) % HISTORY] = reading::byte(s, 3);
            }
            Command::Fill => self.answers.fill(reading::byte(s, 1)),
            Command::LevelByte => {
                self.levels[usize::from(reading::byte(s, 1)) % LEVELS] = reading::byte(s, 2);
            }
        }
        Ok(())
    }

    // Plays the commands one after another.
    pub fn play_all<W: Write>(&mut self, calls: &[u8], to: &mut W) -> io::Result<()> {
        let mut at = 0;
        while let Some((command, len)) = command::first(&calls[at..]) {
            self.play(command, &calls[at..at + len], to)?;
            at += len;
        }
        Ok(())
    }
}
