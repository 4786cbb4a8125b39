// The lines that are printed once: each is a value whose `Display` is the line.
ghost use Rattle.std.specs.Prelude.{Some};
ghost use Rattle.report.specs.Text.{totals, book_refused, too_long};

use std::fmt;

// `granted G refused R`
#[derive(Clone, Copy, Debug)]
pub struct Totals {
    pub granted: usize,
    pub refused: usize,
}

// `book N at OFFSET`
#[derive(Clone, Copy, Debug)]
pub struct BookRefused {
    pub number: u8,
    pub offset: usize,
}

// `too long`
#[derive(Clone, Copy, Debug)]
pub struct TooLong;

impl fmt::Display for Totals {
    ghost output = { λ t. Some (totals t.granted t.refused) };

    fn fmt<W: fmt::Write>(&self, f: &mut fmt::Formatter<W>) -> fmt::Result {
        let granted = self.granted;
        let refused = self.refused;
        writeln!(f, "granted {granted} refused {refused}")
    }
}

impl fmt::Display for BookRefused {
    ghost output = { λ b. Some (book_refused b.number b.offset) };

    fn fmt<W: fmt::Write>(&self, f: &mut fmt::Formatter<W>) -> fmt::Result {
        let number = self.number;
        let offset = self.offset;
        writeln!(f, "book {number} at {offset}")
    }
}

impl fmt::Display for TooLong {
    ghost output = { λ _. Some too_long };

    fn fmt<W: fmt::Write>(&self, f: &mut fmt::Formatter<W>) -> fmt::Result {
        writeln!(f, "too long")
    }
}
