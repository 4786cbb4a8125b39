// Lines of text: a name and numbers in decimal.
use std::io;
use std::io::Write;

// The most bytes of a line: no name has more than 8, and none has more than 6 numbers, of at most 20 digits each.
const LINE: usize = 256;

// Prints a line, by one write: output is not buffered, and a write for each part of a line costs more than making it.
pub fn print<W: Write>(to: &mut W, name: &str, numbers: &[u64]) -> io::Result<()> {
    let mut out = [0u8; LINE];
    let mut room = &mut out[..];
    write!(room, "{name}")?;
    for n in numbers {
        write!(room, " {n}")?;
    }
    writeln!(room)?;
    let len = LINE.saturating_sub(room.len());
    to.write_all(&out[..len])
}
