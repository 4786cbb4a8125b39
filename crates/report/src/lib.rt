// The text that reports the answers: the totals, and what refuses a book or an input, each printed by its `Display`; and the lines of the
// requests, written into a buffer.
#![tactic(auto)]

ghost use Rattle.std.specs.Prelude.{◌+◌, ◌≤◌, length};
ghost use Rattle.report.specs.Text.{decimal, number_then, two_numbers, line, totals, book_refused, too_long};
ghost use Rattle.report.specs.Put.{Put, LinePut, LinesPut};

pub mod shown;

// The least number that has two digits.
const TWO_DIGITS: usize = 10;

// The most bytes of a line that answers a request.
const LINE: usize = 32;

// The lines are put into a buffer, and their numbers by hand, so that a writer is asked once for a buffer full of them: `LinesPut` says how
// many fit, and that the rest of the buffer is as it was.
//
// The place of the first number whose line is not written, and the number of bytes that are.
#[derive(Clone, Copy)]
pub struct Filled {
    pub next: usize,
    pub len: usize,
}

// Writes a text at a place, and answers where it ends.
fn put_bytes(out: &mut [u8], at: usize, text: &[u8]) -> usize
    requires { at + length text.now ≤ length out.old }
    ensures { Put out.old at text.now out.new result }
{
    let end = at + text.len();
    out[at..end].copy_from_slice(text);
    end
}

// Writes a number in decimal at a place, and answers where it ends: the digits before the last one first. (By hand, since the lines go into
// a buffer, of which `LinesPut` says the rest; the library's Display writes to a writer.)
fn put_decimal(out: &mut [u8], at: usize, n: usize) -> usize
    requires { at + length (decimal n) ≤ length out.old }
    ensures { Put out.old at (decimal n) out.new result }
{
    if n < TWO_DIGITS {
        out[at] = b'0' + n as u8;
        return at + 1;
    }
    let last = put_decimal(out, at, n / 10);
    out[last] = b'0' + (n % 10) as u8;
    last + 1
}

// Writes a number and what follows it at a place, and answers where it ends.
fn put_number(out: &mut [u8], at: usize, n: usize, after: &[u8]) -> usize
    requires { at + length (number_then n after.now) ≤ length out.old }
    ensures { Put out.old at (number_then n after.now) out.new result }
{
    let end = put_decimal(out, at, n);
    put_bytes(out, end, after)
}

// Writes two numbers, with what stands between them, and the line's end at a place, and answers where it ends.
fn put_two_numbers(out: &mut [u8], at: usize, a: usize, between: &[u8], b: usize) -> usize
    requires { at + length (two_numbers a between.now b) ≤ length out.old }
    ensures { Put out.old at (two_numbers a between.now b) out.new result }
{
    let second = put_number(out, at, a, between);
    put_number(out, second, b, b"\n")
}

// Writes the line of a request at a place of the buffer, and answers where it ends.
fn put_line(out: &mut [u8], at: usize, place: usize, number: u8) -> usize
    requires { at + 32 ≤ length out.old }
    ensures { Put out.old at (line place number) out.new result }
{
    put_two_numbers(out, at, place, b" ", usize::from(number))
}

// Writes the lines of numbers[first], numbers[first + 1], .. at the start of the buffer, one more as long as 32 bytes are left.
pub fn put_lines(numbers: &[u8], first: usize, out: &mut [u8]) -> Filled
    ensures { LinesPut numbers.now first out.old out.new result }
{
    let mut next = first;
    let mut len = 0;
    // No `for`: where `first` is past the end, `next` stays it (`next` of `LinesPut`), and a range would end elsewhere.
    while next < numbers.len() {
        if out.len() - len < LINE {
            return Filled { next, len };
        }
        len = put_line(out, len, next + 1, numbers[next]);
        next += 1;
    }
    Filled { next, len }
}

// The three functions below put what `shown` prints into a buffer. They cannot fail, and stand beside it for a caller with a buffer.

// Writes `granted G refused R` at the start of a buffer of at least 64 bytes, and answers its length; else 0.
pub fn put_totals(granted: usize, refused: usize, out: &mut [u8]) -> usize
    ensures { LinePut out.old (totals granted refused) out.new result }
{
    if out.len() < 64 {
        return 0;
    }
    let at = put_bytes(out, 0, b"granted ");
    put_two_numbers(out, at, granted, b" refused ", refused)
}

// Writes `book N at OFFSET` at the start of a buffer of at least 64 bytes, and answers its length; else 0.
pub fn put_book_refused(number: u8, offset: usize, out: &mut [u8]) -> usize
    ensures { LinePut out.old (book_refused number offset) out.new result }
{
    if out.len() < 64 {
        return 0;
    }
    let at = put_bytes(out, 0, b"book ");
    put_two_numbers(out, at, usize::from(number), b" at ", offset)
}

// Writes `too long` at the start of a buffer of at least 64 bytes, and answers its length; else 0.
pub fn put_too_long(out: &mut [u8]) -> usize
    ensures { LinePut out.old too_long out.new result }
{
    if out.len() < 64 {
        return 0;
    }
    put_bytes(out, 0, b"too long\n")
}
