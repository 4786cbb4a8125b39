// Reading one record: the checks in which the tables have no part, and the fields.
ghost use Rattle.std.specs.Prelude.{◌≡◌, not, [], ◌∷◌, ◌+◌, ◌%◌, ◌≤◌, eqb, length, take, drop, IfOk, IfErr};
ghost use Rattle.bits.specs.Bits.{bit, with_bit};
ghost use Rattle.policy.specs.Checks.{◌else◌, ladder};
ghost use Rattle.policy.specs.Rulebook.{body_length, little_endian, in_range, made_public};
ghost use Rattle.policy.specs.Refusals.{number_of, refusal_number};
ghost use Rattle.rulebook.specs.Readings.{record_read, FieldsRead, form_number, ReadAt};

use crate::entries;
use bits::Word;
use policy::{Answer, Folder, Refusal};

// The highest kind of a record.
const LAST_KIND: u8 = 7;

// A record as it is read, with the fields of its kind.
#[derive(Clone, Copy)]
pub enum Record {
    End,
    Rules {
        mask: u8,
    },
    Firm {
        number: u8,
        class: u8,
    },
    Person {
        number: u8,
        level: u16,
    },
    Folder {
        number: u8,
        firm: u8,
        kind: u8,
        level: u16,
    },
    Role {
        number: u8,
        rights: u64,
    },
    Pair {
        step: u8,
        enabled: u8,
    },
    Mark {
        folder: u8,
    },
}

// A record that is found at an offset, and where the next one starts.
#[derive(Clone, Copy)]
pub struct Reading {
    pub found: Record,
    pub next: usize,
}

// The number in two bytes, the low byte first.
fn number16(book: &[u8], at: usize) -> u16
    requires { at + 2 ≤ length book.now }
    ensures { result ≡ little_endian (take 2 (drop at book.now)) }
{
    u16::from_le_bytes([book[at], book[at + 1]])
}

// The number in eight bytes.
fn number64(book: &[u8], at: usize) -> u64
    requires { at + 8 ≤ length book.now }
    ensures { result ≡ little_endian (take 8 (drop at book.now)) }
{
    u64::from_le_bytes([
        book[at],
        book[at + 1],
        book[at + 2],
        book[at + 3],
        book[at + 4],
        book[at + 5],
        book[at + 6],
        book[at + 7],
    ])
}

// The kind fixes the length of the record, with its kind byte.
#[tactic(auto, unfolding(policy::specs::Rulebook::body_length))]
fn record_length(kind: u8) -> usize
    ensures { result ≡ 1 + body_length kind }
{
    match kind {
        1 => 2,
        2 => 3,
        3 => 4,
        4 => 6,
        5 => 10,
        6 => 3,
        7 => 2,
        0 | 8..=255 => 1,
    }
}

// The record of the given kind, whose body starts at a position, and where that ends. Each kind has its own length here: a processor that
// expects the kind need not wait for the length of one record to find the next. A kind above the last is refused before, and stands here
// with the end's.
#[tactic(auto, unfolding(policy::specs::Rulebook::body_length))]
fn fields(kind: u8, book: &[u8], at: usize) -> (Record, usize)
    requires { at + body_length kind ≤ length book.now }
    ensures { FieldsRead kind book.now at result.0 result.1 }
{
    match kind {
        1 => (Record::Rules { mask: book[at] }, at + 1),
        2 => {
            let (number, class) = (book[at], book[at + 1]);
            (Record::Firm { number, class }, at + 2)
        }
        3 => {
            let (number, level) = (book[at], number16(book, at + 1));
            (Record::Person { number, level }, at + 3)
        }
        4 => {
            let (number, firm) = (book[at], book[at + 1]);
            let (kind, level) = (book[at + 2], number16(book, at + 3));
            (
                Record::Folder {
                    number,
                    firm,
                    kind,
                    level,
                },
                at + 5,
            )
        }
        5 => {
            let (number, rights) = (book[at], number64(book, at + 1));
            (Record::Role { number, rights }, at + 9)
        }
        6 => {
            let (step, enabled) = (book[at], book[at + 1]);
            (Record::Pair { step, enabled }, at + 2)
        }
        7 => (Record::Mark { folder: book[at] }, at + 1),
        0 | 8..=255 => (Record::End, at),
    }
}

// Whether each field is in its range.
#[tactic(auto, unfolding(policy::specs::Rulebook::in_range))]
fn in_range(found: Record) -> bool
    ensures { result ≡ in_range (record_read found) }
{
    match found {
        Record::End => true,
        Record::Rules { mask } => mask <= 15,
        Record::Firm { number, class } => (number <= 63) & (class <= 31),
        Record::Person { number, .. } => number <= 63,
        Record::Folder {
            number,
            firm,
            kind,
            ..
        } => (number <= 127) & (firm <= 63) & (kind <= 15),
        Record::Role { number, .. } => number <= 31,
        Record::Pair { step, enabled } => (step <= 15) & (enabled <= 15),
        Record::Mark { folder } => folder <= 127,
    }
}

// Reads the record at an offset, and checks it as far as the tables have no part in that.
pub fn read(book: &[u8], at: usize) -> Result<Reading, Refusal>
    ensures ok { IfOk result (ReadAt book.now at) }
    ensures err { IfErr result (λ refusal. refusal_number refusal ≡ form_number book.now at) }
{
    if book.len() <= at {
        return Err(Refusal::BookCut);
    }
    let kind = book[at];
    if LAST_KIND < kind {
        return Err(Refusal::UnknownKind);
    }
    if (kind == 1) != (at == 0) {
        return Err(Refusal::MisplacedRules);
    }
    if book.len() - at < record_length(kind) {
        return Err(Refusal::BookCut);
    }
    let (found, next) = fields(kind, book, at + 1);
    if !in_range(found) {
        return Err(Refusal::OutOfRange);
    }
    Ok(Reading { found, next })
}

// The answer to a record that is refused only where its number is declared.
#[tactic(auto, unfolding(policy::specs::Checks::ladder))]
pub fn new_answer(declared: bool) -> Answer
    ensures { number_of result ≡ ladder ((not declared else 5) ∷ []) }
{
    if declared {
        Err(Refusal::DeclaredBefore)
    } else {
        Ok(())
    }
}

// The answer to a record that asks something besides: where that does not hold, `otherwise` refuses it.
#[tactic(auto, unfolding(policy::specs::Checks::ladder))]
fn asking_answer(declared: bool, holds: bool, otherwise: Refusal) -> Answer
    ensures { number_of result ≡ ladder ((not declared else 5) ∷ (holds else refusal_number otherwise) ∷ []) }
{
    if declared {
        return Err(Refusal::DeclaredBefore);
    }
    if holds { Ok(()) } else { Err(otherwise) }
}

// The answer to a folder's record, which names a firm.
pub fn folder_answer(declared: bool, firm: bool) -> Answer
    ensures { number_of result ≡ ladder ((not declared else 5) ∷ (firm else 6) ∷ []) }
{
    asking_answer(declared, firm, Refusal::FirmNotDeclared)
}

// Marks a folder's entry public, and answers.
#[tactic(auto, unfolding(policy::specs::Checks::ladder))]
pub fn mark(o: &mut Folder) -> Answer
    ensures stores { o.new ≡ made_public o.old }
    ensures answers { number_of result ≡ ladder ((not o.old.public else 5) ∷ (o.old.declared else 19) ∷ []) }
{
    let before = *o;
    *o = entries::made_public(before);
    asking_answer(before.public, before.declared, Refusal::FolderNotDeclared)
}

// Puts step q into the set of the steps that p enables, and answers.
#[tactic(auto, unfolding(policy::specs::Checks::ladder))]
pub fn enable(steps: &mut u16, q: u8) -> Answer
    ensures stores { steps.new ≡ with_bit steps.old (q % 16) }
    ensures answers { number_of result ≡ ladder ((not (bit steps.old (q % 16)) else 5) ∷ (not (eqb q 0) else 7) ∷ []) }
{
    let before = *steps;
    *steps = before.with_bit(usize::from(q));
    asking_answer(before.bit(usize::from(q)), q != 0, Refusal::EntersCreate)
}
