// Loading a rulebook (document 01, "Rulebook"): the tables that its records declare, or the number and the offset of what refuses it.
#![tactic(auto)]

ghost use Rattle.std.specs.Prelude.{◌≡◌, true};
ghost use Rattle.policy.specs.Rulebook.{in_range, declare, refused_book, load_book, given};
ghost use Rattle.policy.specs.Refusals.{refusal_number, number_of};
ghost use Rattle.policy.specs.Calls.{rest_of};
ghost use Rattle.rulebook.specs.Readings.{record_read, table_number};

use crate::records::Record;
use policy::{Answer, Loaded, Refusal, Tables, number_of};
use std::mem::replace;

mod entries;
mod records;
mod steps;

// A refused book.
#[tactic(auto, unfolding(policy::specs::Rulebook::refused_book))]
fn refuse(refusal: Refusal, at: usize) -> Loaded
    ensures { result ≡ refused_book (refusal_number refusal) at }
{
    let tables = entries::empty();
    Loaded {
        number: u8::from(refusal),
        offset: at,
        tables,
    }
}

// Declares a record that a load has read, and answers whether the tables refuse it. What it declares is stored also where they do: of a
// refused book the tables are not handed back, so one match on the record, with one jump, serves for both.
#[tactic(auto, unfolding(policy::specs::Rulebook::declare))]
fn declare(t: &mut Tables, found: Record) -> Answer
    requires { in_range (record_read found) ≡ true }
    ensures stores { t.new ≡ declare t.old (record_read found) }
    ensures answers { number_of result ≡ table_number t.old (record_read found) }
{
    match found {
        Record::End => Ok(()),
        Record::Rules { mask } => {
            t.mask = mask;
            Ok(())
        }
        Record::Firm { number, class } => {
            let before = replace(&mut t.firms[usize::from(number)], entries::new_firm(class));
            records::new_answer(before.declared)
        }
        Record::Person { number, level } => {
            let entry = entries::new_person(level);
            let before = replace(&mut t.persons[usize::from(number)], entry);
            records::new_answer(before.declared)
        }
        Record::Folder {
            number,
            firm,
            kind,
            level,
        } => {
            let entry = entries::new_folder(firm, kind, level);
            let before = replace(&mut t.folders[usize::from(number)], entry);
            records::folder_answer(before.declared, t.firms[usize::from(firm)].declared)
        }
        Record::Role { number, rights } => {
            let before = replace(&mut t.roles[usize::from(number)], entries::new_role(rights));
            records::new_answer(before.declared)
        }
        Record::Pair { step, enabled } => records::enable(&mut t.steps[usize::from(step)], enabled),
        Record::Mark { folder } => records::mark(&mut t.folders[usize::from(folder)]),
    }
}

// Loads a book: its tables, or those of the empty book with the number and the offset of what refuses it. What is handed back is made here:
// by a function of its own it would be copied once more, and the load of a small book takes longer (docs/LOOK-BACK.md).
pub fn load(book: &[u8]) -> Loaded
    ensures { result ≡ load_book book.now }
{
    let mut t = entries::empty();
    let mut at: usize = 0;
    loop {
        let r = match records::read(book, at) {
            Ok(r) => r,
            Err(refusal) => return refuse(refusal, at),
        };
        if matches!(r.found, Record::End) {
            if let Err(refusal) = steps::end_answer(&t.steps) {
                return refuse(refusal, at);
            }
            return Loaded {
                number: number_of(Ok(())),
                offset: at,
                tables: t,
            };
        }
        if let Err(refusal) = declare(&mut t, r.found) {
            return refuse(refusal, at);
        }
        at = r.next;
    }
}

// The part of a book after its end record, from which requests are read; empty for a refused book.
pub fn rest(book: &[u8]) -> &[u8]
    ensures { result.now ≡ rest_of book.now }
{
    let loaded = load(book);
    if loaded.number != number_of(Ok(())) {
        let end = book.len();
        return &book[end..];
    }
    let end = loaded.offset + 1;
    &book[end..]
}

// Whether a load gives the tables.
pub fn given(t: Tables) -> bool
    ensures { result ≡ given t }
{
    (t.mask <= 15)
        & entries::all_given(&t.firms)
        & entries::all_given(&t.persons)
        & entries::folders_given(&t.firms, &t.folders)
        & entries::all_given(&t.roles)
        & !steps::enters_create(&t.steps)
        & !steps::has_circle(&t.steps)
        & !steps::has_loose(&t.steps)
}
