// The counts of a tally (document 02, Point 7): which firm a request is counted under, one count more, and the record that a caller keeps.
#![tactic(auto)]

ghost use Rattle.std.specs.Prelude.{◌≡◌, ◌||◌, ◌%◌, ◌≤◌, ◌<◌, eqb, length, get_or, set};
ghost use Rattle.policy.specs.declared.Tables.{Tables};
ghost use Rattle.policy.specs.Tables.{folder_at};
ghost use Rattle.policy.specs.Tallies.{counted_under, raised};
ghost use Rattle.request.specs.Parsed.{as_request};
ghost use Rattle.counts.specs.Counting.{raised_at, with_one};

use policy::{Folder, Kind};
use request::Parsed;

// The counts of a month: that of firm f, 64 for no firm, and number n stands at 32 * f + n. A count at 2^64 - 1 stays.
#[derive(Clone, Copy)]
pub struct Tally {
    pub counts: [u64; COUNTS],
}

// The number of the counts of a tally.
pub const COUNTS: usize = 2080;

// No firm: starts, requests on undeclared folders, and unknown or cut records are counted under it. It is a number and no `None`: row 64
// of the record that C lends (`Tally`), and what `counted_under` gives.
const NO_FIRM: usize = 64;

// A count with one more; the largest stays.
fn raise(count: u64) -> u64
    ensures { result ≡ raised count }
{
    count.saturating_add(1)
}

// One more at a place.
fn raise_at(counts: &mut [u64], at: usize)
    requires { at < length counts.old }
    ensures { counts.new ≡ set counts.old at (raised (get_or counts.old at 0)) }
{
    counts[at] = raise(counts[at]);
}

// A request of this kind names a folder: a read, a write or a step.
fn names_folder(kind: u8) -> bool
    ensures { result ≡ (eqb kind 16 || eqb kind 17 || eqb kind 19) }
{
    matches!(
        Kind::try_from(kind),
        Ok(Kind::Read | Kind::Write | Kind::Step)
    )
}

// The firm that a request read is counted under: that of its folder, whose entry is at hand, if it names a declared one.
pub fn firm_of(folder: Folder, parsed: Parsed) -> usize
    ensures { (t : Tables) → folder ≡ folder_at t (parsed.target % 128) → result ≡ counted_under t (as_request parsed) }
{
    let found = (parsed.target < 128) & folder.declared;
    if names_folder(parsed.kind) & found {
        return usize::from(folder.firm);
    }
    NO_FIRM
}

// One more at a firm and a number.
#[tactic(auto, unfolding(crate::specs::Counting::raised_at))]
pub fn count_at(counts: &mut [u64], firm: usize, number: usize)
    requires { (length counts.old ≡ 2080) × (firm ≤ 64) × (number < 32) }
    ensures { counts.new ≡ raised_at counts.old firm number }
{
    let at = 32 * firm + number;
    raise_at(counts, at);
}

// One more at a firm and a number; nothing changes outside the 65 firms and the 32 numbers.
#[tactic(auto, unfolding(crate::specs::Counting::with_one))]
pub fn count_one(counts: &mut [u64], firm: usize, number: usize)
    ensures { counts.new ≡ with_one counts.old firm number }
{
    if firm > 64 {
        return;
    }
    if number > 31 {
        return;
    }
    let place = 32 * firm + number;
    if place < counts.len() {
        raise_at(counts, place);
    }
}

// One more in a tally at a firm and a number: the record is lent and its counts are lent on.
pub fn add_one(tally: &mut Tally, firm: usize, number: usize)
    ensures { tally.new.counts ≡ with_one tally.old.counts firm number }
{
    count_one(&mut tally.counts, firm, number)
}
