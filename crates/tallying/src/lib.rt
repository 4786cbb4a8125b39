// A run over the counts of a tally (document 02, Point 7), on tables that a load gives: few requests each alone, and many by what is
// gathered once and kept (`running::kept`). No answer is written; of few requests the answers stand in eight bytes until they are counted.
#![tactic(auto)]

ghost use Rattle.std.specs.Prelude.{◌≡◌, ◌≤◌, length, drop};
ghost use Rattle.policy.specs.Calls.{state, calls_of, answers_due};
ghost use Rattle.putting.specs.Running.{whole_end};
ghost use Rattle.counts.specs.Counting.{with_requests};
ghost use Rattle.tallying.specs.Counted.{Counted, CountedAll};
ghost use Rattle.tallying.specs.TallyIs.{TallyIs};

use crate::kept::Raised;
use history::History;
use levels::Levels;
use policy::{GRANTED, GivenTables, Ran, Refusal, Tables};
use putting::{Counts, Extent, FEW, Progress, alone};

pub mod kept;

// Raises the count of each request, up to the end of the answers.
fn count_answers(t: &Tables, requests: &[u8], answers: &[u8], counts: &mut [u64])
    ensures { counts.new ≡ with_requests t.now (calls_of requests.now) answers.now counts.old }
{
    let mut at: usize = 0;
    for answer in answers {
        if at >= requests.len() {
            return;
        }
        let parsed = request::parse(&requests[at..]);
        let folder = t.folders[usize::from(parsed.target) % 128];
        counts::count_one(
            counts,
            counts::firm_of(folder, parsed),
            usize::from(*answer),
        );
        at += parsed.next;
    }
}

// Runs few requests, each alone.
fn run_few(
    t: &GivenTables,
    h: &mut History,
    l: &mut Levels,
    requests: &[u8],
    counts: &mut [u64],
) -> Counts
    requires { answers_due requests.now ≤ 8 }
    ensures { CountedAll t.now.tables (state h.old l.old) requests.now counts.old result.granted result.refused
        (state h.new l.new) counts.new }
{
    let mut answers = [0u8; 8];
    let start = Progress {
        at: 0,
        answered: 0,
        granted: 0,
    };
    let ran = alone::run_from(t, h, l, requests, &mut answers, start);
    count_answers(&t.tables, requests, &answers, counts);
    ran
}

// Begins a run of the requests, which have this extent: of few of them all are left, and of many one at most.
fn begin(
    t: &GivenTables,
    h: &mut History,
    l: &mut Levels,
    requests: &[u8],
    counts: &mut [u64],
    extent: Extent,
) -> Progress
    requires { (length counts.old ≡ 2080) × (extent.end ≡ whole_end requests.now) × (extent.due ≡ answers_due requests.now) }
    ensures { Counted t.now.tables (state h.old l.old) requests.now counts.old result.at result.answered
        result.granted (state h.new l.new) counts.new
        × (answers_due (drop result.at requests.now) ≤ 8) }
{
    if extent.due < FEW {
        return Progress {
            at: 0,
            answered: 0,
            granted: 0,
        };
    }
    running::kept::run::<u64, Raised>(t, h, l, requests, counts, extent.end)
}

// Runs the requests, which have this extent.
fn run(
    t: &GivenTables,
    h: &mut History,
    l: &mut Levels,
    requests: &[u8],
    counts: &mut [u64],
    extent: Extent,
) -> Counts
    requires { (length counts.old ≡ 2080) × (extent.end ≡ whole_end requests.now) × (extent.due ≡ answers_due requests.now) }
    ensures { CountedAll t.now.tables (state h.old l.old) requests.now counts.old result.granted result.refused
        (state h.new l.new) counts.new }
{
    let ran = begin(t, h, l, requests, counts, extent);
    let at = ran.at;
    let rest = run_few(t, h, l, &requests[at..], counts);
    Counts {
        granted: ran.granted + rest.granted,
        refused: ran.answered - ran.granted + rest.refused,
    }
}

// Puts the requests of the bytes one after another, and raises the count of each request read, by its firm and its number.
pub fn tally(
    t: &GivenTables,
    h: &mut [u8],
    levels: &mut [u8],
    requests: &[u8],
    counts: &mut [u64],
) -> Ran
    ensures { TallyIs t.now.tables (state h.old levels.old) requests.now counts.old result
        (state h.new levels.new) counts.new }
{
    let Some(h) = h.as_mut_array() else {
        return loaded::no_run(u8::from(Refusal::WrongLength));
    };
    let Some(levels) = levels.as_mut_array() else {
        return loaded::no_run(u8::from(Refusal::WrongLevelsLength));
    };
    if counts.len() != counts::COUNTS {
        return loaded::no_run(u8::from(Refusal::TooFewAnswers));
    }
    let extent = putting::extent_of(requests);
    let ran = run(t, h, levels, requests, counts, extent);
    Ran {
        number: GRANTED,
        granted: ran.granted,
        refused: ran.refused,
    }
}
