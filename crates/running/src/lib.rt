// A run of requests (document 01, "Requests and calls"), on tables that a load gives, a history of 18,944 bytes and 128 bytes of levels:
// few of them each alone (`putting`), and many by what is gathered once and kept (`kept`).
#![tactic(auto)]

ghost use Rattle.std.specs.Prelude.{◌≡◌, ◌≤◌, length};
ghost use Rattle.policy.specs.Calls.{state, answers_due};
ghost use Rattle.putting.specs.Running.{whole_end, Finished, Begun};

use crate::kept::Written;
use history::History;
use levels::Levels;
use policy::GivenTables;
use putting::{Counts, Extent, FEW, Progress, alone};

pub mod kept;

// Begins a run of the requests, which have this extent: few of them are all left, and of many all whole records are put by what is gathered
// once.
fn begin(
    t: &GivenTables,
    h: &mut History,
    l: &mut Levels,
    requests: &[u8],
    answers: &mut [u8],
    extent: Extent,
) -> Progress
    requires { (answers_due requests.now ≤ length answers.old) × (extent.end ≡ whole_end requests.now) }
    ensures { Begun t.now.tables (state h.old l.old) requests.now answers.old result.at result.answered result.granted
        (state h.new l.new) answers.new }
{
    if extent.due < FEW {
        return Progress {
            at: 0,
            answered: 0,
            granted: 0,
        };
    }
    kept::run::<u8, Written>(t, h, l, requests, answers, extent.end)
}

// Runs the requests, which have this extent: few of them each alone, and otherwise by what is gathered once, with an unknown or cut record
// alone at last.
pub fn run(
    t: &GivenTables,
    h: &mut History,
    l: &mut Levels,
    requests: &[u8],
    answers: &mut [u8],
    extent: Extent,
) -> Counts
    requires { (answers_due requests.now ≤ length answers.old) × (extent.end ≡ whole_end requests.now) }
    ensures { Finished t.now.tables (state h.old l.old) requests.now answers.old result.granted result.refused
        (state h.new l.new) answers.new }
{
    let ran = begin(t, h, l, requests, answers, extent);
    alone::run_from(t, h, l, requests, answers, ran)
}
