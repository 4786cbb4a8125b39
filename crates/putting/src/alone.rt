// A put of one request alone, and a run of few requests, each put alone: nothing is kept from one to the next.
ghost use Rattle.std.specs.Prelude.{◌≡◌, List, ℕ, length};
ghost use Rattle.policy.specs.Refusals.{number_of};
ghost use Rattle.policy.specs.Calls.{State, state, judge_number, put_state};
ghost use Rattle.putting.specs.Running.{Fits, Recorded, RecordedBy, Finished, Done, Room};

use crate::{Counts, Progress, recording};
use history::History;
use level::Level;
use levels::Levels;
use policy::{Answer, GivenTables, Kind, number_of};
use request::Parsed;

// Records a request that was granted, whose folder has this level.
#[tactic(auto, using(crate::proofs::PutAlone::other_recorded))]
fn record(h: &mut [u8], l: &mut Levels, parsed: Parsed, level: Level)
    requires { Fits parsed }
    ensures { Recorded h.old l.old parsed level.0 h.new l.new }
{
    let Ok(kind) = Kind::try_from(parsed.kind) else {
        return;
    };
    let s = usize::from(parsed.person);
    let o = usize::from(parsed.target);
    let p = usize::from(parsed.step);
    match kind {
        Kind::Read | Kind::Write => recording::record_access(
            h,
            l,
            s,
            o,
            kind == Kind::Write,
            level,
        ),
        Kind::Start => recording::record_start(h, s, o),
        Kind::Step => recording::record_step(h, l, s, p, o, level),
    }
}

// Records a request, whose folder has this level, if its answer is that it is granted.
fn record_if_granted(answer: Answer, h: &mut [u8], l: &mut Levels, parsed: Parsed, level: Level)
    requires { number_of answer ≡ 0 → Fits parsed }
    ensures { RecordedBy (number_of answer) h.old l.old parsed level.0 h.new l.new }
{
    if answer.is_ok() {
        record(h, l, parsed, level);
    }
}

// Puts the request at the front of the bytes.
pub fn put(t: &GivenTables, h: &mut History, l: &mut Levels, bytes: &[u8]) -> Answer
    ensures { (number_of result ≡ judge_number t.now.tables (state h.old l.old) bytes.now)
        × (state h.new l.new ≡ put_state t.now.tables (state h.old l.old) bytes.now) }
{
    let parsed = request::parse(bytes);
    judging::judge(t, h, l, parsed)?;
    let folder = t.tables.folders[usize::from(parsed.target) % 128];
    record(h, l, parsed, folder.level);
    Ok(())
}

// Puts the requests that are left one after another, each on the history and the levels that the one before it leaves, and writes their
// numbers behind those that are written.
pub fn run_from(
    t: &GivenTables,
    h: &mut History,
    l: &mut Levels,
    requests: &[u8],
    answers: &mut [u8],
    ran: Progress,
) -> Counts
    requires { Room requests.now (length answers.old) ran.at ran.answered ran.granted }
    ensures { (a : State) (room : List ℕ) → length room ≡ length answers.old
        → Done t.now.tables a requests.now room ran.at ran.answered ran.granted (state h.old l.old)
        answers.old
        → Finished t.now.tables a requests.now room result.granted result.refused (state h.new l.new) answers.new }
{
    let mut at = ran.at;
    let mut i = ran.answered;
    let mut granted = ran.granted;
    // An iterator over records would hold this same place, and `Room` and `Done` speak of it.
    while at < requests.len() {
        let parsed = request::parse(&requests[at..]);
        let answer = judging::judge(t, h, l, parsed);
        let folder = t.tables.folders[usize::from(parsed.target) % 128];
        record_if_granted(answer, h, l, parsed, folder.level);
        answers[i] = number_of(answer);
        i += 1;
        granted += usize::from(answer.is_ok());
        at += parsed.next;
    }
    let refused = i - granted;
    Counts { granted, refused }
}
