// The calls of the access monitor (document 01, "Requests and calls", and document 02). Each ends, on every input, in a published number; a
// call whose own number is not 0 changes no byte lent to it. They return numbers and records, and take slices: 01 and README name them so.
#![tactic(auto)]

ghost use Rattle.std.specs.Prelude.{◌≡◌, IfOk, IfErr};
ghost use Rattle.policy.specs.Rulebook.{load_book};
ghost use Rattle.policy.specs.Refusals.{refusal_number};
ghost use Rattle.policy.specs.Checks.{ladder};
ghost use Rattle.policy.specs.Calls.{
  state,
  blank_number,
  blank_state,
  rest_of,
  call_checks,
  judge_number,
  put_state,
  standing as standingOf,
};
ghost use Rattle.policy.specs.Plans.{jobs_of, IsPlan};
ghost use Rattle.jobs.specs.Packing.{jobs_in};
ghost use Rattle.loaded.specs.Refused.{RunIs};
ghost use Rattle.tallying.specs.TallyIs.{TallyIs};

use counts::Tally;
use jobs::Packed;
use policy::{GivenTables, Job, Loaded, Plan, Ran, Refusal, Standing, Tables, number_of};

// Loads a rulebook.
pub fn load(book: &[u8]) -> Loaded
    ensures { result ≡ load_book book.now }
{
    rulebook::load(book)
}

// The part of a rulebook's bytes after its end record.
pub fn rest(book: &[u8]) -> &[u8]
    ensures { result.now ≡ rest_of book.now }
{
    rulebook::rest(book)
}

// The checks that every call on tables, a history and levels starts with: the tables, as ones that a load gives, or what refuses.
fn checked(t: Tables, h: &[u8], levels: &[u8]) -> Result<GivenTables, Refusal>
    ensures ok { IfOk result (λ given. (given.tables ≡ t) × (ladder (call_checks t (state h.now levels.now)) ≡ 0)) }
    ensures err { IfErr result (λ refusal. refusal_number refusal ≡ ladder (call_checks t (state h.now levels.now))) }
{
    if h.len() != history::BYTES {
        return Err(Refusal::WrongLength);
    }
    if levels.len() != levels::BYTES {
        return Err(Refusal::WrongLevelsLength);
    }
    if !rulebook::given(t) {
        return Err(Refusal::NotGiven);
    }
    Ok(GivenTables { tables: t })
}

// Makes a history blank, and stores each person's first level.
pub fn blank(t: Tables, h: &mut [u8], levels: &mut [u8]) -> u8
    ensures { (result ≡ blank_number t (state h.old levels.old))
        × (state h.new levels.new ≡ blank_state t (state h.old levels.old)) }
{
    match checked(t, h, levels) {
        Ok(given) => number_of(loaded::blank(&given, h, levels)),
        Err(refusal) => u8::from(refusal),
    }
}

// Judges the request at the front of the bytes, and records nothing.
pub fn judge(t: Tables, h: &[u8], levels: &[u8], request: &[u8]) -> u8
    ensures { result ≡ judge_number t (state h.now levels.now) request.now }
{
    match checked(t, h, levels) {
        Ok(given) => number_of(loaded::judge(&given, h, levels, request)),
        Err(refusal) => u8::from(refusal),
    }
}

// Judges the request at the front of the bytes; a granted one is recorded, and a granted read or step lowers its person's level.
pub fn put(t: Tables, h: &mut [u8], levels: &mut [u8], request: &[u8]) -> u8
    ensures { (result ≡ judge_number t (state h.old levels.old) request.now)
        × (state h.new levels.new ≡ put_state t (state h.old levels.old) request.now) }
{
    match checked(t, h, levels) {
        Ok(given) => number_of(loaded::put(&given, h, levels, request)),
        Err(refusal) => u8::from(refusal),
    }
}

// Puts the requests of the bytes one after another, and writes one answer byte for each.
pub fn run(t: Tables, h: &mut [u8], levels: &mut [u8], requests: &[u8], answers: &mut [u8]) -> Ran
    ensures { RunIs t (state h.old levels.old) requests.now answers.old result
        (state h.new levels.new) answers.new }
{
    match checked(t, h, levels) {
        Ok(given) => loaded::run(&given, h, levels, requests, answers),
        Err(refusal) => loaded::no_run(u8::from(refusal)),
    }
}

// Puts the requests of the bytes one after another, and raises the count of each request read (document 02, Point 7). The counts are 2,080
// numbers; other than so many are refused with 18.
pub fn tally_counts(
    t: Tables,
    h: &mut [u8],
    levels: &mut [u8],
    requests: &[u8],
    counts: &mut [u64],
) -> Ran
    ensures { TallyIs t (state h.old levels.old) requests.now counts.old result
        (state h.new levels.new) counts.new }
{
    match checked(t, h, levels) {
        Ok(given) => tallying::tally(&given, h, levels, requests, counts),
        Err(refused) => loaded::no_run(u8::from(refused)),
    }
}

// The same over one tally record, which has 2,080 counts.
pub fn tally(t: Tables, h: &mut [u8], levels: &mut [u8], requests: &[u8], tally: &mut Tally) -> Ran
    ensures { TallyIs t (state h.old levels.old) requests.now tally.old.counts result
        (state h.new levels.new) tally.new.counts }
{
    tally_counts(t, h, levels, requests, &mut tally.counts)
}

// A person's stored level, the number of rights used and the number of firms opened.
pub fn standing(t: Tables, h: &[u8], levels: &[u8], person: u8) -> Standing
    ensures { result ≡ standingOf t (state h.now levels.now) person }
{
    match checked(t, h, levels) {
        Ok(given) => loaded::standing(&given, h, levels, person),
        Err(refusal) => loaded::no_standing(u8::from(refusal)),
    }
}

// An order of the jobs in which all are granted (document 02, Point 6). The list is lent as bytes, four for each job.
pub fn plan_bytes(t: Tables, h: &[u8], levels: &[u8], jobs: &[u8]) -> Plan
    ensures { IsPlan t (state h.now levels.now) (jobs_of jobs.now) result }
{
    match checked(t, h, levels) {
        Ok(given) => planning::plan(&given, h, levels, jobs),
        Err(refusal) => planning::no_plan(u8::from(refusal)),
    }
}

// A plan of packed jobs: of a list of at most 64 by its own bytes, of a longer one by all 260, which hold 65 jobs.
fn plan_packed(t: Tables, h: &[u8], levels: &[u8], p: Packed) -> Plan
    ensures { IsPlan t (state h.now levels.now) (jobs_in p) result }
{
    let bytes = p.bytes;
    let len = p.len;
    if len < 65 {
        return plan_bytes(t, h, levels, &bytes[..4 * len]);
    }
    plan_bytes(t, h, levels, &bytes)
}

// An order of the jobs in which all are granted (document 02, Point 6). The list is lent as records.
pub fn plan(t: Tables, h: &[u8], levels: &[u8], jobs: &[Job]) -> Plan
    ensures { IsPlan t (state h.now levels.now) jobs.now result }
{
    plan_packed(t, h, levels, jobs::pack(jobs))
}
