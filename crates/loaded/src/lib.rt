// The calls of the access monitor on tables that a load gives (document 01, "Requests and calls", and document 02): the check for 11 is not
// asked again of tables that were just loaded. Crate `monitor` asks it of any tables.
#![tactic(auto)]

ghost use Rattle.std.specs.Prelude.{◌≡◌};
ghost use Rattle.policy.specs.Refusals.{number_of};
ghost use Rattle.policy.specs.Calls.{state, blank_number, blank_state, judge_number, put_state, standing as standingOf};
ghost use Rattle.loaded.specs.Refused.{no_standing, no_run, ran_of, standing_of, RunIs};

use history::History;
use level::Level;
use levels::Levels;
use policy::{Answer, GRANTED, GivenTables, Ran, Refusal, Standing};
use putting::{Counts, alone};

// Makes a history blank, and stores each person's first level.
pub fn blank(t: &GivenTables, h: &mut [u8], levels: &mut [u8]) -> Answer
    ensures { (number_of result ≡ blank_number t.now.tables (state h.old levels.old))
        × (state h.new levels.new ≡ blank_state t.now.tables (state h.old levels.old)) }
{
    let h: &mut History = h.as_mut_array().ok_or(Refusal::WrongLength)?;
    let levels: &mut Levels = levels.as_mut_array().ok_or(Refusal::WrongLevelsLength)?;
    history::blank(h);
    levels::set_first(&t.tables, levels);
    Ok(())
}

// Judges the request at the front of the bytes, and records nothing.
pub fn judge(t: &GivenTables, h: &[u8], levels: &[u8], request: &[u8]) -> Answer
    ensures { number_of result ≡ judge_number t.now.tables (state h.now levels.now) request.now }
{
    let h = h.as_array().ok_or(Refusal::WrongLength)?;
    let levels = levels.as_array().ok_or(Refusal::WrongLevelsLength)?;
    judging::judge(t, h, levels, request::parse(request))
}

// Judges the request at the front of the bytes; a granted one is recorded, and a granted read or step lowers its person's level.
pub fn put(t: &GivenTables, h: &mut [u8], levels: &mut [u8], request: &[u8]) -> Answer
    ensures { (number_of result ≡ judge_number t.now.tables (state h.old levels.old) request.now)
        × (state h.new levels.new ≡ put_state t.now.tables (state h.old levels.old) request.now) }
{
    let h = h.as_mut_array().ok_or(Refusal::WrongLength)?;
    let levels = levels.as_mut_array().ok_or(Refusal::WrongLevelsLength)?;
    alone::put(t, h, levels, request)
}

// A refused run.
#[tactic(auto, unfolding(crate::specs::Refused::no_run))]
pub fn no_run(number: u8) -> Ran
    ensures { result ≡ no_run number }
{
    Ran {
        number,
        granted: 0,
        refused: 0,
    }
}

// Puts the requests of the bytes one after another, and writes one answer byte for each. What the requests ask about is gathered once, or,
// for few of them, for each alone.
fn try_run(
    t: &GivenTables,
    h: &mut [u8],
    levels: &mut [u8],
    requests: &[u8],
    answers: &mut [u8],
) -> Result<Counts, Refusal>
    ensures { RunIs t.now.tables (state h.old levels.old) requests.now answers.old (ran_of result)
        (state h.new levels.new) answers.new }
{
    let h = h.as_mut_array().ok_or(Refusal::WrongLength)?;
    let levels = levels.as_mut_array().ok_or(Refusal::WrongLevelsLength)?;
    let extent = putting::extent_of(requests);
    if answers.len() < extent.due {
        return Err(Refusal::TooFewAnswers);
    }
    Ok(running::run(t, h, levels, requests, answers, extent))
}

// The same, with the number of what refuses, or 0.
pub fn run(
    t: &GivenTables,
    h: &mut [u8],
    levels: &mut [u8],
    requests: &[u8],
    answers: &mut [u8],
) -> Ran
    ensures { RunIs t.now.tables (state h.old levels.old) requests.now answers.old result
        (state h.new levels.new) answers.new }
{
    match try_run(t, h, levels, requests, answers) {
        Ok(counts) => Ran {
            number: GRANTED,
            granted: counts.granted,
            refused: counts.refused,
        },
        Err(refusal) => no_run(u8::from(refusal)),
    }
}

// A refused standing.
#[tactic(auto, unfolding(crate::specs::Refused::no_standing))]
pub fn no_standing(number: u8) -> Standing
    ensures { result ≡ no_standing number }
{
    Standing {
        number,
        level: Level::LOWEST,
        rights: 0,
        firms: 0,
    }
}

// A person's stored level, the number of rights used and the number of firms opened.
fn try_standing(t: &GivenTables, h: &[u8], levels: &[u8], person: u8) -> Result<Standing, Refusal>
    ensures { standing_of result ≡ standingOf t.now.tables (state h.now levels.now) person }
{
    let h: &History = h.as_array().ok_or(Refusal::WrongLength)?;
    let levels: &Levels = levels.as_array().ok_or(Refusal::WrongLevelsLength)?;
    let s = usize::from(person);
    if !((s < 64) & t.tables.persons[s % 64].declared) {
        return Err(Refusal::Undeclared);
    }
    let did = past::past_alone(t, h, s);
    Ok(Standing {
        number: GRANTED,
        level: levels::entry(levels, s),
        rights: bits::count64(did.rights),
        firms: bits::count64(did.firms),
    })
}

// The same, or the number of what refuses.
pub fn standing(t: &GivenTables, h: &[u8], levels: &[u8], person: u8) -> Standing
    ensures { result ≡ standingOf t.now.tables (state h.now levels.now) person }
{
    try_standing(t, h, levels, person).unwrap_or_else(|refusal| no_standing(u8::from(refusal)))
}
