// The calls of the access monitor for programs in C and Rust: byte slices and numbers only. Tables do not cross this boundary; a call
// that needs them takes the bytes of the rulebook and loads it. A refused book is answered with its number, and then nothing changes.
// `Loaded`, `Ran`, `Standing` and `Plan` stay records with a number: the definitions of policy and the theorems over them hold them.
#![tactic(auto)]

ghost use Rattle.std.specs.Prelude.{◌≡◌, ◌++◌, ◌≤◌, length, drop};
ghost use Rattle.policy.specs.Rulebook.{load_book};
ghost use Rattle.policy.specs.Calls.{state, rest_of};
ghost use Rattle.policy.specs.Plans.{jobs_of};
ghost use Rattle.exports.specs.Packed.{
  packed_load,
  packed_run,
  packed_standing,
  load_packed,
  blank_by,
  blanked_by,
  judge_by,
  put_by,
  RunBy,
  TallyBy,
  standing_packed,
  standing_by,
  PlanBy,
};

use policy::{GRANTED, GivenTables, Refusal, number_of};

// Number in bits 0 to 7, offset modulo 2^56 in bits 8 to 63. A usize is cast, here and below: it has no From to u64.
#[tactic(auto, unfolding(crate::specs::Packed::packed_load))]
fn pack_load(number: u8, offset: usize) -> u64
    ensures { result ≡ packed_load number offset }
{
    u64::from(number) + 256 * (offset as u64 % 72057594037927936)
}

// Number in bits 0 to 7, the counts modulo 2^24 in bits 8 to 31 and 32 to 55.
#[tactic(auto, unfolding(crate::specs::Packed::packed_run))]
fn pack_run(number: u8, granted: usize, refused: usize) -> u64
    ensures { result ≡ packed_run number granted refused }
{
    u64::from(number) + 256 * (granted as u64 % 16777216) + 4294967296 * (refused as u64 % 16777216)
}

// Number in bits 0 to 7, level in bits 8 to 23, the counts modulo 2^8 in bits 24 to 31 and 32 to 39.
#[tactic(auto, unfolding(crate::specs::Packed::packed_standing))]
fn pack_standing(number: u8, level: u16, rights: u32, firms: u32) -> u64
    ensures { result ≡ packed_standing number level rights firms }
{
    u64::from(number)
        + 256 * u64::from(level)
        + 16777216 * (u64::from(rights) % 256)
        + 4294967296 * (u64::from(firms) % 256)
}

// Makes a history all zero, and stores each person's first level: 0, 10, 20, or the number of a refused book.
#[unsafe(no_mangle)]
pub extern "C" fn kweldabe_blank(book: &[u8], history: &mut [u8], levels: &mut [u8]) -> u8
    ensures { (result ≡ blank_by (load_book book.now) (state history.old levels.old))
        × (state history.new levels.new
        ≡ blanked_by (load_book book.now) (state history.old levels.old)) }
{
    let given = monitor::load(book);
    if given.number != GRANTED {
        return given.number;
    }
    let t = GivenTables {
        tables: given.tables,
    };
    number_of(loaded::blank(&t, history, levels))
}

// Loads a book: its number, and the offset of the end record or the refused one.
#[unsafe(no_mangle)]
pub extern "C" fn kweldabe_load(book: &[u8]) -> u64
    ensures { result ≡ load_packed (load_book book.now) }
{
    let given = monitor::load(book);
    pack_load(given.number, given.offset)
}

// How many bytes follow the end record of a book; 0 for a refused one.
#[unsafe(no_mangle)]
pub extern "C" fn kweldabe_rest_length(book: &[u8]) -> usize
    ensures { result ≡ length (rest_of book.now) }
{
    let rest = monitor::rest(book);
    rest.len()
}

// The number of the request at the front of the bytes; nothing is recorded.
#[unsafe(no_mangle)]
pub extern "C" fn kweldabe_judge(book: &[u8], history: &[u8], levels: &[u8], request: &[u8]) -> u8
    ensures { result ≡ judge_by (load_book book.now) (state history.now levels.now) request.now }
{
    let given = monitor::load(book);
    if given.number != GRANTED {
        return given.number;
    }
    let t = GivenTables {
        tables: given.tables,
    };
    number_of(loaded::judge(&t, history, levels, request))
}

// Judges the request at the front of the bytes; a granted one is recorded, and a granted read or step lowers its person's level.
#[unsafe(no_mangle)]
pub extern "C" fn kweldabe_put(
    book: &[u8],
    history: &mut [u8],
    levels: &mut [u8],
    request: &[u8],
) -> u8
    ensures { (result ≡ judge_by (load_book book.now) (state history.old levels.old) request.now)
        × (state history.new levels.new
        ≡ put_by (load_book book.now) (state history.old levels.old) request.now) }
{
    let given = monitor::load(book);
    if given.number != GRANTED {
        return given.number;
    }
    let t = GivenTables {
        tables: given.tables,
    };
    number_of(loaded::put(&t, history, levels, request))
}

// Puts the requests of the bytes one after another, and writes one answer byte for each.
#[unsafe(no_mangle)]
pub extern "C" fn kweldabe_run(
    book: &[u8],
    history: &mut [u8],
    levels: &mut [u8],
    requests: &[u8],
    answers: &mut [u8],
) -> u64
    ensures { RunBy (load_book book.now) (state history.old levels.old) requests.now
        answers.old result (state history.new levels.new) answers.new }
{
    let given = monitor::load(book);
    if given.number != GRANTED {
        return pack_run(given.number, 0, 0);
    }
    let t = GivenTables {
        tables: given.tables,
    };
    let ran = loaded::run(&t, history, levels, requests, answers);
    pack_run(ran.number, ran.granted, ran.refused)
}

// Puts the requests of the bytes one after another, and raises the count of each request read. The counts are 2,080 numbers, that of firm
// f, 64 for no firm, and number n at 32 * f + n; other than 2,080 are refused with 18, after 10 and 20.
#[unsafe(no_mangle)]
pub extern "C" fn kweldabe_tally(
    book: &[u8],
    history: &mut [u8],
    levels: &mut [u8],
    requests: &[u8],
    counts: &mut [u64],
) -> u64
    ensures { TallyBy (load_book book.now) (state history.old levels.old) requests.now
        counts.old result (state history.new levels.new) counts.new }
{
    let given = monitor::load(book);
    if given.number != GRANTED {
        return pack_run(given.number, 0, 0);
    }
    let t = GivenTables {
        tables: given.tables,
    };
    let tallied = tallying::tally(&t, history, levels, requests, counts);
    pack_run(tallied.number, tallied.granted, tallied.refused)
}

// A person's stored level, the number of rights used and the number of firms opened.
#[unsafe(no_mangle)]
pub extern "C" fn kweldabe_standing(book: &[u8], history: &[u8], levels: &[u8], person: u8) -> u64
    ensures { result
        ≡ standing_packed (standing_by (load_book book.now) (state history.now levels.now) person) }
{
    let given = monitor::load(book);
    if given.number != GRANTED {
        return pack_standing(given.number, 0, 0, 0);
    }
    let t = GivenTables {
        tables: given.tables,
    };
    let found = loaded::standing(&t, history, levels, person);
    let level = found.level;
    pack_standing(found.number, level.0, found.rights, found.firms)
}

// Writes the positions of a plan over the first 64 bytes.
fn put_positions(found: &[u8; 64], positions: &mut [u8])
    requires { 64 ≤ length positions.old }
    ensures { positions.new ≡ found.now ++ drop 64 positions.old }
{
    positions[..64].copy_from_slice(found);
}

// An order of the jobs in which all are granted, four bytes for each job: 0 and its positions, or a number with which no byte changes.
#[unsafe(no_mangle)]
pub extern "C" fn kweldabe_plan(
    book: &[u8],
    history: &[u8],
    levels: &[u8],
    jobs: &[u8],
    positions: &mut [u8],
) -> u8
    ensures { PlanBy (load_book book.now) (state history.now levels.now) (jobs_of jobs.now)
        positions.old result positions.new }
{
    let given = monitor::load(book);
    if given.number != GRANTED {
        return given.number;
    }
    let t = GivenTables {
        tables: given.tables,
    };
    if history.len() != history::BYTES {
        return u8::from(Refusal::WrongLength);
    }
    if levels.len() != levels::BYTES {
        return u8::from(Refusal::WrongLevelsLength);
    }
    if positions.len() < 64 {
        return u8::from(Refusal::TooFewAnswers);
    }
    let plan = planning::plan(&t, history, levels, jobs);
    if plan.number != GRANTED {
        return plan.number;
    }
    let found = plan.positions;
    put_positions(&found, positions);
    GRANTED
}
