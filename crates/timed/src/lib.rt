// The part of the reads in a current level, for the timed test that document 02's Point 3 asks for (bindings/benches/reads): no load, no
// steps and no copy of the tables, which are lent packed. It is no part of the library that others link.
#![tactic(auto)]

ghost use Rattle.std.specs.Prelude.{◌≡◌};
ghost use Rattle.timed.specs.Timed.{level_by_reads};

use level::Level;
use packed::Words;

// How many numbers persons have.
const PERSONS: usize = 64;

// The level after the folders that a person read, if `before` is the level before them. It stays `before` with a history of another length
// and with a number above 63, which is no person's.
#[unsafe(no_mangle)]
pub extern "C" fn timed_level_by_reads(
    tables: &Words,
    history: &[u8],
    person: usize,
    before: u16,
) -> u16
    ensures { result ≡ level_by_reads tables.now history.now person before }
{
    let Some(history) = history.as_array() else {
        return before;
    };
    if person >= PERSONS {
        return before;
    }
    let level = recorded::levels::level_by_reads(tables, history, person, Level(before));
    level.0
}
