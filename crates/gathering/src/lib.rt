// Gathering what a run keeps, once and for all persons, folders and rights: the firms that the wall counts for each person, the roles that
// hold all the rights that each person used, the roles that hold each right, the steps done on each folder, and those that may be next.
// Only what a rule in force asks about is gathered. Persons are gathered as words: for each folder, then for each firm or right; these are
// turned round into a set for each person (`grouping::turning`).
#![tactic(auto)]

ghost use Rattle.std.specs.Prelude.{◌≡◌, Bool, ◌%◌, ◌<◌, get_or};
ghost use Rattle.bits.specs.Bits.{mask_below};
ghost use Rattle.policy.specs.Request.{Request, set_of};
ghost use Rattle.recorded.specs.Gathering.{FirstAre};
ghost use Rattle.pipeline.specs.Steps.{done_by, pipeline_in};
ghost use Rattle.rules.specs.Kept.{HasFirms, HasHolding, HasHolders, HasDone, HasNext};
ghost use Rattle.grouping.specs.Adding.{touched_in};
ghost use Rattle.gathering.specs.Users.{PersonSets, used_in};

use grouping::groups::{self, Groups};
use grouping::{turning, words};
use history::History;
use policy::{GivenTables, Rule, Tables};
use std::array;

pub mod roles;

// For each group of folders the persons who touched one of them.
fn openers(h: &History, groups: &Groups) -> [u64; 81]
    ensures { PersonSets (touched_in groups.now h.now) result }
{
    let mut sets: [u64; 81] = [0; 81];
    let low = words::touchers(h, 0);
    groups::add_words(groups, 0, 0, &low, &mut sets);
    let high = words::touchers(h, 64);
    groups::add_words(groups, 64, 0, &high, &mut sets);
    sets
}

// For each person the firms that the wall counts.
pub fn firms(t: &GivenTables, h: &History) -> [u64; 64]
    ensures { HasFirms t.now.tables (set_of h.now) result }
{
    if !policy::in_force(t.tables.mask, Rule::Wall) {
        return [0; 64];
    }
    let groups = groups::firm_groups(t);
    let sets = openers(h, &groups);
    turning::turn(&sets)
}

// For each right the persons who used it, where the folders have these kinds, and these are the declared persons: the right of a read is a
// folder's kind, that of a write 16 more, that of a start 32, and those of the steps begin at 48.
fn users(h: &History, kinds: &Groups, persons: u64) -> [u64; 81]
    ensures { PersonSets (used_in kinds.now h.now persons) result }
{
    let mut sets: [u64; 81] = [0; 81];
    words::add_recorded(h, 0, kinds, 0, &mut sets);
    words::add_recorded(h, 1024, kinds, 16, &mut sets);
    words::add_steps(h, kinds, &mut sets);
    sets[32] |= words::starters(h, persons);
    sets
}

// For each person the roles that hold all the rights used.
pub fn holding(t: &GivenTables, h: &History) -> [u64; 64]
    ensures { HasHolding t.now.tables (set_of h.now) result }
{
    if !policy::in_force(t.tables.mask, Rule::Roles) {
        return [0; 64];
    }
    let kinds = groups::kind_groups(t);
    let users = users(h, &kinds, past::persons(&t.tables));
    let roles = roles::role_rows(&t.tables);
    let rows = roles::holder_rows(&roles, &users);
    turning::turn(&rows)
}

// For each right the roles that hold it.
pub fn holders(t: &Tables) -> [u64; 64]
    ensures { HasHolders t.now result }
{
    if !policy::in_force(t.mask, Rule::Roles) {
        return [0; 64];
    }
    let rows = roles::role_rows(t);
    turning::turn(&rows)
}

// The steps that some of these persons did on folder o. Where nobody of them stepped on it, the steps are not looked at one by one.
fn done_on(h: &History, persons: u64, o: usize) -> u64
    requires { o < 128 }
    ensures { result ≡ mask_below 16 (done_by h.now persons o) }
{
    if recorded::steps::steppers(h, o) & persons == 0 {
        return 0;
    }
    u64::from(pipeline::steps_done(h, persons, o))
}

// The steps that some of these persons did on each folder.
fn done_by(h: &History, persons: u64) -> [u64; 128]
    ensures { FirstAre 128 128 (λ o. mask_below 16 (done_by h.now persons o)) result }
{
    array::from_fn(|o| done_on(h, persons, o))
}

// For each folder the steps done on it.
pub fn done(t: &GivenTables, h: &History) -> [u64; 128]
    ensures { HasDone t.now.tables (set_of h.now) result }
{
    if !policy::in_force(t.tables.mask, Rule::Pipeline) {
        return [0; 128];
    }
    done_by(h, past::persons(&t.tables))
}

// The steps that may be done next on a folder on which these are done. On a blank folder, as days begin with, there is no call. The
// remainder fits in 16 bits; `try_from` would have an Err that never comes.
fn next_on(steps: &[u16; 16], done: u64) -> u64
    ensures { result ≡ mask_below 16 (pipeline_in steps.now (done % 65536)) }
{
    let own = (done % 65536) as u16;
    if own == 0 {
        return 1;
    }
    pipeline::next_steps(steps, own)
}

// The steps that may be done next on each folder, over the sets of the steps that each step enables and those of the steps done.
fn next_by(steps: &[u16; 16], done: &[u64; 128]) -> [u64; 128]
    ensures { FirstAre 128 128 (λ o. mask_below 16 (pipeline_in steps.now (get_or done.now o 0 % 65536))) result }
{
    array::from_fn(|o| next_on(steps, done[o]))
}

// For each folder the steps that may be done next, where these are done.
pub fn next(t: &Tables, done: &[u64; 128]) -> [u64; 128]
    ensures { (H : Request → Bool) → HasDone t.now H done.now → HasNext t.now H result }
{
    if !policy::in_force(t.mask, Rule::Pipeline) {
        return [0; 128];
    }
    next_by(&t.steps, done)
}
