// Judging one request alone (document 01, "Requests and calls"), on tables that a load gives, a history of 18,944 bytes and 128 bytes of
// levels: the checks 12 to 17, and 21 in the place of 15. Of the past only that is gathered which a rule in force asks about: for the wall
// the folders of the request's class, for roles the rights that the person used, until no role holds them, for the pipeline the steps on
// the folder; and nothing once a rule has refused.
#![tactic(auto)]

ghost use Rattle.std.specs.Prelude.{◌≡◌, true, cond, ◌%◌};
ghost use Rattle.bits.specs.Bits.{with_bit};
ghost use Rattle.policy.specs.Tables.{person_declared, folder_declared};
ghost use Rattle.policy.specs.Request.{set_of};
ghost use Rattle.policy.specs.Levels.{level_at};
ghost use Rattle.policy.specs.Rules.{wall_access};
ghost use Rattle.policy.specs.Refusals.{number_of};
ghost use Rattle.past.specs.Turns.{rights_with};
ghost use Rattle.request.specs.Parsed.{as_request};
ghost use Rattle.rules.specs.Sets.{HasRoles, roles_in};
ghost use Rattle.questions.specs.Judging.{RolesPermit, number_for};

use history::History;
use levels::Levels;
use past::{rights, wall};
use policy::{Answer, GivenTables, Refusal, Rule, in_force};
use questions::{asking, known, question};
use recorded::applied;
use request::Parsed;

// Whether the wall, if it is asked, permits person s an access to folder o. Otherwise nothing is gathered for it.
fn wall_permits(t: &GivenTables, asked: bool, h: &History, s: usize, o: usize) -> bool
    requires { (person_declared t.now.tables s ≡ true) × (asked ≡ true → folder_declared t.now.tables o ≡ true) }
    ensures { result ≡ cond asked (wall_access t.now.tables (set_of h.now) s o) true }
{
    if !asked {
        return true;
    }
    wall::wall_permits(t, h, s, o)
}

// Whether some role holds a new right and the rights used by reads and writes, by a set of steps and by starts.
fn role_holds(roles: &[u64; 32], accesses: u64, steps: u16, starts: bool, right: usize) -> bool
    ensures { result ≡ roles_in roles.now (with_bit (rights_with accesses steps starts) (right % 64)) }
{
    let used = past::rights_with(accesses, steps, starts);
    rights::some_role_holds(roles, used, right)
}

// Whether roles permit person s a new right. The rights of reads and writes are gathered only until no role holds them, and the steps that
// the person applied are looked for only if the answer is not the same with none of them and with all 16.
fn roles_permit(t: &GivenTables, roles: &[u64; 32], h: &History, s: usize, right: usize) -> bool
    requires { (person_declared t.now.tables s ≡ true) × HasRoles t.now.tables roles.now }
    ensures { RolesPermit t.now.tables (set_of h.now) s right result }
{
    let accesses = rights::rights_of_accesses(t, roles, h, s, right);
    let starts = past::has_started_declared(&t.tables, h, s);
    if !role_holds(roles, accesses, 0, starts, right) {
        return false;
    }
    if role_holds(roles, accesses, applied::ALL_STEPS, starts, right) {
        return true;
    }
    let steps = applied::steps_applied(&t.tables, h, s);
    role_holds(roles, accesses, steps, starts, right)
}

// Judges a request that was parsed. The entries at its own numbers are looked up in the tables here.
pub fn judge(t: &GivenTables, h: &History, l: &Levels, parsed: Parsed) -> Answer
    ensures { number_of result ≡ number_for t.now.tables (set_of h.now) (level_at l.now) (as_request parsed) }
{
    let s = usize::from(parsed.person);
    let o = usize::from(parsed.target);
    let asked = asking::ask(
        s,
        o,
        t.tables.persons[s % 64],
        t.tables.persons[o % 64],
        t.tables.folders[o % 128],
    );
    let posed = question::pose(asked, parsed, l)?;
    let walled = posed.access & in_force(t.tables.mask, Rule::Wall);
    let permits = wall_permits(t, walled, h, s, o);
    let stored = levels::entry(l, s);
    known::first_answer(t.tables.mask, permits, posed.raises, posed.level, stored)?;
    if in_force(t.tables.mask, Rule::Roles) {
        let roles = rules::role_rights(&t.tables);
        if !roles_permit(t, &roles, h, s, posed.right) {
            return Err(Refusal::Roles);
        }
    }
    if !(posed.steps & in_force(t.tables.mask, Rule::Pipeline)) {
        return Ok(());
    }
    let done = pipeline::steps_done(h, past::persons(&t.tables), o);
    known::step_answer(
        t.tables.mask,
        &t.tables.steps,
        done,
        usize::from(parsed.step),
    )
}
