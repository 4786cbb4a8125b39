// A put of one request of a run, by what the run keeps of what persons did, of what was done on folders and of levels: the first check that
// fails is found, and what a granted request changes is brought up to date, in a step whose cost does not depend on the history. No jump
// tells kinds or answers apart: which comes next cannot be foreseen, and a wrong guess costs more than all the rest.
#![tactic(auto)]

ghost use Rattle.std.specs.Prelude.{◌≡◌, ◌<◌};
ghost use Rattle.branchfree.specs.Failing.{Enough};
ghost use Rattle.keeping.specs.Keeping.{asked_of, Puts};

use branchfree::first::Asked;
use branchfree::kinds::Placed;
use branchfree::{checks, first, kinds, updates};
use history::History;
use policy::Folder;
use request::Parsed;

// What a run keeps: the firms that the wall counts and the roles that hold all rights used, of each person; the steps done and those that
// may be next, of each folder; the levels of all persons and folders, as sets.
#[derive(Drop)]
pub struct Kept {
    pub firms: [u64; 64],
    pub holding: [u64; 64],
    pub done: [u64; 128],
    pub next: [u64; 128],
    pub sets: [u64; 192],
}

// What stays as it is during a run: the rules in force, the steps that each step enables, for each right the roles that hold it, and the
// firms of each class.
#[derive(Drop)]
pub struct Fixed {
    pub mask: u8,
    pub steps: [u16; 16],
    pub holders: [u64; 64],
    pub classes: [u64; 32],
}

// The sets that a request is judged by, which was placed; `class` are the firms of its folder's class, and `folder` is the folder's kind.
// Of the wall, the roles and the pipeline only what is asked about is read.
fn asked<const WALL: bool, const ROLES: bool, const PIPELINE: bool>(
    fixed: &Fixed,
    class: u64,
    folder: u8,
    kept: &Kept,
    kind: u8,
    at: Placed,
) -> Asked
    requires { (15 < kind) × (kind < 20) × (at.person < 64) × (at.place < 128) × (at.step < 16) × (at.set < 192) }
    ensures { result ≡ asked_of WALL ROLES PIPELINE fixed.now.holders class folder kept.now kind at }
{
    let s = at.person;
    let counted = if WALL { kept.firms[s] } else { 0 };
    Asked {
        needed: kept.sets[at.set],
        own: kept.sets[s],
        class,
        counted,
        holding: if ROLES { kept.holding[s] } else { 0 },
        holders: if ROLES {
            fixed.holders[kinds::right(kind, folder, at.step)]
        } else {
            0
        },
        next: if PIPELINE { kept.next[at.place] } else { 0 },
    }
}

// Puts a request of one of the four kinds, on what is lent and kept; `class` are the firms of its folder's class. Of the wall, the roles
// and the pipeline only what is asked about is read and written.
fn put_by<const WALL: bool, const ROLES: bool, const PIPELINE: bool>(
    fixed: &Fixed,
    class: u64,
    folder: Folder,
    kept: &mut Kept,
    h: &mut History,
    r: Parsed,
) -> u8
    requires { (15 < r.kind) × (r.kind < 20) × Enough WALL ROLES PIPELINE fixed.now.mask }
    ensures { Puts fixed.now.mask fixed.now.holders fixed.now.steps folder class h.old kept.old r result h.new kept.new }
{
    let mask = fixed.mask;
    let at = kinds::place(r);
    let s = at.person;
    let counts = checks::counts(folder.public, kinds::row(r.kind, kinds::ACCESS));
    let firm = usize::from(folder.firm);
    let asked = asked::<WALL, ROLES, PIPELINE>(fixed, class, folder.kind, kept, r.kind, at);
    let first = first::judge::<WALL, ROLES, PIPELINE>(mask, r.kind, at, counts, firm, asked);
    let all = checks::grant(first);
    updates::set_bit(h, at.index, all);
    let lowers = all & kinds::row(r.kind, kinds::LOWERS);
    kept.sets[s] = updates::narrowed(asked.own, asked.needed, lowers);
    if WALL {
        updates::keep_firm(mask, &mut kept.firms, s, firm, counts, all);
    }
    if ROLES {
        updates::keep_roles(mask, &mut kept.holding, s, asked.holders, all);
    }
    if PIPELINE {
        let made = all & kinds::row(r.kind, kinds::STEP);
        let (done, next) = (&mut kept.done, &mut kept.next);
        updates::keep_step(mask, &fixed.steps, done, next, at.place, at.step, made);
    }
    checks::number(first)
}

// The rules that ask what persons did or what was done on folders; and those of them that ask for rights or steps, for firms or rights, and
// for firms or steps.
const ASKING: u8 = 13;

const BEYOND_WALL: u8 = 12;

const BEYOND_STEPS: u8 = 5;

const BEYOND_ROLES: u8 = 9;

// Puts a request of one of the four kinds, and asks only for what the rules in force ask about. The form is chosen by tests and no closure:
// what a form does not ask for is not in its code.
pub fn put(
    fixed: &Fixed,
    class: u64,
    folder: Folder,
    kept: &mut Kept,
    h: &mut History,
    r: Parsed,
) -> u8
    requires { (15 < r.kind) × (r.kind < 20) }
    ensures { Puts fixed.now.mask fixed.now.holders fixed.now.steps folder class h.old kept.old r result h.new kept.new }
{
    if fixed.mask & ASKING == 0 {
        return put_by::<false, false, false>(fixed, class, folder, kept, h, r);
    }
    if fixed.mask & BEYOND_WALL == 0 {
        return put_by::<true, false, false>(fixed, class, folder, kept, h, r);
    }
    if fixed.mask & BEYOND_STEPS == 0 {
        return put_by::<false, false, true>(fixed, class, folder, kept, h, r);
    }
    if fixed.mask & BEYOND_ROLES == 0 {
        return put_by::<false, true, false>(fixed, class, folder, kept, h, r);
    }
    put_by::<true, true, true>(fixed, class, folder, kept, h, r)
}
