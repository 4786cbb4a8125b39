// The rules on pairs of jobs: which may come before which, as the set of those that each may not come before. What the rules ask about a
// job is looked up in the tables once.
ghost use Rattle.std.specs.Prelude.{◌≡◌, not, ◌*◌, ◌≤◌, length};
ghost use Rattle.bits.specs.Bits.{mask_below};
ghost use Rattle.level.specs.Levels.{at_most};
ghost use Rattle.precedence.specs.Precedence.{lowers_level, needs_level};
ghost use Rattle.listed.specs.Pairs.{side_of, levels_pass, steps_pass, precedes, side_at, SidesOf, RowsOf};

use crate::job_at;
use bits::Word;
use level::{Comparison, Level};
use policy::{Job, Kind, Rule, Tables};

// What the rules on pairs ask about a job: its person, its folder and that one's level, its step and the steps that this one enables;
// whether low-water is in force and the job lowers its person's level, and whether it needs a level; and whether the pipeline is in force
// and the job is a step.
#[derive(Clone, Copy)]
pub struct Side {
    pub person: u8,
    pub folder: u8,
    pub step: u8,
    pub lowers: bool,
    pub needs: bool,
    pub steps: bool,
    pub level: Level,
    pub enabled: u16,
}

// Whether a job of this action lowers its person's level where low-water is in force: a read or a step.
#[tactic(auto, unfolding(precedence::specs::Precedence::lowers_level))]
fn lowers_level(action: u8) -> bool
    ensures { result ≡ lowers_level action }
{
    matches!(Kind::try_from(action), Ok(Kind::Read | Kind::Step))
}

// Whether low-water asks for the level of the person of a job of this action: a write or a step.
#[tactic(auto, unfolding(precedence::specs::Precedence::needs_level))]
fn needs_level(action: u8) -> bool
    ensures { result ≡ needs_level action }
{
    matches!(Kind::try_from(action), Ok(Kind::Write | Kind::Step))
}

// What the rules on pairs ask about a job.
fn looked_up(t: &Tables, job: Job) -> Side
    ensures { result ≡ side_of t.now job }
{
    Side {
        person: job.person,
        folder: job.target,
        step: job.step,
        lowers: policy::in_force(t.mask, Rule::LowWater) & lowers_level(job.action),
        needs: needs_level(job.action),
        steps: policy::in_force(t.mask, Rule::Pipeline) & (job.action == u8::from(Kind::Step)),
        level: t.folders[usize::from(job.target) % 128].level,
        enabled: t.steps[usize::from(job.step) % 16],
    }
}

// Whether a level is at most another one. No `matches!`: whoever compares levels takes all three outcomes (document 02, Point 5).
fn at_most(level: Level, other: Level) -> bool
    ensures { result ≡ at_most 12 level.0 other.0 }
{
    match level.compare(other) {
        Comparison::AtMost => true,
        Comparison::RankTooLow => false,
        Comparison::CompartmentMissing => false,
    }
}

// Low-water: where x lowers the level of a person of whom y needs one, the level of y is at most that of x.
fn levels_permit(x: Side, y: Side) -> bool
    ensures { result ≡ levels_pass x y }
{
    !(x.lowers & (y.needs & (x.person == y.person))) || at_most(y.level, x.level)
}

// The pipeline: where both are steps on one folder, y does not directly enable x.
fn steps_permit(x: Side, y: Side) -> bool
    ensures { result ≡ steps_pass x y }
{
    !(x.steps & (y.steps & (x.folder == y.folder))) || !y.enabled.bit(usize::from(x.step))
}

// Whether job x may come before job y, by every rule on pairs.
fn may_precede(x: Side, y: Side) -> bool
    ensures { result ≡ precedes x y }
{
    levels_permit(x, y) & steps_permit(x, y)
}

// The sides of the first n jobs.
pub fn sides(t: &Tables, jobs: &[u8], n: usize) -> [Side; 64]
    requires { (n ≤ 64) × (4 * n ≤ length jobs.now) }
    ensures { SidesOf t.now jobs.now n result }
{
    let mut all = [Side {
        person: 0,
        folder: 0,
        step: 0,
        lowers: false,
        needs: false,
        steps: false,
        level: Level::LOWEST,
        enabled: 0,
    }; 64];
    for i in 0..n {
        all[i] = looked_up(t, job_at(jobs, i));
    }
    all
}

// The set of those of the first n jobs that job x may not come before: none where no rule on pairs asks about x.
fn row(sides: &[Side; 64], n: usize, x: Side) -> u64
    requires { n ≤ 64 }
    ensures { result ≡ mask_below n (λ j. not (precedes x (side_at sides.now j))) }
{
    if !(x.lowers | x.steps) {
        return 0;
    }
    let mut kept: u64 = 0;
    for j in 0..n {
        kept = bits::with_bit64_if(!may_precede(x, sides[j]), kept, j);
    }
    kept
}

// For each of the first n jobs the set of those that it may not come before.
pub fn rows(sides: &[Side; 64], n: usize) -> [u64; 64]
    requires { n ≤ 64 }
    ensures { RowsOf sides.now n result }
{
    let mut all: [u64; 64] = [0; 64];
    for i in 0..n {
        all[i] = row(sides, n, sides[i]);
    }
    all
}
