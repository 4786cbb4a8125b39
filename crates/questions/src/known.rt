// Judging by what is known: what the rules answer, each to a request whose parties are declared, by sets that say what its person did and
// what was done on its folder. Judge and put of one request share these functions; a run that keeps has its own (crate branchfree).
ghost use Rattle.std.specs.Prelude.{◌≡◌, true, cond};
ghost use Rattle.bits.specs.Bits.{bit};
ghost use Rattle.bits.specs.Bounded.{◌implies◌};
ghost use Rattle.level.specs.Levels.{compare_of};
ghost use Rattle.policy.specs.Tables.{wall_rule, low_water_rule, pipeline_rule};
ghost use Rattle.policy.specs.Calls.{outcome_number};
ghost use Rattle.policy.specs.Refusals.{number_of};
ghost use Rattle.pipeline.specs.Steps.{pipeline_in};
ghost use Rattle.questions.specs.Judging.{outcome_if, access_right, number_of as rules_number};

use level::{Comparison, Level};
use policy::{Answer, Refusal, Rule, in_force};

// What low-water answers for a level that is to be at most the stored level of a person, by the outcome of comparing the two.
#[tactic(auto, unfolding(policy::specs::Calls::outcome_number))]
fn compare_answer(level: Level, stored: Level) -> Answer
    ensures { number_of result ≡ outcome_number (compare_of 12 level.0 stored.0) }
{
    match level.compare(stored) {
        Comparison::AtMost => Ok(()),
        Comparison::RankTooLow => Err(Refusal::RankTooLow),
        Comparison::CompartmentMissing => Err(Refusal::CompartmentMissing),
    }
}

// What low-water answers, if it is in force and asks about the request, for a level that is to be at most the stored one.
#[tactic(auto, unfolding(crate::specs::Judging::outcome_if, policy::specs::Calls::outcome_number))]
fn level_answer(mask: u8, asks: bool, level: Level, stored: Level) -> Answer
    ensures { number_of result ≡ cond (bit mask low_water_rule) (outcome_number (outcome_if asks level.0 stored.0)) 0 }
{
    if asks & in_force(mask, Rule::LowWater) {
        return compare_answer(level, stored);
    }
    Ok(())
}

// Whether the wall, if it is in force, passes a request that it permits or not.
fn wall_passes(mask: u8, wall: bool) -> bool
    ensures { result ≡ (bit mask wall_rule implies wall) }
{
    wall | !in_force(mask, Rule::Wall)
}

// What the wall, which permits the request or not, and low-water answer.
#[tactic(auto, using(crate::proofs::JudgingLaws::first_number))]
pub fn first_answer(mask: u8, wall: bool, asks: bool, level: Level, stored: Level) -> Answer
    ensures { number_of result ≡ rules_number mask wall (outcome_if asks level.0 stored.0) true true }
{
    if !wall_passes(mask, wall) {
        return Err(Refusal::Wall);
    }
    level_answer(mask, asks, level, stored)
}

// The right that a read of a folder of a kind uses, or a write.
#[tactic(auto, unfolding(crate::specs::Judging::access_right))]
pub fn access_right(write: bool, kind: u8) -> usize
    ensures { result ≡ access_right write kind }
{
    let right = usize::from(kind);
    if write { 16 + right } else { right }
}

// What the pipeline answers for step p, on a folder on which these steps are done.
pub fn step_answer(mask: u8, steps: &[u16; 16], done: u16, p: usize) -> Answer
    ensures { number_of result ≡ cond (bit mask pipeline_rule implies pipeline_in steps.now done p) 0 17 }
{
    if in_force(mask, Rule::Pipeline) && !pipeline::permits(steps, done, p) {
        return Err(Refusal::Pipeline);
    }
    Ok(())
}
