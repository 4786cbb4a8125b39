// The checks of a request that fail, each as a bit of its own, and the first of them, with no jump on what was found: which check fails
// cannot be foreseen. A rule that is not in force fails nothing.
ghost use Rattle.std.specs.Prelude.{◌≡◌, Bool, cond, not, ◌&&◌, ◌||◌, ℕ, ◌+◌, ◌%◌, ◌<◌, eqb, get_or};
ghost use Rattle.std.specs.Int.Bits.{bit_and};
ghost use Rattle.bits.specs.Bits.{bit};
ghost use Rattle.level.specs.Sets.{level_set};
ghost use Rattle.policy.specs.Tables.{wall_rule, low_water_rule, roles_rule, pipeline_rule};
ghost use Rattle.branchfree.specs.Failing.{Failing, first_failing, others_of, number_at, grant_at, rivals, rank_lacks, compartment_lacks};

use bits::Word;
use level::sets;
use policy::{Rule, in_force};

// 1 for an access to a folder that is not public, and 0 otherwise.
pub fn counts(public: bool, access: u64) -> u64
    ensures { (b : Bool) → access ≡ cond b 1 0 → result ≡ cond (not public && b) 1 0 }
{
    u64::from(!public) & access
}

// The wall, for a request that it asks about if `counts` is 1.
pub fn wall_check(mask: u8, counted: u64, class: u64, firm: usize, counts: u64) -> u64
    ensures { (b : Bool) → counts ≡ cond b 1 0 → result ≡ cond (bit mask wall_rule && (rivals counted class firm && b)) 2 0 }
{
    if in_force(mask, Rule::Wall) {
        let some = u64::from(counted & class != 0);
        let other = u64::from(!counted.bit(firm));
        return (some & other & counts) << 1;
    }
    0
}

// The two checks of low-water, over the set of the level that is needed and the set of the person's own, for a request that it asks about
// if `asked` has both of their bits.
pub fn level_check(mask: u8, needed: u64, own: u64, asked: u64) -> u64
    ensures { (a b : ℕ) (m n c : Bool) → a < 65536 → b < 65536 → needed ≡ level_set a m → own ≡ level_set b n → asked ≡ cond c 12 0
        → result
        ≡ cond (bit mask low_water_rule && (rank_lacks a b && c)) 4 0 + cond (bit mask low_water_rule && (compartment_lacks a b && c)) 8 0 }
{
    if in_force(mask, Rule::LowWater) {
        let rank = u64::from(sets::rank_too_low(needed, own));
        let compartment = u64::from(sets::compartment_missing(needed, own));
        return ((rank << 2) | (compartment << 3)) & asked;
    }
    0
}

// The parties: 1 if a number is out of range or a party is not declared, which marks its set.
pub fn unknown_check(outside: u64, needed: u64, own: u64) -> u64
    ensures { (a b : ℕ) (m n c : Bool) → a < 65536 → b < 65536 → needed ≡ level_set a m → own ≡ level_set b n → outside ≡ cond c 1 0
        → result ≡ cond (c || (m || n)) 1 0 }
{
    outside | u64::from(sets::marked(needed, own))
}

// The roles, over the set of those that hold all rights used and the set of those that hold the new one.
pub fn roles_check(mask: u8, holding: u64, holders: u64) -> u64
    ensures { result ≡ cond (bit mask roles_rule && eqb (bit_and holding holders) 0) 16 0 }
{
    if in_force(mask, Rule::Roles) {
        return u64::from(holding & holders == 0) << 4;
    }
    0
}

// The pipeline, over the set of the steps that may be done next, for a step if `step` is 1.
pub fn pipeline_check(mask: u8, next: u64, p: usize, step: u64) -> u64
    ensures { (b : Bool) → step ≡ cond b 1 0 → result ≡ cond (bit mask pipeline_rule && (not (bit next (p % 64)) && b)) 32 0 }
{
    if in_force(mask, Rule::Pipeline) {
        return (u64::from(!next.bit(p)) & step) << 5;
    }
    0
}

// The first check that fails; `others` has the bits of the wall, the roles and the pipeline.
pub fn first_check(unknown: u64, level: u64, others: u64) -> usize
    ensures { (result < 7)
        × ((x : Failing) → unknown ≡ cond x.unknown 1 0 → level ≡ cond x.rank 4 0 + cond x.compartment 8 0
        → others ≡ others_of x.wall x.roles x.pipeline → result ≡ first_failing x) }
{
    bits::lowest64(unknown | level | others | 64)
}

// The number of each check, and the grant: all bits where none fails.
static NUMBERS: [u8; 8] = [13, 14, 15, 21, 16, 17, 0, 0];

static GRANTS: [u64; 8] = [0, 0, 0, 0, 0, 0, 18446744073709551615, 0];

// The number of the first check that fails: no `Refusal`, since a match on it would be a jump on what was found, and a run writes numbers.
pub fn number(first: usize) -> u8
    requires { first < 8 }
    ensures { result ≡ get_or number_at first 0 }
{
    NUMBERS[first]
}

// All bits where none fails, and no bit otherwise.
pub fn grant(first: usize) -> u64
    requires { first < 8 }
    ensures { result ≡ get_or grant_at first 0 }
{
    GRANTS[first]
}
