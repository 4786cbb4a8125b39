// What a request is judged by, and the first check that fails, with no jump on what was found.
ghost use Rattle.std.specs.Prelude.{◌≡◌, Bool, cond, not, ◌&&◌, eqb, ℕ, ◌%◌, ◌<◌};
ghost use Rattle.std.specs.Int.Bits.{bit_and};
ghost use Rattle.bits.specs.Bits.{bit};
ghost use Rattle.policy.specs.Tables.{wall_rule, roles_rule, pipeline_rule};
ghost use Rattle.level.specs.Sets.{level_set};
ghost use Rattle.policy.specs.Request.{Request, has_place};
ghost use Rattle.branchfree.specs.Kinds.{RowOf, is_step};
ghost use Rattle.branchfree.specs.Failing.{Enough, first_failing, others_of, rivals, failing_of};

use crate::kinds::Placed;
use crate::{checks, kinds};

// The sets that a request is judged by: the level that is needed and the person's own, the firms of the folder's class and those that the
// wall counts, the roles that hold all rights used and those that hold the new one, and the steps that may be next.
#[derive(Clone, Copy)]
pub struct Asked {
    pub needed: u64,
    pub own: u64,
    pub class: u64,
    pub counted: u64,
    pub holding: u64,
    pub holders: u64,
    pub next: u64,
}

// The wall, the roles and the pipeline, for a request of a kind, which the wall asks about if `counts` is 1. What is not asked about is not
// looked at.
fn others_check<const WALL: bool, const ROLES: bool, const PIPELINE: bool>(
    mask: u8,
    kind: u8,
    at: Placed,
    counts: u64,
    firm: usize,
    asked: Asked,
) -> u64
    requires { Enough WALL ROLES PIPELINE mask }
    ensures { (q : Request) (c : Bool) → RowOf q kind → counts ≡ cond c 1 0
        → result
        ≡ others_of (bit mask wall_rule && (rivals asked.counted asked.class firm && c))
        (bit mask roles_rule && eqb (bit_and asked.holding asked.holders) 0)
        (bit mask pipeline_rule && (not (bit asked.next (at.step % 64)) && is_step q)) }
{
    let wall = if WALL {
        checks::wall_check(mask, asked.counted, asked.class, firm, counts)
    } else {
        0
    };
    let roles = if ROLES {
        checks::roles_check(mask, asked.holding, asked.holders)
    } else {
        0
    };
    let pipeline = if PIPELINE {
        checks::pipeline_check(mask, asked.next, at.step, kinds::row(kind, kinds::STEP))
    } else {
        0
    };
    wall | roles | pipeline
}

// The first check that fails for a request of a kind, which the wall asks about if `counts` is 1.
pub fn judge<const WALL: bool, const ROLES: bool, const PIPELINE: bool>(
    mask: u8,
    kind: u8,
    at: Placed,
    counts: u64,
    firm: usize,
    asked: Asked,
) -> usize
    requires { Enough WALL ROLES PIPELINE mask }
    ensures { (result < 7)
        × ((q : Request) (a b : ℕ) (m n c : Bool) → RowOf q kind → at.outside ≡ cond (has_place q) 0 1 → counts ≡ cond c 1 0 → a < 65536
        → b < 65536 → asked.needed ≡ level_set a m → asked.own ≡ level_set b n
        → result
        ≡ first_failing
        (failing_of q mask a b m n c asked.counted asked.class firm asked.holding asked.holders asked.next at.step)) }
{
    let unknown = checks::unknown_check(at.outside, asked.needed, asked.own);
    let asks = kinds::row(kind, kinds::CHECKS);
    let level = checks::level_check(mask, asked.needed, asked.own, asks);
    let others = others_check::<WALL, ROLES, PIPELINE>(mask, kind, at, counts, firm, asked);
    checks::first_check(unknown, level, others)
}
