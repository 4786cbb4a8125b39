// What a granted request adds to what is lent and kept, with no jump on whether it is granted: `all` has every bit where it is, and none
// otherwise.
ghost use Rattle.std.specs.Prelude.{◌≡◌, Bool, cond, ◌&&◌, ◌%◌, ◌<◌, get_or, set};
ghost use Rattle.std.specs.Int.Bits.{bit_and};
ghost use Rattle.bits.specs.Bits.{bit, with_bit, mask_below};
ghost use Rattle.policy.specs.Tables.{wall_rule, roles_rule, pipeline_rule};
ghost use Rattle.policy.specs.History.{with_bit_at};
ghost use Rattle.pipeline.specs.Steps.{pipeline_in};

use bits::Word;
use history::History;
use policy::{Rule, in_force};

// The part of a set that is in another, or the set itself.
pub fn narrowed(set: u64, other: u64, all: u64) -> u64
    ensures { (b : Bool) → all ≡ cond b 18446744073709551615 0 → result ≡ cond b (bit_and set other) set }
{
    set & (other | (18446744073709551615 - all))
}

// Sets the bit of index i.
pub fn set_bit(h: &mut History, i: usize, all: u64)
    requires { i < 151552 }
    ensures { (b : Bool) → all ≡ cond b 18446744073709551615 0 → h.new ≡ cond b (with_bit_at h.old i) h.old }
{
    let at = i >> 3;
    // A cast, here and in `keep_step`: there is no From to a narrower number, and a TryFrom would have an Err that never comes.
    let one = (all & 1) as u8;
    h[at] |= one << (i & 7);
}

// Person s accessed a folder of a firm that the wall counts if `counts` is 1.
pub fn keep_firm(mask: u8, firms: &mut [u64; 64], s: usize, firm: usize, counts: u64, all: u64)
    requires { s < 64 }
    ensures { (b c : Bool) → all ≡ cond b 18446744073709551615 0 → counts ≡ cond c 1 0
        → firms.new
        ≡ cond (bit mask wall_rule)
        (set firms.old s
        (cond (b && c) (with_bit (get_or firms.old s 0) (firm % 64)) (get_or firms.old s 0)))
        firms.old }
{
    if in_force(mask, Rule::Wall) {
        firms[s] |= (all & counts) << (firm & 63);
    }
}

// Person s used a right that these roles hold.
pub fn keep_roles(mask: u8, holding: &mut [u64; 64], s: usize, holders: u64, all: u64)
    requires { s < 64 }
    ensures { (b : Bool) → all ≡ cond b 18446744073709551615 0
        → holding.new
        ≡ cond (bit mask roles_rule)
        (set holding.old s
        (cond b (bit_and (get_or holding.old s 0) holders) (get_or holding.old s 0)))
        holding.old }
{
    if in_force(mask, Rule::Roles) {
        holding[s] = narrowed(holding[s], holders, all);
    }
}

// Step p was done on folder o, if `made` is 1. The two arrays are lent apart: a
// struct of the two alone would be made for this call and no other.
pub fn keep_step(
    mask: u8,
    steps: &[u16; 16],
    done: &mut [u64; 128],
    next: &mut [u64; 128],
    o: usize,
    p: usize,
    made: u64,
)
    requires { o < 128 }
    ensures { (b : Bool) → made ≡ cond b 1 0
        → (done.new
        ≡ cond b
        (cond (bit mask pipeline_rule) (set done.old o (with_bit (get_or done.old o 0) (p % 64))) done.old)
        done.old)
        × (next.new
        ≡ cond b
        (cond (bit mask pipeline_rule)
        (set next.old o
        (mask_below 16 (pipeline_in steps.now (with_bit (get_or done.old o 0) (p % 64) % 65536))))
        next.old)
        next.old) }
{
    if in_force(mask, Rule::Pipeline) {
        if made != 0 {
            let more = done[o].with_bit(p);
            done[o] = more;
            next[o] = pipeline::next_steps(steps, (more % 65536) as u16);
        }
    }
}
