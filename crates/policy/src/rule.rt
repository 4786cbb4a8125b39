// The four rules, each with its bit in the mask of the rules in force (document 01, "Four rules").
ghost use Rattle.std.specs.Prelude.{◌≡◌};
ghost use Rattle.bits.specs.Bits.{bit};
ghost use Rattle.policy.specs.InForce.{rule_bit};

use bits::Word;

#[derive(Clone, Copy, Debug, PartialEq, Eq)]
pub enum Rule {
    Wall,
    LowWater,
    Roles,
    Pipeline,
}

// Whether a rule is in force by a mask.
pub fn in_force(mask: u8, rule: Rule) -> bool
    ensures { result ≡ bit mask (rule_bit rule) }
{
    mask.bit(rule as usize)
}
