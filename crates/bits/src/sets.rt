// A number of 64 bits as the set of the numbers below 64 that pass a test.
ghost use Rattle.std.specs.Prelude.{◌≡◌, ℕ, Bool, ◌<◌};
ghost use Rattle.bits.specs.Bits.{mask_below};

// The set of the numbers of which the test holds, asked in order from 0. No jump tells whether it does.
pub fn set_by<F: Fn(usize) -> bool>(test: F) -> u64
    requires { (k : ℕ) → k < 64 → F.pre test k }
    ensures { (P : ℕ → Bool) → ((k : ℕ) (b : Bool) → k < 64 → F.post test k b → b ≡ P k) → result ≡ mask_below 64 P }
{
    let mut set: u64 = 0;
    for k in 0..64 {
        set = crate::with_bit64_if(test(k), set, k);
    }
    set
}
