// A number of 8, 16 or 64 bits as a set of small numbers: whether one is a member, and the set with one more.
ghost use Rattle.std.specs.Prelude.{◌≡◌, ℕ, ◌%◌};
ghost use Rattle.bits.specs.Bits.{bit, with_bit};

// The number of a bit is taken modulo the width of the number.
pub trait Word: Copy {
    ghost width: { ℕ };

    ghost value: { Self → ℕ };

    // Whether bit k is set.
    fn bit(self, k: usize) -> bool
        ensures { result ≡ bit (value self) (k % width) };

    // The number with bit k set.
    fn with_bit(self, k: usize) -> Self
        ensures { value result ≡ with_bit (value self) (k % width) };
}

impl Word for u8 {
    ghost width = { 8 };

    ghost value = { λ n. n };

    fn bit(self, k: usize) -> bool {
        (self >> (k & 7)) & 1 == 1
    }

    fn with_bit(self, k: usize) -> u8 {
        self | (1 << (k & 7))
    }
}

impl Word for u16 {
    ghost width = { 16 };

    ghost value = { λ n. n };

    fn bit(self, k: usize) -> bool {
        (self >> (k & 15)) & 1 == 1
    }

    fn with_bit(self, k: usize) -> u16 {
        self | (1 << (k & 15))
    }
}

impl Word for u64 {
    ghost width = { 64 };

    ghost value = { λ n. n };

    fn bit(self, k: usize) -> bool {
        (self >> (k & 63)) & 1 == 1
    }

    fn with_bit(self, k: usize) -> u64 {
        self | (1 << (k & 63))
    }
}
