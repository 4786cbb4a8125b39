// Digests: FNV-1a over 32 bits.
use level::Level;
use policy::{Firm, Folder, Person, Role, Tables};

// The digest of no byte.
const START: u64 = 2166136261;

// What a digest is made of: its bytes, one after another.
pub trait Digest {
    // The digest with this more.
    fn digest(&self, sum: u64) -> u64;
}

impl Digest for u8 {
    fn digest(&self, sum: u64) -> u64 {
        ((sum ^ u64::from(*self)) % 4294967296) * 16777619 % 4294967296
    }
}

// A mark: 0 or 1.
impl Digest for bool {
    fn digest(&self, sum: u64) -> u64 {
        u8::from(*self).digest(sum)
    }
}

// The lowest byte first.
impl Digest for u16 {
    fn digest(&self, sum: u64) -> u64 {
        with_all(sum, &self.to_le_bytes())
    }
}

impl Digest for u64 {
    fn digest(&self, sum: u64) -> u64 {
        with_all(sum, &self.to_le_bytes())
    }
}

impl Digest for Level {
    fn digest(&self, sum: u64) -> u64 {
        self.0.digest(sum)
    }
}

impl Digest for Firm {
    fn digest(&self, sum: u64) -> u64 {
        self.class.digest(self.declared.digest(sum))
    }
}

impl Digest for Person {
    fn digest(&self, sum: u64) -> u64 {
        self.level.digest(self.declared.digest(sum))
    }
}

impl Digest for Folder {
    fn digest(&self, sum: u64) -> u64 {
        let firm = self.firm.digest(self.declared.digest(sum));
        let kind = self.kind.digest(firm);
        self.public.digest(self.level.digest(kind))
    }
}

impl Digest for Role {
    fn digest(&self, sum: u64) -> u64 {
        self.rights.digest(self.declared.digest(sum))
    }
}

impl Digest for Tables {
    fn digest(&self, sum: u64) -> u64 {
        let firms = with_all(self.mask.digest(sum), &self.firms);
        let persons = with_all(firms, &self.persons);
        let folders = with_all(persons, &self.folders);
        let roles = with_all(folders, &self.roles);
        with_all(roles, &self.steps)
    }
}

// The digest with all of a slice more.
fn with_all<T: Digest>(sum: u64, all: &[T]) -> u64 {
    let mut sum = sum;
    for x in all {
        sum = x.digest(sum);
    }
    sum
}

// The digest of bytes.
pub fn of_bytes(s: &[u8]) -> u64 {
    with_all(START, s)
}

// The digest of tables.
pub fn of_tables(t: &Tables) -> u64 {
    t.digest(START)
}
