// The roles that hold all the rights that each person used. A person lacks a role exactly where the person used a right beyond it, so the
// persons of a role are those outside the users of the rights beyond it; turned round, the roles of each person.
ghost use Rattle.std.specs.Prelude.{◌≡◌, not, ℕ, ◌<◌, eqb, get_or};
ghost use Rattle.bits.specs.Bits.{bit, mask_below};
ghost use Rattle.gathering.specs.Users.{RoleRows, HolderRows, Holds, Rows, among_sets};

use policy::Tables;

// A row for each of the 32 roles, and 32 empty rows.
fn rows_by<F: Fn(usize) -> u64>(row: F) -> [u64; 64]
    requires { (k : ℕ) → k < 32 → F.pre row k }
    ensures { Rows 32 (F.post row) result }
{
    let mut rows: [u64; 64] = [0; 64];
    for k in 0..32 {
        rows[k] = row(k);
    }
    rows
}

// The rights of the roles.
pub fn role_rows(t: &Tables) -> [u64; 64]
    ensures { RoleRows t.now 32 result }
{
    rows_by(|k| t.roles[k].rights)
}

// All members that are not in a set of 64.
fn outside(set: u64) -> u64
    ensures { (k : ℕ) → k < 64 → bit result k ≡ not (bit set k) }
{
    !set
}

// The numbers of the sets that are not empty.
fn some_in(sets: &[u64; 81]) -> u64
    ensures { result ≡ mask_below 64 (λ x. not (eqb (get_or sets.now x 0) 0)) }
{
    bits::set_by(|x| sets[x] != 0)
}

// The persons of the sets that have these numbers.
fn among(sets: &[u64; 81], numbers: u64) -> u64
    ensures { (s : ℕ) → bit result s ≡ among_sets sets.now numbers s }
{
    let mut joined: u64 = 0;
    for x in bits::members(numbers) {
        joined |= sets[x];
    }
    joined
}

// The persons who used no right beyond these, where `used` are the rights that anybody used.
fn holders_of(users: &[u64; 81], used: u64, rights: u64) -> u64
    requires { used ≡ mask_below 64 (λ x. not (eqb (get_or users.now x 0) 0)) }
    ensures { Holds users.now rights result }
{
    let lacking = used & outside(rights);
    outside(among(users, lacking))
}

// The persons who used no right beyond each role's.
pub fn holder_rows(roles: &[u64; 64], users: &[u64; 81]) -> [u64; 64]
    ensures { HolderRows users.now roles.now 32 result }
{
    let used = some_in(users);
    rows_by(|k| holders_of(users, used, roles[k]))
}
