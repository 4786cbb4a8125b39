// What the wall and the roles (document 01, "Four rules") ask of the tables, as sets: the firms of each class, and the rights of each role.
#![tactic(auto)]

ghost use Rattle.std.specs.Prelude.{◌≡◌};
ghost use Rattle.rules.specs.Sets.{HasClasses, HasRoles, covers as coversAll, roles_in};

use bits::Word;
use policy::{GivenTables, Tables};

// The set of the firms of each class.
pub fn classes(t: &GivenTables) -> [u64; 32]
    ensures { HasClasses t.now.tables result }
{
    let mut sets: [u64; 32] = [0; 32];
    for f in 0..64 {
        let class = usize::from(t.tables.firms[f].class);
        sets[class] = sets[class].with_bit(f);
    }
    sets
}

// The rights of each role.
pub fn role_rights(t: &Tables) -> [u64; 32]
    ensures { HasRoles t.now result }
{
    t.roles.map(|role| role.rights)
}

// Whether a role that has these rights holds all that are wanted.
fn covers(rights: u64, wanted: u64) -> bool
    ensures { result ≡ coversAll rights wanted }
{
    wanted & rights == wanted
}

// Whether some role holds all the rights wanted.
pub fn some_role_covers(roles: &[u64; 32], wanted: u64) -> bool
    ensures { result ≡ roles_in roles.now wanted }
{
    roles.iter().any(|&rights| covers(rights, wanted))
}
