// Tables that a load gives, as a type: what the calls behind the check for 11 are lent.
ghost use Rattle.std.specs.Prelude.{◌≡◌, true};
ghost use Rattle.policy.specs.Rulebook.{given};

use crate::Tables;

// Tables that a load gives (document 01, "Requests and calls": other ones are answered 11).
#[derive(Clone, Copy)]
pub struct GivenTables {
    pub tables: Tables,
    ghost given: { given tables ≡ true },
}
