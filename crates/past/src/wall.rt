// The wall for one request alone, over the folders of the class of the request's folder: no more of what the person did is gathered.
ghost use Rattle.std.specs.Prelude.{◌≡◌, true, ◌<◌};
ghost use Rattle.policy.specs.Tables.{person_declared, folder_declared};
ghost use Rattle.policy.specs.Request.{set_of};
ghost use Rattle.policy.specs.Rules.{wall_access};
ghost use Rattle.recorded.specs.Recorded.{touched_at};
ghost use Rattle.past.specs.Wall.{bears};

use bits::Word;
use history::History;
use policy::{Firm, Folder, GivenTables};
use recorded::steps;

// Whether person s read folder o, wrote in it or stepped on it.
fn is_touched(h: &History, s: usize, o: usize) -> bool
    requires { (s < 64) × (o < 128) }
    ensures { result ≡ touched_at h.now s o }
{
    history::bit_at(h, 128 * s + o)
        || history::bit_at(h, 8192 + 128 * s + o)
        || steps::steppers(h, o).bit(s)
}

// Whether folder o, whose entry is `folder` and whose firm's entry is `firm`, bears on an access in a class by person s: it is declared and
// not public, its firm is of the class, and the person read it, wrote in it or stepped on it.
fn bears_on(folder: Folder, firm: Firm, class: u8, h: &History, s: usize, o: usize) -> bool
    requires { (s < 64) × (o < 128) }
    ensures { result ≡ bears folder firm class h.now s o }
{
    folder.declared && !folder.public && firm.class == class && is_touched(h, s, o)
}

// Whether the wall lets person s access folder o. A public folder passes at once. Of the folders that bear on the access, one of the
// folder's own firm settles it; otherwise each is a rival's, and the access passes exactly if there is none.
pub fn wall_permits(t: &GivenTables, h: &History, s: usize, o: usize) -> bool
    requires { (person_declared t.now.tables s ≡ true) × (folder_declared t.now.tables o ≡ true) }
    ensures { result ≡ wall_access t.now.tables (set_of h.now) s o }
{
    let asked = t.tables.folders[o];
    if asked.public {
        return true;
    }
    let own = t.tables.firms[usize::from(asked.firm)];
    let class = own.class;
    let mut rival = false;
    for i in 0..128 {
        let folder = t.tables.folders[i];
        let firm = t.tables.firms[usize::from(folder.firm)];
        if bears_on(folder, firm, class, h, s, i) {
            if folder.firm == asked.firm {
                return true;
            }
            rival = true;
        }
    }
    !rival
}
