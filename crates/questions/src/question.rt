// What a request asks of the rules; one that no rule is asked about is refused at once, for want of a request or of declared parties.
ghost use Rattle.std.specs.Prelude.{◌≡◌, MatchResult};
ghost use Rattle.policy.specs.Levels.{level_at};
ghost use Rattle.questions.specs.Asking.{InRange};
ghost use Rattle.questions.specs.Posing.{access_asks, start_asks, Refuses, Asks};

use crate::asking::Asked;
use crate::known;
use level::Level;
use levels::Levels;
use policy::{Kind, Refusal};
use request::Parsed;

// What a request asks: whether the wall is asked about an access to its folder; whether low-water is asked, and the level that is to be at
// most the person's; the right that it uses; and whether the pipeline is asked about its step.
#[derive(Clone, Copy)]
pub struct Question {
    pub access: bool,
    pub raises: bool,
    pub level: Level,
    pub right: usize,
    pub steps: bool,
}

// A read of a folder of this level or a write in it, or a step on it, which uses a right.
#[tactic(auto, unfolding(crate::specs::Posing::access_asks))]
fn access(level: Level, raises: bool, right: usize, steps: bool) -> Question
    ensures { result ≡ access_asks level raises right steps }
{
    Question {
        access: true,
        raises,
        level,
        right,
        steps,
    }
}

// A start of a person of this level.
#[tactic(auto, unfolding(crate::specs::Posing::start_asks))]
fn start(level: Level) -> Question
    ensures { result ≡ start_asks level }
{
    Question {
        access: false,
        raises: true,
        level,
        right: 32,
        steps: false,
    }
}

// What a request asks that was parsed, by what the tables say of its parties; or what refuses it at once.
#[tactic(auto, using(crate::proofs::JudgingLaws::none_number))]
pub fn pose(asked: Asked, parsed: Parsed, l: &Levels) -> Result<Question, Refusal>
    requires { InRange asked parsed }
    ensures { MatchResult result (Asks asked parsed (level_at l.now)) (Refuses asked parsed (level_at l.now)) }
{
    let kind = Kind::try_from(parsed.kind)?;
    let folder = asked.folder;
    match kind {
        Kind::Read | Kind::Write => {
            if !asked.known {
                return Err(Refusal::Undeclared);
            }
            let write = kind == Kind::Write;
            let right = known::access_right(write, folder.kind);
            Ok(access(folder.level, write, right, false))
        }
        Kind::Start => {
            if !asked.persons {
                return Err(Refusal::Undeclared);
            }
            Ok(start(levels::entry(l, usize::from(parsed.target))))
        }
        Kind::Step => {
            if !asked.known || parsed.step > 15 {
                return Err(Refusal::Undeclared);
            }
            Ok(access(folder.level, true, 48 + usize::from(parsed.step), true))
        }
    }
}
