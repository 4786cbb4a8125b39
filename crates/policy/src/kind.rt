// The four kinds of a request (document 01, "Requests and calls"), each with the byte that its record begins with.
ghost use Rattle.std.specs.Prelude.{◌≡◌};
ghost use Rattle.policy.specs.declared.answer.Refusal.TheVariants.{RequestCut};
ghost use Rattle.policy.specs.Kinds.{kind_number, Names};

use crate::answer::Refusal;

#[derive(Clone, Copy, Debug, PartialEq, Eq)]
pub enum Kind {
    Read = 16,
    Write = 17,
    Start = 18,
    Step = 19,
}

// A byte that no request begins with.
#[derive(Clone, Copy, Debug, PartialEq, Eq)]
pub struct UnknownKind(pub u8);

// What refuses a request of no kind.
impl From<UnknownKind> for Refusal {
    ghost from_gives = { λ _ refusal. refusal ≡ RequestCut };

    fn from(_: UnknownKind) -> Refusal {
        Refusal::RequestCut
    }
}

// The byte that a request of this kind begins with.
impl From<Kind> for u8 {
    ghost from_gives = { λ kind byte. byte ≡ kind_number kind };

    fn from(kind: Kind) -> u8 {
        kind as u8
    }
}

// The kind of a request that begins with this byte. The match has ranges, as document 01 names them; judging and recording one request go
// through it.
impl TryFrom<u8> for Kind {
    type Error = UnknownKind;

    ghost try_from_gives = { Names };

    fn try_from(byte: u8) -> Result<Kind, UnknownKind> {
        match byte {
            16 => Ok(Kind::Read),
            17 => Ok(Kind::Write),
            18 => Ok(Kind::Start),
            19 => Ok(Kind::Step),
            0..=15 => Err(UnknownKind(byte)),
            20..=255 => Err(UnknownKind(byte)),
        }
    }
}
