// Why a book or a call is refused, and the published numbers: document 01's table of causes, and document 02's numbers from 19 on.
ghost use Rattle.std.specs.Prelude.{◌≡◌};
ghost use Rattle.policy.specs.Refusals.{refusal_number, number_of};

// What refuses. Each cause stands with its published number.
#[derive(Clone, Copy, Debug, PartialEq, Eq)]
pub enum Refusal {
    // No byte left, or body cut short.
    BookCut = 1,
    // Kind above 7.
    UnknownKind = 2,
    // Kind 1 not first, or again.
    MisplacedRules = 3,
    // Value outside its range.
    OutOfRange = 4,
    // Number or pair already declared.
    DeclaredBefore = 5,
    // Firm not declared earlier.
    FirmNotDeclared = 6,
    // q is 0.
    EntersCreate = 7,
    // Pairs form a circle.
    Circle = 8,
    // A step enables but is not enabled.
    LooseStep = 9,
    // History not 18,944 bytes.
    WrongLength = 10,
    // Tables that no load gives.
    NotGiven = 11,
    // Request kind unknown or record cut.
    RequestCut = 12,
    // Person or folder undeclared, step above 15.
    Undeclared = 13,
    // The wall refuses.
    Wall = 14,
    // Low-water refuses: the rank is too low, also if a compartment is missing besides.
    RankTooLow = 15,
    // Roles refuse.
    Roles = 16,
    // The pipeline refuses.
    Pipeline = 17,
    // Fewer answer bytes than answers due.
    TooFewAnswers = 18,
    // Folder marked public, but not declared earlier.
    FolderNotDeclared = 19,
    // Levels not 128 bytes.
    WrongLevelsLength = 20,
    // Low-water refuses, in the place of 15: the rank suffices, and a compartment is missing.
    CompartmentMissing = 21,
    // A list of more than 64 jobs, or with a start, or with a record that 12 or 13 would refuse.
    NotPlannable = 22,
    // No order of the jobs found that is granted throughout.
    NoOrder = 23,
}

// The number of an answer in which nothing refuses: granted, and loaded.
pub const GRANTED: u8 = 0;

// What a check answers: nothing, or what refuses.
pub type Answer = Result<(), Refusal>;

// The published number of what refuses.
impl From<Refusal> for u8 {
    ghost from_gives = { λ refusal n. n ≡ refusal_number refusal };

    fn from(refusal: Refusal) -> u8 {
        refusal as u8
    }
}

// The published number of an answer: 0 where nothing refuses.
pub fn number_of(answer: Answer) -> u8
    ensures { result ≡ number_of answer }
{
    match answer {
        Ok(()) => GRANTED,
        Err(refusal) => u8::from(refusal),
    }
}
