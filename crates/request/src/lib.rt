// Request records (document 01, "Requests and calls"): the request at the front of some bytes, and where the next one stands.
#![tactic(auto)]

ghost use Rattle.std.specs.Prelude.{◌≡◌, cond, ◌≤◌, ◌<◌, eqb, length};
ghost use Rattle.std.proofs.Math.Option.{none};
ghost use Rattle.policy.specs.Request.{start, step, index};
ghost use Rattle.request.specs.Parsed.{access_by, as_request, whole_length, ParsedFrom};

// A request as its record has it: the kind, the person, the folder or the second person, and the step, which is passed over unless the kind
// is 19; and how far on the next record stands. Kind 0 stands for none: the kind is unknown or the record is cut. The kind is a number, and
// neither an enum nor an `Option`: a run finds its row of numbers for the kind by it, with no jump (crate `branchfree`).
#[derive(Clone, Copy)]
pub struct Parsed {
    pub kind: u8,
    pub person: u8,
    pub target: u8,
    pub step: u8,
    pub next: usize,
}

// No request: the bytes left are passed.
fn nothing(left: usize) -> Parsed
    ensures { (as_request result ≡ none) × (result.next ≡ left) }
{
    Parsed {
        kind: 0,
        person: 0,
        target: 0,
        step: 0,
        next: left,
    }
}

// The request in fewer than four bytes: a read, a write or a start of three bytes, or none. The kind is matched by ranges of its byte, here
// and below, as document 01 names them, and not by `policy::Kind`: of variants inside an `Ok`, as in `Ok(Kind::Read | Kind::Write)`, a
// proof is not told which it is.
fn parse_short(bytes: &[u8]) -> Parsed
    requires { length bytes.now < 4 }
    ensures { ParsedFrom bytes.now result }
{
    let left = bytes.len();
    if left < 3 {
        return nothing(left);
    }
    match bytes[0] {
        kind @ 16..=18 => Parsed {
            kind,
            person: bytes[1],
            target: bytes[2],
            step: 0,
            next: 3,
        },
        0..=15 => nothing(left),
        19..=255 => nothing(left),
    }
}

// By how many bytes a record of this kind is longer than one of three: a step has one more.
fn longer(kind: u8) -> usize
    ensures { (result ≡ cond (eqb kind 19) 1 0) × (result ≤ 1) }
{
    match kind {
        19 => 1,
        0..=18 => 0,
        20..=255 => 0,
    }
}

// The request whose record stands at the front of the bytes. The kind fixes the length of the record and where its fields stand, and no
// jump tells steps from other requests: which kind comes next cannot be foreseen.
pub fn parse(bytes: &[u8]) -> Parsed
    ensures { ParsedFrom bytes.now result }
{
    let left = bytes.len();
    if left < 4 {
        return parse_short(bytes);
    }
    match bytes[0] {
        16..=19 => parse_whole(bytes),
        0..=15 => nothing(left),
        20..=255 => nothing(left),
    }
}

// The request whose whole record stands at the front of the bytes: no test is left.
pub fn parse_whole(bytes: &[u8]) -> Parsed
    requires { 0 < whole_length bytes.now }
    ensures { ParsedFrom bytes.now result × (15 < result.kind) × (result.kind < 20) }
{
    let kind = bytes[0];
    let more = longer(kind);
    Parsed {
        kind,
        person: bytes[1],
        target: bytes[2 + more],
        step: bytes[2],
        next: 3 + more,
    }
}

// The length of the record at the front of the bytes; 0 where it is unknown or cut, so that `putting::extent_of` adds it up at once. (A 0
// and no `None`: the clause says that the definition `whole_length` is the answer, and other crates' theorems stand on it.)
pub fn whole_length(bytes: &[u8]) -> usize
    ensures { result ≡ whole_length bytes.now }
{
    let left = bytes.len();
    if left < 3 {
        return 0;
    }
    match bytes[0] {
        16..=18 => 3,
        19 => if left < 4 { 0 } else { 4 },
        0..=15 => 0,
        20..=255 => 0,
    }
}

// The index of the bit of a read of folder o by person s, or of a write.
pub fn access_index(write: bool, s: usize, o: usize) -> usize
    requires { (s < 256) × (o < 256) }
    ensures { result ≡ index (access_by write s o) }
{
    if write {
        return 8192 + 128 * s + o;
    }
    128 * s + o
}

// The index of the bit of a start of person u by person s.
pub fn start_index(s: usize, u: usize) -> usize
    requires { (s < 256) × (u < 256) }
    ensures { result ≡ index (start s u) }
{
    16384 + 64 * s + u
}

// The index of the bit of step p on folder o by person s.
pub fn step_index(s: usize, p: usize, o: usize) -> usize
    requires { (s < 256) × (p < 256) × (o < 256) }
    ensures { result ≡ index (step s p o) }
{
    20480 + 64 * (16 * o + p) + s
}
