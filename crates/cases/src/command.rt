// The commands of a file of calls, each by its first byte, and the bytes that it takes.
ghost use Rattle.std.specs.Prelude.{◌<◌, ◌≤◌, length, IfSome};

use crate::reading;

#[derive(Clone, Copy, Debug, PartialEq, Eq)]
pub enum Command {
    Load,
    Blank,
    Judge,
    Put,
    Run,
    Standing,
    // Changes one field of the tables.
    Change,
    // Sets one byte of the history buffer.
    HistoryByte,
    // Sets every byte of the answer buffer.
    Fill,
    // Sets one byte of the level buffer.
    LevelByte,
    Plan,
}

// A byte that no command begins with.
#[derive(Clone, Copy, Debug, PartialEq, Eq)]
pub struct UnknownCommand(pub u8);

impl TryFrom<u8> for Command {
    type Error = UnknownCommand;

    fn try_from(byte: u8) -> Result<Command, UnknownCommand> {
        match byte {
            1 => Ok(Command::Load),
            2 => Ok(Command::Blank),
            3 => Ok(Command::Judge),
            4 => Ok(Command::Put),
            5 => Ok(Command::Run),
            6 => Ok(Command::Standing),
            7 => Ok(Command::Change),
            8 => Ok(Command::HistoryByte),
            9 => Ok(Command::Fill),
            10 => Ok(Command::LevelByte),
            11 => Ok(Command::Plan),
            _ => Err(UnknownCommand(byte)),
        }
    }
}

// The number of bytes that a command takes, by its first bytes.
fn needed(command: Command, s: &[u8]) -> usize
    ensures { 0 < result }
{
    match command {
        Command::Load => 3 + reading::pair(s, 1),
        Command::Judge | Command::Put => 5 + usize::from(reading::byte(s, 4)),
        Command::Run => 8 + reading::pair(s, 6),
        Command::Plan => 6 + reading::pair(s, 4),
        Command::Change => 11,
        Command::Standing => 5,
        Command::Blank | Command::HistoryByte => 4,
        Command::LevelByte => 3,
        Command::Fill => 2,
    }
}

// The command at the front, and how many bytes it takes; none where none begins or the end cuts it short.
pub fn first(s: &[u8]) -> Option<(Command, usize)>
    ensures { IfSome result (λ found. (0 < found.1) × (found.1 ≤ length s.now)) }
{
    let command = Command::try_from(reading::byte(s, 0)).ok()?;
    let n = needed(command, s);
    if n <= s.len() {
        Some((command, n))
    } else {
        None
    }
}
