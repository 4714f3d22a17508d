// One command read from a code and the numbers from a place on, judged in document 01's order of checks.
#![tactic(auto)]

ghost use Rattle.std.specs.Prelude.{◌≡◌, ◌≤◌, length};
ghost use Rattle.reader.specs.Read.{size_of_code, command_at, read_from};

use command::{Outcome, PathCommand, Refusal};

// How many numbers the command with a code has. A code is a number here and below: C's list holds bytes, any may come, and it is
// `read_command` that tells which are listed.
#[tactic(auto, unfolding(crate::specs::Read::size_of_code))]
pub fn size_of_code(code: u8) -> usize
    ensures { result ≡ size_of_code code }
{
    match code {
        0 | 1 => 2,
        2 => 6,
        4 => 4,
        _ => 0,
    }
}

// The command that a listed code and the numbers of its part are. By index: that the part is long enough is asked, and a slice pattern
// would need an arm for every other length.
#[tactic(auto, unfolding(crate::specs::Read::size_of_code, crate::specs::Read::command_at))]
fn command_of(code: u8, part: &[f32]) -> PathCommand
    requires { (code ≤ 4) × (size_of_code code ≤ length part.now) }
    ensures { result ≡ command_at code part.now }
{
    match code {
        0 => PathCommand::Move(part[0], part[1]),
        1 => PathCommand::Line(part[0], part[1]),
        2 => PathCommand::Cubic(part[0], part[1], part[2], part[3], part[4], part[5]),
        4 => PathCommand::Quad(part[0], part[1], part[2], part[3]),
        _ => PathCommand::Close,
    }
}

// Reads the command with a code whose numbers start at a place of a list, and gives it with the place after its numbers.
// A place and not the rest of the list, as in `read_from`: the rest would be a slice beside a command.
#[tactic(auto, using(crate::proofs::Ways::reading))]
pub fn read_command(code: u8, numbers: &[f32], place: usize) -> Outcome<(PathCommand, usize)>
    requires { place ≤ length numbers.now }
    ensures { result ≡ read_from code numbers.now place }
{
    if code > 4 {
        return Err(Refusal::Unlisted);
    }
    let n = size_of_code(code);
    if numbers.len() - place < n {
        return Err(Refusal::OutOfBounds);
    }
    let part = &numbers[place..place + n];
    if float::all_within(part, 4194304.0) {
        Ok((command_of(code, part), place + n))
    } else {
        Err(Refusal::OutOfRange)
    }
}
