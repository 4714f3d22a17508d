// A lent command list judged in document 01's order of checks, and the numbers of one of its commands.
#![tactic(auto)]

ghost use Rattle.std.specs.Prelude.{◌≡◌, ◌≤◌, length};
ghost use Rattle.judge.specs.Lists.{judge_list, without_commands, place_of, judge_command, find_command, command_fault, command_part};

use command::{Outcome, Refusal};

// The first fault of a command list. `length::walk` has this loop with a pen and a stop: one for both would take closures, and its
// contract would have to say what they answer.
// Codes and numbers are two parameters, as C lends them: as one value each contract says `list.entry.codes.now list.entry.numbers.now`, no plainer.
#[tactic(auto, using(crate::proofs::Ways::judging))]
pub fn judge(codes: &[u8], numbers: &[f32]) -> Outcome<()>
    ensures { result ≡ without_commands (judge_list codes.now numbers.now) }
{
    if codes.len() > 262144 {
        return Err(Refusal::TooMany);
    }
    let mut place = 0;
    for code in codes {
        let (_, next) = reader::read_command(*code, numbers, place)?;
        place = next;
    }
    if place < numbers.len() {
        Err(Refusal::OutOfBounds)
    } else {
        Ok(())
    }
}

// The first fault of a command list, or a missing command k.
#[tactic(auto, using(crate::proofs::Ways::asking))]
fn judge_command(codes: &[u8], numbers: &[f32], k: usize) -> Outcome<()>
    ensures { result ≡ without_commands (judge_command codes.now numbers.now k) }
{
    judge(codes, numbers)?;
    if k < codes.len() {
        Ok(())
    } else {
        Err(Refusal::OutOfBounds)
    }
}

// Where the numbers of command k start.
#[tactic(auto, using(crate::proofs::Ways::places))]
fn place_of(codes: &[u8], k: usize) -> usize
    requires { (k ≤ length codes.now) × (length codes.now ≤ 262144) }
    ensures { result ≡ place_of k codes.now }
{
    // Added by hand: `sum` asks that the sum of a mapped list fits, and that did not close at once.
    let before = &codes[..k];
    let mut place = 0;
    for code in before {
        place += reader::size_of_code(*code);
    }
    place
}

// Where the numbers of command k start and how many they are, or why they are not to be had.
#[tactic(auto, using(crate::proofs::Ways::finding))]
pub fn find_command(codes: &[u8], numbers: &[f32], k: usize) -> Outcome<(usize, usize)>
    ensures { result ≡ find_command codes.now numbers.now k }
{
    judge_command(codes, numbers, k)?;
    Ok((place_of(codes, k), reader::size_of_code(codes[k])))
}

// The number that a call for command k hands back beside its part: 0 for an answer. This and the part are public and cannot fail: one
// call that gives the part or the refusal could stand beside them, and not in their place.
#[tactic(auto, using(crate::proofs::Ways::parts))]
pub fn command_fault(codes: &[u8], numbers: &[f32], k: usize) -> u32
    ensures { result ≡ command_fault codes.now numbers.now k }
{
    command::number_of(find_command(codes, numbers, k))
}

// The numbers of command k, as a part of the lent list; an empty part for a refusal.
#[tactic(auto, using(crate::proofs::Ways::parts))]
pub fn command_part<'a>(codes: &[u8], numbers: &'a [f32], k: usize) -> &'a [f32]
    ensures { result.now ≡ command_part codes.now numbers.now k }
{
    match find_command(codes, numbers, k) {
        Err(_) => &[],
        Ok((start, count)) => &numbers[start..start + count],
    }
}
