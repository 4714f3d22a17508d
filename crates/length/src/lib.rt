// The length of a lent command list, and how far the list goes up to a length.
#![tactic(auto)]

ghost use Rattle.std.specs.Prelude.{◌≡◌};
ghost use Rattle.measure.specs.Length.{start_pen};
ghost use Rattle.length.specs.Lists.{measure_list};
ghost use Rattle.length.specs.Walk.{is_there, walk_from};

use command::{Outcome, Refusal};
use measure::Pen;

// Whether a walk to the first command by which a list is so long, or to its end, stops at a pen.
#[tactic(auto, unfolding(crate::specs::Walk::is_there))]
fn is_there(least: Option<f32>, pen: Pen) -> bool
    ensures { result ≡ is_there least pen.length }
{
    match least {
        None => false,
        Some(least) => least <= pen.length,
    }
}

// Reads a list from its start: each command is judged, then drawn by the pen. What lies past the first command by which the
// list is so long is not read. Tells whether there is one, how many commands were read, and how long they are. The
// flag is no `Option` around the two, which are told either way.
// Codes and numbers are two parameters for the reason at `judge::judge`.
#[tactic(auto, using(crate::proofs::Ways::walking))]
pub fn walk(codes: &[u8], numbers: &[f32], least: Option<f32>) -> Outcome<(bool, usize, f32)>
    ensures { result ≡ walk_from least start_pen 0 codes.now numbers.now }
{
    let mut pen = Pen::start();
    let mut place = 0;
    for (i, code) in codes.iter().enumerate() {
        if is_there(least, pen) {
            return Ok((true, i, pen.length));
        }
        let (command, next) = reader::read_command(*code, numbers, place)?;
        pen = pen.step(command);
        place = next;
    }
    if is_there(least, pen) {
        return Ok((true, codes.len(), pen.length));
    }
    if place < numbers.len() {
        return Err(Refusal::OutOfBounds);
    }
    Ok((false, codes.len(), pen.length))
}

// The length of a list, or why it is refused.
#[tactic(auto, using(crate::proofs::Ways::lengths))]
pub fn path_length(codes: &[u8], numbers: &[f32]) -> Outcome<f32>
    ensures { result ≡ measure_list codes.now numbers.now }
{
    if codes.len() > 262144 {
        return Err(Refusal::TooMany);
    }
    let (_, _, length) = walk(codes, numbers, None)?;
    Ok(length)
}
