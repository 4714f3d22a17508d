// Whether a lent command list is at least so long, told after as few of its commands as tell it.
#![tactic(auto)]

ghost use Rattle.std.specs.Prelude.{◌≡◌};
ghost use Rattle.reach.specs.Reach.{is_length, length_reaches};

use command::{Outcome, Refusal};

// A number that a length may be asked to reach: finite, and not negative.
#[tactic(auto, unfolding(crate::specs::Reach::is_length))]
fn is_length(least: f32) -> bool
    ensures { result ≡ is_length least }
{
    float::is_finite(least) && 0.0 <= least
}

// Whether the length of a list is at least `least`, and how many commands were read for it, which is told either way, so it is no
// `Option`. What follows the command that tells it is not read.
// Codes and numbers are two parameters for the reason at `judge::judge`.
#[tactic(auto, using(crate::proofs::Ways::reaching))]
pub fn length_reaches(codes: &[u8], numbers: &[f32], least: f32) -> Outcome<(bool, usize)>
    ensures { result ≡ length_reaches codes.now numbers.now least }
{
    if codes.len() > 262144 {
        return Err(Refusal::TooMany);
    }
    if !is_length(least) {
        return Err(Refusal::OutOfRange);
    }
    let (reached, count, _) = length::walk(codes, numbers, Some(least))?;
    Ok((reached, count))
}
