// An angle: degrees as a whole number of sixteenths of a degree, and the cosine and the sine of where it points.
#![tactic(auto)]

ghost use Rattle.std.specs.Prelude.{◌≡◌, ◌^◌, ◌≤◌, true};
ghost use Rattle.ieee.specs.Literal.{number_limit};
ghost use Rattle.ieee.specs.Limit.{within};
ghost use Rattle.angle.specs.Sixteenths.{sixteenths_in, turn_of};
ghost use Rattle.angle.specs.Direction.{sine_of, direction_of};

use sine::Turn;

// The cosine and the sine of an angle.
#[derive(Clone, Copy)]
pub struct Direction {
    pub cosine: f32,
    pub sine: f32,
}

// How many sixteenths of a degree there are in an angle's size: 16 times it, rounded half up. 32 times
// it is exact, and one more than its whole part has the half that is asked for.
// That degrees are within the limit is no type: a repeater holds any number until it is checked, and each part of a step is a new angle.
#[tactic(auto, using(crate::proofs::Halves::halves))]
fn sixteenths(degrees: f32) -> u64
    requires { within number_limit degrees ≡ true }
    ensures { (result ≡ sixteenths_in degrees) × (result ≤ 2 ^ 24) }
{
    let halves = std::num::truncating_f32_to_u64(float::abs(degrees) * 32.0);
    (halves + 1) / 2
}

// Where an angle of at most 1,048,576 degrees points.
#[tactic(auto, using(crate::proofs::Reduced::turned_back, crate::proofs::Reduced::turned_forth))]
pub fn turn(degrees: f32) -> Turn
    requires { within number_limit degrees ≡ true }
    ensures { result.sixteenths ≡ turn_of degrees }
{
    let n = sixteenths(degrees) as usize;
    if degrees < 0.0 {
        Turn::by_sixteenths(5760 - n % 5760)
    } else {
        Turn::by_sixteenths(n)
    }
}

// The sine of a turn: the f32 nearest to its entry of the table over 2^30, with its sign. The quotient is exact.
#[tactic(auto, using(crate::proofs::Directions::sine_plus, crate::proofs::Directions::sine_minus))]
fn sine_at(turn: Turn) -> f32
    ensures { result ≡ sine_of turn.sixteenths }
{
    let size = std::num::nearest_u32_to_f32(turn.size()) / 1073741824.0;
    if turn.is_minus() { -size } else { size }
}

// The cosine and the sine of a turn.
#[tactic(auto, using(crate::proofs::Directions::direction_way))]
pub fn direction_at(turn: Turn) -> Direction
    ensures { result ≡ direction_of turn.sixteenths }
{
    Direction {
        cosine: sine_at(turn.onward()),
        sine: sine_at(turn),
    }
}
