// An f32 taken apart and written by its bit pattern, without its sign, and chosen between others.
#![tactic(auto, using(crate::proofs::Ways::ways))]

ghost use Rattle.std.specs.Prelude.{◌≡◌, ◌^◌, ◌≤◌, ◌<◌};
ghost use Rattle.std.specs.Float.Ieee as Ieee;
ghost use Rattle.std.specs.Float.{binary32};
ghost use Rattle.std.specs.Float.Ieee.{units};
ghost use Rattle.std.specs.Float.Ieee.Scale.{finite};
ghost use Rattle.ieee.specs.Sign as Sign;
ghost use Rattle.ieee.specs.Choice as Choice;
ghost use Rattle.ieee.specs.Limit.{within, all_within};
ghost use Rattle.ieee.specs.Pattern.{with_sign, drops_of, infinity};
ghost use Rattle.float.specs.Parts.{PartsOf};

mod parts;

pub use parts::Parts;

// The pattern of +infinity. A constant's value takes a call by its path alone.
const INFINITY: u64 = f32::to_bits(f32::INFINITY) as u64;

// How many places the digits of a pattern with a clear sign stand above the smallest float's.
pub fn drops_of(p: u64) -> u64
    ensures { result ≡ drops_of p }
{
    (p / 0x80_0000).saturating_sub(1)
}

// The parts of x, or none where x is a NaN or an infinity.
pub fn split(x: f32) -> Option<Parts>
    ensures { PartsOf x result }
{
    if x.is_nan() {
        return None;
    }
    let b = x.to_bits() as u64;
    let p = b % 0x8000_0000;
    if p >= INFINITY {
        return None;
    }
    let drops = drops_of(p);
    Some(Parts {
        negative: b >= 0x8000_0000,
        digits: p - drops * 0x80_0000,
        drops,
    })
}

// Whether x is no NaN and no infinity. std's contract says `float_is_finite`, and the definitions and laws here `finite`: the function
// stands to promise their word. `abs` does so for `Sign.abs`.
pub fn is_finite(x: f32) -> bool
    ensures { result ≡ finite x }
{
    x.is_finite()
}

// The float with the sign `negative` and the rest p of its pattern. The sign stays beside the number here, in `encode` and in
// `whole::from_whole`: `Parts` holds less than they take.
pub fn signed(negative: bool, p: u64) -> f32
    requires { p ≤ infinity }
    ensures { result ≡ Ieee.of_bits binary32 (with_sign negative p) }
{
    if negative {
        f32::from_bits((0x8000_0000 + p) as u32)
    } else {
        f32::from_bits(p as u32)
    }
}

// q * 2^k of the smallest float, or an infinity. A q of 2^24 carries into the next exponent.
pub fn encode(negative: bool, q: u64, k: u64) -> f32
    requires { (q ≤ 2 ^ 24) × (k < 1000) × (0 < k → 2 ^ 23 ≤ q) }
    ensures { result ≡ units binary32 negative q k }
{
    signed(negative, (k * 0x80_0000 + q).min(INFINITY))
}

// x without its sign.
pub fn abs(x: f32) -> f32
    ensures { result ≡ Sign.abs x }
{
    x.abs()
}

// The smaller of two, where a NaN gives way; the second of two that compare equal, of which `f32::min` may answer either.
// x and y are two operands, here and wherever they stand side by side, and no point: a type for both would have nothing to say.
// `max` has the same shape: each is the definition of its name to the letter, as the laws on the two cite them.
#[tactic(auto, unfolding(ieee::specs::Choice::min))]
pub fn min(x: f32, y: f32) -> f32
    ensures { result ≡ Choice.min x y }
{
    if x < y || y.is_nan() { x } else { y }
}

// The larger of two, where a NaN gives way; the second of two that compare equal, of which `f32::max` may answer either.
#[tactic(auto, unfolding(ieee::specs::Choice::max))]
pub fn max(x: f32, y: f32) -> f32
    ensures { result ≡ Choice.max x y }
{
    if y < x || y.is_nan() { x } else { y }
}

#[tactic(auto, unfolding(ieee::specs::Choice::at_least))]
fn at_least(lo: f32, x: f32) -> f32
    ensures { result ≡ Choice.at_least lo x }
{
    if x < lo { lo } else { x }
}

// x, not below lo and then not above hi. `f32::clamp` asks for a lo that is at most hi.
#[tactic(auto, unfolding(ieee::specs::Choice::clamp, ieee::specs::Choice::at_most))]
pub fn clamp(x: f32, lo: f32, hi: f32) -> f32
    ensures { result ≡ Choice.clamp lo hi x }
{
    let y = at_least(lo, x);
    if y > hi { hi } else { y }
}

// Whether x is at most `limit` in absolute value; a NaN is not.
pub fn is_within(x: f32, limit: f32) -> bool
    ensures { result ≡ within limit x }
{
    x <= limit && -limit <= x
}

// Whether each number is at most `limit` in absolute value. It goes to the end: `all`, which stops at the first that is not, is slower
// where each number is.
pub fn all_within(numbers: &[f32], limit: f32) -> bool
    ensures { result ≡ all_within limit numbers.now }
{
    numbers
        .iter()
        .fold(true, |so_far, x| so_far & is_within(*x, limit))
}
