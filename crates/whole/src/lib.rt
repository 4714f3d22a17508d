// A float to a whole number: down, up, and to the nearest one. A result of zero keeps the sign.
// The methods of `f32` say the same, by branches: they are slower than these.
#![tactic(auto, using(crate::proofs::Ways::ways, crate::proofs::ShortWays::short_ways))]

ghost use Rattle.std.specs.Prelude.{◌≡◌, ◌^◌, ◌≤◌, ◌<◌, not, cond, T};
ghost use Rattle.std.specs.Float.Ieee as Ieee;
ghost use Rattle.std.specs.Float.{binary32};
ghost use Rattle.std.specs.Float.Ieee.{is_nan};
ghost use Rattle.ieee.specs.Literal.{zero32, one32};
ghost use Rattle.ieee.specs.Sign as Sign;
ghost use Rattle.ieee.specs.Whole as Whole;
ghost use Rattle.ieee.specs.Whole.{whole_down, whole_up};
ghost use Rattle.whole.specs.Even.{round_even};
ghost use Rattle.whole.specs.Small.{Small, UnitOf};

// The largest float that is no whole number, 2^23 - 1/2. Beyond it floor, ceil and round answer x.
const LAST_HALF: f32 = 8388607.5;

// n with a sign, as a float. The cast is exact.
pub fn from_whole(negative: bool, n: u64) -> f32
    requires { n ≤ 2 ^ 24 }
    ensures { result ≡ Ieee.round binary32 negative n 1 }
{
    if negative { -(n as f32) } else { n as f32 }
}

// q / 2^s to a whole number: the largest that is no more.
pub fn down_at(q: u64, s: u64) -> u64
    requires { q < 2 ^ 24 }
    ensures { (result ≡ whole_down q (2 ^ s)) × (result ≤ 2 ^ 24) }
{
    if s < 64 { q >> s } else { 0 }
}

// The least whole number that is no less.
pub fn up_at(q: u64, s: u64) -> u64
    requires { q < 2 ^ 24 }
    ensures { (result ≡ whole_up q (2 ^ s)) × (result ≤ 2 ^ 24) }
{
    if s >= 64 {
        return q.min(1);
    }
    let n = q >> s;
    if n << s < q { n + 1 } else { n }
}

// A step to the next whole number, or none: a sum with it has no branch to guess.
fn step_if(needed: bool) -> f32
    ensures { result ≡ cond needed one32 zero32 }
{
    if needed { 1.0 } else { 0.0 }
}

// The whole number nearest to a size below 2^23, half to even. From 2^23 to 2^24 the last digit of a
// float is worth 1, so the sum rounds there, and the difference is exact. `Small` is asked of a size in two functions and of a
// float's size in two: types that carry it would be two, made in five places.
fn even_size(a: f32) -> f32
    requires { Small a }
    ensures { result ≡ round_even binary32 a }
{
    (a + 8388608.0) - 8388608.0
}

// The whole number nearest to it, half up: a half that went down to the even number goes up. If r is
// 2^23, the sum with 0.5 is 2^23 again, which a does not reach.
fn near_size(a: f32) -> f32
    requires { Small a }
    ensures { result ≡ Whole.round_away binary32 a }
{
    let r = even_size(a);
    r + step_if(r + 0.5 == a)
}

// x without its sign. With `float::abs`, which asks whether x is below 0 and whether it is 0, `round` is slower. That x is no NaN is asked here and in
// `unit_of`, and follows in both from `Small`: a type for it would be made only to be handed to these two.
fn size_of(x: f32) -> f32
    requires { T (not (is_nan x)) }
    ensures { result ≡ Sign.abs x }
{
    f32::from_bits(x.to_bits() % 0x8000_0000)
}

// 1 with the sign of x. A product with it has no branch to guess, and keeps the sign of a zero: with `f32::signum` the
// functions below are slower.
fn unit_of(x: f32) -> f32
    requires { T (not (is_nan x)) }
    ensures { UnitOf x result }
{
    let b = x.to_bits();
    f32::from_bits(b - b % 0x8000_0000 + 0x3f80_0000)
}

// Rust's f32::round below 2^23 in size.
fn round_short(x: f32) -> f32
    requires { Small (Sign.abs x) }
    ensures { result ≡ Whole.round_away binary32 x }
{
    near_size(size_of(x)) * unit_of(x)
}

// Rust's f32::floor below 2^23 in size: the nearest whole number, or the one before it.
fn floor_short(x: f32) -> f32
    requires { Small (Sign.abs x) }
    ensures { result ≡ Whole.floor binary32 x }
{
    let r = even_size(size_of(x)) * unit_of(x);
    r - step_if(r > x)
}

// Rust's f32::floor. It, `ceil` and `round` write the same test: the contract of a helper that takes the short way as a closure is
// longer.
pub fn floor(x: f32) -> f32
    ensures { result ≡ Whole.floor binary32 x }
{
    if float::is_within(x, LAST_HALF) {
        floor_short(x)
    } else {
        x
    }
}

// Rust's f32::ceil.
pub fn ceil(x: f32) -> f32
    ensures { result ≡ Whole.ceil binary32 x }
{
    if float::is_within(x, LAST_HALF) {
        -floor_short(-x)
    } else {
        x
    }
}

// Rust's f32::round: half away from zero.
pub fn round(x: f32) -> f32
    ensures { result ≡ Whole.round_away binary32 x }
{
    if float::is_within(x, LAST_HALF) {
        round_short(x)
    } else {
        x
    }
}
