// The remainder of an angle by a whole turn, 360 degrees, worked out in whole numbers. `%` on floats, and so `f32::rem_euclid`, calls the
// C library's `fmodf`, and the archive needs no library.
#![tactic(auto, using(crate::proofs::Ways::ways))]

ghost use Rattle.std.specs.Prelude.{◌≡◌, ◌-◌, ◌*◌, ◌%◌, ◌^◌, ◌≤◌, ◌<◌};
ghost use Rattle.std.specs.Float.Ieee as Ieee;
ghost use Rattle.std.specs.Float.{binary32};
ghost use Rattle.ieee.specs.Literal.{turn32};
ghost use Rattle.ieee.specs.Remainder.{rem_euclid};

use float::Parts;

// The whole number that p is, modulo 360. From 8 on the powers of two have period 12 there.
fn whole_rem(p: Parts) -> u64
    requires { 149 ≤ p.drops }
    ensures { (result ≡ p.digits * 2 ^ (p.drops - 149) % 360) × (result < 360) }
{
    let j = p.drops - 149;
    if j < 15 {
        return (p.digits << j) % 360;
    }
    let i = (j - 3) % 12 + 3;
    (p.digits << i) % 360
}

// The digits of p modulo 360, where its last one is worth 1 / 2^s.
fn part_rem(p: Parts, s: u64) -> u64
    requires { s < 16 }
    ensures { (result ≡ p.digits % (360 * 2 ^ s)) × (result < 2 ^ 24) }
{
    p.digits % (360 << s)
}

// 2^s.
fn power(s: u64) -> u64
    requires { s < 16 }
    ensures { (result ≡ 2 ^ s) × (result < 2 ^ 16) }
{
    1 << s
}

// x % 360.0 by the parts of x.
fn rem_parts(x: f32) -> f32
    ensures { result ≡ Ieee.rem binary32 x turn32 }
{
    let Some(p) = float::split(x) else {
        return x - x;
    };
    if p.drops >= 149 {
        whole::from_whole(p.negative, whole_rem(p))
    } else if p.drops < 134 {
        x
    } else {
        let places = 149 - p.drops;
        whole::from_whole(p.negative, part_rem(p, places)) / whole::from_whole(false, power(places))
    }
}

// x % 360.0, with the sign of x: exact. Within a turn it is x.
fn rem_360(x: f32) -> f32
    ensures { result ≡ Ieee.rem binary32 x turn32 }
{
    if x < 360.0 && x > -360.0 {
        x
    } else {
        rem_parts(x)
    }
}

// Rust's x.rem_euclid(360.0): not negative, and 360 itself where a tiny negative remainder is
// rounded up to it.
pub fn rem_euclid_360(x: f32) -> f32
    ensures { result ≡ rem_euclid binary32 x turn32 }
{
    let r = rem_360(x);
    if r < 0.0 { r + 360.0 } else { r }
}
