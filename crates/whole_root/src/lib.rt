// The length of a vector by whole numbers, rounded once: the f32 nearest to the square root of x² + y², a tie to the even one.
// Finite numbers are counted in units of 2^-149, the smallest f32, as `digits` * 2^`drops` of them.
#![tactic(auto, using(crate::proofs::Ways::ways))]

ghost use Rattle.std.specs.Prelude.{◌≡◌, false, ◌+◌, ◌-◌, ◌*◌, ◌^◌, ◌<◌, ◌≤◌};
ghost use Rattle.std.specs.Float.{binary32};
ghost use Rattle.std.specs.Float.Ieee.{units};
ghost use Rattle.ieee.specs.Root.{isqrt, hypot_of};
ghost use Rattle.whole_root.specs.Steps.{halved, root_of_parts};

use float::Parts;

// A step of Newton's method towards 1 / √(2 h), of which nothing is promised. The step of `root` is no twin: it has the factor of its
// last step in it.
fn newton(h: f64, y: f64) -> f64 {
    y * (1.5 - h * y * y)
}

// A guess at the whole part of t's square root, of which only its size is promised: three steps from
// t's bit pattern, and 2^52 is added so that the whole part stands in the last bits.
fn guess(t: u64) -> u64
    requires { t < 2 ^ 52 }
    ensures { result < 2 ^ 26 }
{
    let x = t as f64;
    if t == 0 || x.is_nan() {
        return 0;
    }
    let y = f64::from_bits(0x5fe6eb50c7b537a9 - x.to_bits() % 0x8000_0000_0000_0000 / 2);
    let h = x * 0.5;
    let s = x * newton(h, newton(h, newton(h, y))) - 0.498 + 4503599627370496.0;
    if s.is_nan() {
        0
    } else {
        s.to_bits() % 67108864
    }
}

// The whole part of t's square root: the guess, moved until it is right. Nothing tells how often, so there is no range that a `for`
// could go over.
fn root(t: u64) -> u64
    requires { t < 2 ^ 52 }
    ensures { result ≡ isqrt t }
{
    let mut s = guess(t);
    while t < s * s {
        s -= 1;
    }
    while (s + 1) * (s + 1) <= t {
        s += 1;
    }
    s
}

// Half of a number to the nearest whole number, where s is the number's whole part and `rest` is 0 if
// that is all of it. `rest` is a number as in the definition `halved`: what is left in two places is added up, and the sum handed on.
fn half(s: u64, rest: u64) -> u64
    requires { s < 2 ^ 25 }
    ensures { result ≡ halved s rest }
{
    if rest == 0 {
        (s + s / 2 % 2) / 2
    } else {
        (s + 1) / 2
    }
}

// √t / 2 to the nearest whole number of 2^k units, where `rest` is 0 if t is all of its number.
fn rounded(t: u64, rest: u64, k: u64) -> f32
    requires { (t < 2 ^ 50) × (rest < 2 ^ 52) × (k < 256) × (0 < k → 2 ^ 48 ≤ t) }
    ensures { result ≡ units binary32 false (halved (isqrt t) (rest + (t - isqrt t * isqrt t))) k }
{
    let s = root(t);
    float::encode(false, half(s, rest + (t - s * s)), k)
}

// 4 to the power g.
fn power_of_4(g: u64) -> u64
    requires { g < 13 }
    ensures { result ≡ 4 ^ g }
{
    1u64 << (2 * g)
}

// The root of the sum of the squares of two numbers that are not far apart: 4 times the sum, in units of 4^p.drops, has the
// whole part t.
fn near(p: Parts, q: Parts) -> f32
    requires { (q.drops ≤ p.drops) × (p.drops < q.drops + 13) }
    ensures { result ≡ root_of_parts p q }
{
    let n = power_of_4(p.drops - q.drops);
    let c = 4 * (q.digits * q.digits);
    let t = 4 * (p.digits * p.digits) + c / n;
    let rest = c % n;
    if t < 0x4_0000_0000_0000 {
        rounded(t, rest, p.drops)
    } else {
        rounded(t / 4, rest + t % 4, p.drops + 1)
    }
}

// The root of the sum of the squares of two numbers, of which the first drops no fewer digits: where it drops many more, it alone
// counts.
fn of_parts(p: Parts, q: Parts) -> f32
    requires { q.drops ≤ p.drops }
    ensures { result ≡ root_of_parts p q }
{
    if p.drops - q.drops < 13 {
        near(p, q)
    } else {
        float::encode(false, p.digits, p.drops)
    }
}

// The f32 nearest to √(x² + y²), a tie to the even one, by whole numbers: right everywhere. An infinity wins over a NaN.
pub fn hypot_exact(x: f32, y: f32) -> f32
    ensures { result ≡ hypot_of binary32 x y }
{
    let (Some(p), Some(q)) = (float::split(x), float::split(y)) else {
        return if x.is_infinite() || y.is_infinite() {
            f32::INFINITY
        } else {
            f32::NAN
        };
    };
    if p.drops < q.drops {
        of_parts(q, p)
    } else {
        of_parts(p, q)
    }
}
