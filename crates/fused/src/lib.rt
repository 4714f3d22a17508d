// IEEE 754's fusedMultiplyAdd at binary32: a * b + c, rounded once.
#![tactic(auto, using(crate::proofs::Ways::ways))]

ghost use Rattle.std.specs.Prelude.{◌≡◌, MatchOption};
ghost use Rattle.std.specs.Float.{binary32};
ghost use Rattle.ieee.specs.Fused.{fma};

mod term;

use term::Term;

// a * b + c, rounded once, by integers: right everywhere. The smallest product of two floats is 2^214 of the units 2^-512.
// Written into `mul_add` it would make the quick way slower, for registers that it alone uses. C hands over a, b and c apart, and a
// type for the three would have nothing to say of them.
#[cold]
pub fn mul_add_exact(a: f32, b: f32, c: f32) -> f32
    ensures { result ≡ fma binary32 a b c }
{
    let (Some(x), Some(y)) = (float::split(a), float::split(b)) else {
        return a * b + c;
    };
    let Some(z) = float::split(c) else {
        return c;
    };
    let product = Term {
        negative: x.negative != y.negative,
        m: x.digits * y.digits,
        e: x.drops + y.drops + 214,
    };
    product.plus(Term {
        negative: z.negative,
        m: z.digits,
        e: z.drops + 363,
    })
}

// a * b + c by binary64: the product is exact there, and so the sum is rounded once. Rounding it again to binary32 is right where it is no
// midpoint of binary32. None at a midpoint, at a result out of binary32's normal range and at what is not finite. The exponent fields 898 to
// 1150 of binary64 lie in binary32's normal range.
fn quick(a: f32, b: f32, c: f32) -> Option<f32>
    ensures { MatchOption result (Unit {0}) (λ r. r ≡ fma binary32 a b c) }
{
    if a.is_nan() || b.is_nan() || c.is_nan() {
        return None;
    }
    let w = (a as f64) * (b as f64) + (c as f64);
    if w.is_nan() {
        return None;
    }
    let t = w.to_bits();
    let rest = t % 0x8000_0000_0000_0000;
    let x = rest / 0x10_0000_0000_0000;
    if x < 898 || x > 1150 || t % 0x2000_0000 == 0x1000_0000 {
        return None;
    }
    // Half of the last digit's weight is added, and the carry runs into the exponent.
    let p = (rest + 0x1000_0000) / 0x2000_0000 - 0x1_c000_0000;
    Some(float::signed(t >= 0x8000_0000_0000_0000, p))
}

// a * b + c, rounded once. `f32::mul_add` would be quicker. But core defines its answer by `float_mul_add`, which is not proved equal to
// `fma`, and three must-fail edits (`sticky_lost`, `tie_up`, `midpoint_taken_fast`) are of the steps that are written out here.
pub fn mul_add(a: f32, b: f32, c: f32) -> f32
    ensures { result ≡ fma binary32 a b c }
{
    quick(a, b, c).unwrap_or_else(|| mul_add_exact(a, b, c))
}
