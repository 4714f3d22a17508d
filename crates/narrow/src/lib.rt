// A binary64 number kept to 24 binary digits, binary32's, with no test: adding 2^29 times the power of two below it
// rounds it there, and taking that away again is exact.
#![tactic(auto, using(crate::proofs::Ways::leading_ok))]

ghost use Rattle.std.specs.Prelude.{not, T};
ghost use Rattle.std.specs.Float.Ieee.{is_nan};
ghost use Rattle.narrow.specs.Kept.{Kept};

// w is a sum that the caller has just made. That it is no NaN is asked of it: a type with that fact would be made at each call, and
// taken apart here.
pub fn narrowed(w: f64) -> f64
    requires { T (not (is_nan w)) }
    ensures { Kept w result }
{
    let t = w.to_bits();
    let c = f64::from_bits(t - t % 0x10_0000_0000_0000) * 536870912.0;
    (w + c) - c
}
