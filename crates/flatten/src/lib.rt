// Points on a curve by exact sums in binary64, where its coordinates are of like size.
#![tactic(auto)]

ghost use Rattle.std.specs.Prelude.{◌≡◌, true, ◌-◌, ◌*◌, ◌/◌, ◌^◌, ◌≤◌, ◌<◌};
ghost use Rattle.std.specs.Float.{binary32};
ghost use Rattle.std.specs.Float.Ieee.{mul};
ghost use Rattle.ieee.specs.Fused.{fma};
ghost use Rattle.curve.specs.Curve.{quad_at, cubic_at, step_of};
ghost use Rattle.flatten.specs.Level.{Coordinates, QuadCoordinates, Near, AllNear};
ghost use Rattle.flatten.specs.Weight as Weight;

// Where a step of so many is on a curve.
#[tactic(auto, using(crate::proofs::Steps::step_casts), unfolding(curve::specs::Curve::step_of))]
fn of_step(step: u32, steps: u32) -> f32
    requires { (step < 2 ^ 24) × (steps < 2 ^ 24) }
    ensures { result ≡ step_of steps step }
{
    step as f32 / steps as f32
}

// What each of the four points of a cubic counts at a step. It and `QuadWeights` differ in the number of weights and in the facts of
// their sum, which name each weight.
#[derive(Clone, Copy)]
struct CubicWeights {
    start: f64,
    control1: f64,
    control2: f64,
    end: f64,
    ghost weights: { ∥ Weight.Weights start control1 control2 end ∥₁ },
}

// One coordinate of each of the four points of a cubic, of like size. It and `QuadAxis` have sums of their own, of four and of three:
// the definitions of the points name each coordinate.
#[derive(Clone, Copy)]
pub struct CubicAxis {
    pub start: f32,
    pub control1: f32,
    pub control2: f32,
    pub end: f32,
    pub ghost level: { ∥ Coordinates start control1 control2 end ∥₁ },
}

impl CubicAxis {
    // The weighted sum of the four, each product and each sum rounded to binary32's 24 digits as `mul_add` rounds it.
    #[tactic(auto, using(crate::proofs::Ways::cubic_sums))]
    fn weighted(self, w: CubicWeights) -> f32
        ensures { result ≡ fma binary32 w.end self.end (fma binary32 w.control2 self.control2 (fma binary32 w.start self.start (mul binary32 w.control1 self.control1))) }
    {
        let one = narrow::narrowed(w.control1 * self.control1 as f64);
        let two = narrow::narrowed(w.start * self.start as f64 + one);
        let three = narrow::narrowed(w.control2 * self.control2 as f64 + two);
        narrow::narrowed(w.end * self.end as f64 + three) as f32
    }

    // The coordinate of the point at step / 32.
    #[tactic(auto, using(crate::proofs::Ways::cubic_points))]
    pub fn at(self, step: u32) -> f32
        requires { (0 < step) × (step < 32) }
        ensures { result ≡ cubic_at self.start self.control1 self.control2 self.end (step_of 32 step) }
    {
        let t = of_step(step, 32);
        let u = 1.0 - t;
        self.weighted(CubicWeights {
            start: (u * (u * u)) as f64,
            control1: (3.0 * (u * u) * t) as f64,
            control2: (3.0 * u * (t * t)) as f64,
            end: (t * (t * t)) as f64,
        })
    }
}

// What each of the three points of a quad counts at an eighth.
#[derive(Clone, Copy)]
struct QuadWeights {
    start: f64,
    control: f64,
    end: f64,
    ghost weights: { ∥ Weight.QuadWeights start control end ∥₁ },
}

// One coordinate of each of the three points of a quad, of like size.
#[derive(Clone, Copy)]
pub struct QuadAxis {
    pub start: f32,
    pub control: f32,
    pub end: f32,
    pub ghost level: { ∥ QuadCoordinates start control end ∥₁ },
}

impl QuadAxis {
    // The weighted sum of the three, rounded as that of four. A part for both would have to promise sums in binary64, which
    // is longer than the sums.
    #[tactic(auto, using(crate::proofs::Ways::quad_sums))]
    fn weighted(self, w: QuadWeights) -> f32
        ensures { result ≡ fma binary32 w.end self.end (fma binary32 w.start self.start (mul binary32 w.control self.control)) }
    {
        let one = narrow::narrowed(w.control * self.control as f64);
        let two = narrow::narrowed(w.start * self.start as f64 + one);
        narrow::narrowed(w.end * self.end as f64 + two) as f32
    }

    // The coordinate of the point at eighth / 8.
    #[tactic(auto, using(crate::proofs::Ways::quad_points))]
    pub fn at(self, eighth: u32) -> f32
        requires { (0 < eighth) × (eighth < 8) }
        ensures { result ≡ quad_at self.start self.control self.end (step_of 24 (3 * eighth)) }
    {
        let t = of_step(3 * eighth, 24);
        let u = 1.0 - t;
        self.weighted(QuadWeights {
            start: (u * u) as f64,
            control: (2.0 * u * t) as f64,
            end: (t * t) as f64,
        })
    }
}

// The bit pattern of x without its sign. A NaN's pattern is not known, so 0x7fc0_0000 stands for it, larger than any number's: then
// `is_level` answers no, where an Option would be tested at each number.
#[tactic(auto, using(ieee::proofs::Pattern::is_number_eq))]
fn bare(x: f32) -> u32 {
    if x.is_nan() {
        0x7fc0_0000
    } else {
        x.to_bits() % 0x8000_0000
    }
}

// Whether x is +0, or of a size not above the pattern `top` and at most 13 binades below it, and is at most 2^22.
#[tactic(auto, using(crate::proofs::Near::inside_number))]
fn is_near(x: f32, top: u32) -> bool
    requires { (0x1a80_0000 ≤ top) × (top ≤ 0x4a80_0000) }
    ensures { result ≡ true → Near (163 - top / 2 ^ 23) x }
{
    if !float::is_within(x, 4194304.0) {
        return false;
    }
    let pattern = x.to_bits();
    let size = pattern % 0x8000_0000;
    pattern == 0 || size <= top && top - 0x0680_0000 <= size
}

// Whether the coordinates of a curve are within 13 binades of the largest of them, or +0, and none is over 2^22.
pub fn is_level<const N: usize>(numbers: &[f32; N]) -> bool
    ensures { result ≡ true → AllNear N numbers.now }
{
    let top = numbers.iter().fold(0, |top, x| bare(*x).max(top));
    0x1a80_0000 <= top && top <= 0x4a80_0000 && numbers.iter().all(|x| is_near(*x, top))
}
