// The length of a curve by chords: `approx_quad_length` and `approx_cubic_length` of
// drawing_paths.rs.
#![tactic(auto)]

ghost use Rattle.std.specs.Prelude.{◌≡◌, ℕ, ◌≤◌};
ghost use Rattle.point.specs.declared.Point.{Point};
ghost use Rattle.curve.specs.Curve as spec;

use point::Point;

// How far one point is from another. Nothing is known of the two ends of a chord together that a type could say; `polyline` knows
// that each end is finite, which is a fact of one point.
#[tactic(auto, using(crate::proofs::Ways::distance_is))]
pub fn distance(a: Point, b: Point) -> f32
    ensures { result ≡ spec.distance a b }
{
    let dx = b.x - a.x;
    let dy = b.y - a.y;
    root::hypot(dx, dy)
}

// A curve that is walked in steps: its start, and the point of each step. At 0 it is at its start by definition, so a point
// is asked for from the first step on.
pub trait Stepped: Copy {
    ghost STEPS: { ℕ };

    ghost point: { Self → ℕ → Point };

    const STEPS: u16;

    fn start(self) -> Point
        ensures { result ≡ point self 0 };

    fn point(self, step: u16) -> Point
        requires { (1 ≤ step) × (step ≤ STEPS) }
        ensures { result ≡ point self step };
}

// The length of such a curve: a chord to the point of each step, added up in order. With `1..=STEPS` the loop would end at two places,
// and each fact of it would be of the step before.
#[tactic(auto, using(crate::proofs::Chords::walking))]
fn by_chords<C: Stepped>(curve: C) -> f32
    ensures { result ≡ spec.chords (C.point curve) C.STEPS }
{
    let mut length: f32 = 0.0;
    let mut last = curve.start();
    for step in 0..C::STEPS {
        let next = curve.point(step + 1);
        length += distance(last, next);
        last = next;
    }
    length
}

// A quadratic curve. It and a cubic are two types: each definition names its points, `control` or `control1` and `control2`, which an
// array of three or four would not.
#[derive(Clone, Copy)]
pub struct Quad {
    pub start: Point,
    pub control: Point,
    pub end: Point,
}

impl Quad {
    // The point at t. It is written into each loop: called, it would take the curve from memory at each step.
    #[inline(always)]
    #[tactic(auto, using(crate::proofs::Ways::quad_is))]
    pub fn eval(self, t: f32) -> Point
        ensures { result ≡ spec.eval_quad self.start self.control self.end t }
    {
        let Quad {
            start,
            control,
            end,
        } = self;
        let u = 1.0 - t;
        let of_start = u * u;
        let of_control = 2.0 * u * t;
        let of_end = t * t;
        let x1 = fused::mul_add(of_start, start.x, of_control * control.x);
        let y1 = fused::mul_add(of_start, start.y, of_control * control.y);
        Point {
            x: fused::mul_add(of_end, end.x, x1),
            y: fused::mul_add(of_end, end.y, y1),
        }
    }

    // The length, by 24 chords.
    #[tactic(auto, unfolding(crate::specs::Curve::quad_length_after))]
    pub fn length(self) -> f32
        ensures { result ≡ spec.quad_length self.start self.control self.end }
    {
        by_chords(self)
    }
}

impl Stepped for Quad {
    ghost STEPS = { 24 };

    ghost point = { λ curve. spec.quad_point curve.start curve.control curve.end };

    const STEPS: u16 = 24;

    #[tactic(auto, unfolding(crate::specs::Curve::quad_point))]
    fn start(self) -> Point {
        self.start
    }

    #[inline(always)]
    #[tactic(auto, using(crate::proofs::Chords::quad_step))]
    fn point(self, step: u16) -> Point {
        self.eval(step as f32 / 24.0)
    }
}

// A cubic curve.
#[derive(Clone, Copy)]
pub struct Cubic {
    pub start: Point,
    pub control1: Point,
    pub control2: Point,
    pub end: Point,
}

impl Cubic {
    // The point at t.
    #[tactic(auto, using(crate::proofs::Ways::cubic_is))]
    pub fn eval(self, t: f32) -> Point
        ensures { result ≡ spec.eval_cubic self.start self.control1 self.control2 self.end t }
    {
        let Cubic {
            start,
            control1,
            control2,
            end,
        } = self;
        let u = 1.0 - t;
        let of_start = u * (u * u);
        let of_control1 = 3.0 * (u * u) * t;
        let of_control2 = 3.0 * u * (t * t);
        let of_end = t * (t * t);
        let x1 = fused::mul_add(of_start, start.x, of_control1 * control1.x);
        let y1 = fused::mul_add(of_start, start.y, of_control1 * control1.y);
        let x2 = fused::mul_add(of_control2, control2.x, x1);
        let y2 = fused::mul_add(of_control2, control2.y, y1);
        Point {
            x: fused::mul_add(of_end, end.x, x2),
            y: fused::mul_add(of_end, end.y, y2),
        }
    }

    // The length, by 32 chords.
    #[tactic(auto, unfolding(crate::specs::Curve::cubic_length_after))]
    pub fn length(self) -> f32
        ensures { result ≡ spec.cubic_length self.start self.control1 self.control2 self.end }
    {
        by_chords(self)
    }
}

impl Stepped for Cubic {
    ghost STEPS = { 32 };

    ghost point = { λ curve. spec.cubic_point curve.start curve.control1 curve.control2 curve.end };

    const STEPS: u16 = 32;

    #[tactic(auto, unfolding(crate::specs::Curve::cubic_point))]
    fn start(self) -> Point {
        self.start
    }

    #[tactic(auto, using(crate::proofs::Chords::cubic_step))]
    fn point(self, step: u16) -> Point {
        self.eval(step as f32 / 32.0)
    }
}
