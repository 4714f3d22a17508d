// The length of a curve by chords, as `curve` has it, the quick way: by exact sums where the coordinates are of like size,
// and by chords between points that are known to be finite.
#![tactic(auto)]

ghost use Rattle.std.specs.Prelude.{◌≡◌, true, ◌^◌, IfSome};
ghost use Rattle.curve.specs.Curve as spec;
ghost use Rattle.curve.proofs.Rising.{Inside};
ghost use Rattle.polyline.proofs.Callers.{quad_finite, cubic_finite};
ghost use Rattle.flatten.specs.Level.{Coordinates, QuadCoordinates};

use curve::{Cubic, Quad, Stepped};
use flatten::{CubicAxis, QuadAxis};
use point::Point;
use polyline::FiniteSteps;

// Whether both coordinates of a point are within 2^22, the limit of command lists.
fn is_inside(p: Point) -> bool
    ensures { result ≡ true → Inside (2 ^ 22) p }
{
    float::is_within(p.x, 4194304.0) && float::is_within(p.y, 4194304.0)
}

// A quadratic curve whose points are within the limit. The three types below have like functions: what their ghost fields know is not
// the same, and one type for all would take that from a trait of its own, which is longer.
#[derive(Clone, Copy)]
struct InsideQuad {
    quad: Quad,
    ghost inside: { ∥ Inside (2 ^ 22) quad.start × Inside (2 ^ 22) quad.control × Inside (2 ^ 22) quad.end ∥₁ },
}

impl InsideQuad {
    // The curve as such a one, where it is.
    fn of(quad: Quad) -> Option<InsideQuad>
        ensures { IfSome result (λ inside. inside.quad ≡ quad) }
    {
        if is_inside(quad.start) && is_inside(quad.control) && is_inside(quad.end) {
            Some(InsideQuad { quad })
        } else {
            None
        }
    }
}

impl Stepped for InsideQuad {
    ghost STEPS = { 24 };

    ghost point = { λ curve. spec.quad_point curve.quad.start curve.quad.control curve.quad.end };

    const STEPS: u16 = 24;

    fn start(self) -> Point {
        self.quad.start()
    }

    fn point(self, step: u16) -> Point {
        self.quad.point(step)
    }
}

impl FiniteSteps for InsideQuad {
    ghost finite = { λ curve. quad_finite curve.quad.start curve.quad.control curve.quad.end curve.inside };
}

// A quadratic curve whose points are within the limit, and whose coordinates are of like size along each axis.
#[derive(Clone, Copy)]
struct LevelQuad {
    quad: Quad,
    ghost inside: { ∥ Inside (2 ^ 22) quad.start × Inside (2 ^ 22) quad.control × Inside (2 ^ 22) quad.end ∥₁ },
    ghost x: { ∥ QuadCoordinates quad.start.x quad.control.x quad.end.x ∥₁ },
    ghost y: { ∥ QuadCoordinates quad.start.y quad.control.y quad.end.y ∥₁ },
}

impl LevelQuad {
    // The curve as such a one, where it is.
    fn of(quad: Quad) -> Option<LevelQuad>
        ensures { IfSome result (λ level. level.quad ≡ quad) }
    {
        let Quad {
            start,
            control,
            end,
        } = quad;
        let numbers: [f32; 6] = [start.x, start.y, control.x, control.y, end.x, end.y];
        if flatten::is_level(&numbers) {
            Some(LevelQuad { quad })
        } else {
            None
        }
    }
}

impl Stepped for LevelQuad {
    ghost STEPS = { 24 };

    ghost point = { λ curve. spec.quad_point curve.quad.start curve.quad.control curve.quad.end };

    const STEPS: u16 = 24;

    fn start(self) -> Point {
        self.quad.start()
    }

    // At the eighths `mul_add` would meet midpoints, and exact sums need no `mul_add`. The two axes are written out here and for a cubic:
    // as fields, made once, each would need facts that tie it to the curve.
    #[tactic(auto, using(crate::proofs::Points::quad_points))]
    fn point(self, step: u16) -> Point {
        let Quad {
            start,
            control,
            end,
        } = self.quad;
        match step {
            24 => end,
            _ if step % 3 == 0 => {
                let eighth = u32::from(step / 3);
                let x = QuadAxis {
                    start: start.x,
                    control: control.x,
                    end: end.x,
                };
                let y = QuadAxis {
                    start: start.y,
                    control: control.y,
                    end: end.y,
                };
                Point {
                    x: x.at(eighth),
                    y: y.at(eighth),
                }
            }
            _ => self.quad.point(step),
        }
    }
}

impl FiniteSteps for LevelQuad {
    ghost finite = { λ curve. quad_finite curve.quad.start curve.quad.control curve.quad.end curve.inside };
}

// The length of a quadratic curve, by 24 chords. It and `cubic_length` are calls of their own, so that the walk over a list, where
// most commands may be lines, stays small.
#[tactic(auto, unfolding(curve::specs::Curve::quad_length_after))]
#[inline(never)]
pub fn quad_length(quad: Quad) -> f32
    ensures { result ≡ spec.quad_length quad.start quad.control quad.end }
{
    if let Some(level) = LevelQuad::of(quad) {
        return polyline::length(level);
    }
    if let Some(inside) = InsideQuad::of(quad) {
        return polyline::length(inside);
    }
    quad.length()
}

// A cubic curve whose points are within the limit, and whose coordinates are of like size along each axis.
#[derive(Clone, Copy)]
struct LevelCubic {
    cubic: Cubic,
    ghost inside: { ∥ Inside (2 ^ 22) cubic.start × Inside (2 ^ 22) cubic.control1 × Inside (2 ^ 22) cubic.control2 × Inside (2 ^ 22) cubic.end ∥₁ },
    ghost x: { ∥ Coordinates cubic.start.x cubic.control1.x cubic.control2.x cubic.end.x ∥₁ },
    ghost y: { ∥ Coordinates cubic.start.y cubic.control1.y cubic.control2.y cubic.end.y ∥₁ },
}

impl LevelCubic {
    // The curve as such a one, where it is.
    fn of(cubic: Cubic) -> Option<LevelCubic>
        ensures { IfSome result (λ level. level.cubic ≡ cubic) }
    {
        let Cubic {
            start,
            control1,
            control2,
            end,
        } = cubic;
        let numbers: [f32; 8] = [
            start.x, start.y, control1.x, control1.y, control2.x, control2.y, end.x, end.y,
        ];
        if flatten::is_level(&numbers) {
            Some(LevelCubic { cubic })
        } else {
            None
        }
    }
}

impl Stepped for LevelCubic {
    ghost STEPS = { 32 };

    ghost point = { λ curve. spec.cubic_point curve.cubic.start curve.cubic.control1 curve.cubic.control2 curve.cubic.end };

    const STEPS: u16 = 32;

    fn start(self) -> Point {
        self.cubic.start()
    }

    #[tactic(auto, using(crate::proofs::Points::cubic_points))]
    fn point(self, step: u16) -> Point {
        let Cubic {
            start,
            control1,
            control2,
            end,
        } = self.cubic;
        match step {
            32 => end,
            _ => {
                let step = u32::from(step);
                let x = CubicAxis {
                    start: start.x,
                    control1: control1.x,
                    control2: control2.x,
                    end: end.x,
                };
                let y = CubicAxis {
                    start: start.y,
                    control1: control1.y,
                    control2: control2.y,
                    end: end.y,
                };
                Point {
                    x: x.at(step),
                    y: y.at(step),
                }
            }
        }
    }
}

impl FiniteSteps for LevelCubic {
    ghost finite = { λ curve. cubic_finite curve.cubic.start curve.cubic.control1 curve.cubic.control2 curve.cubic.end curve.inside };
}

// The length of a cubic curve, by 32 chords.
#[tactic(auto, unfolding(curve::specs::Curve::cubic_length_after))]
#[inline(never)]
pub fn cubic_length(cubic: Cubic) -> f32
    ensures { result ≡ spec.cubic_length cubic.start cubic.control1 cubic.control2 cubic.end }
{
    match LevelCubic::of(cubic) {
        Some(level) => polyline::length(level),
        None => cubic.length(),
    }
}
