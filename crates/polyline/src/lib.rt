// The length of a polyline: the lengths of its chords, added up in order.
#![tactic(auto)]

ghost use Rattle.std.specs.Prelude.{◌≡◌, ℕ, ◌≤◌, IfSome};
ghost use Rattle.point.specs.declared.Point.{Point};
ghost use Rattle.curve.specs.Curve.{distance, chords};
ghost use Rattle.polyline.specs.Polyline.{IsFinite};

use curve::Stepped;
use point::Point;
use root::Candidate;

// The length of the chord from a to b by a candidate, where that is sure. The difference of two finite numbers may be
// infinite, and is no NaN.
#[tactic(auto, using(crate::proofs::Differences::difference_widens))]
fn quick(a: Point, b: Point) -> Option<f32>
    requires { IsFinite a × IsFinite b }
    ensures { IfSome result (λ d. d ≡ distance a b) }
{
    let dx = (b.x - a.x) as f64;
    let dy = (b.y - a.y) as f64;
    let squares = dx * dx + dy * dy;
    let candidate = Candidate::of_root(squares);
    if candidate.is_sure(squares) {
        Some(candidate.single())
    } else {
        None
    }
}

// The length of the chord from a to b.
fn between(a: Point, b: Point) -> f32
    requires { IsFinite a × IsFinite b }
    ensures { result ≡ distance a b }
{
    quick(a, b).unwrap_or_else(|| curve::distance(a, b))
}

// A curve in steps whose points are finite.
pub trait FiniteSteps: Stepped {
    ghost finite: { (curve : Self) (k : ℕ) → k ≤ Self.Stepped.STEPS → IsFinite (Self.Stepped.point curve k) };
}

// The length of such a curve, by a chord to the point of each step. `curve` has the same loop for any points: one for both
// would need a promise about pairs of points that is longer than the loop. It counts from 0 for the reason that stands there.
#[tactic(auto, using(curve::proofs::Chords::walking))]
pub fn length<C: FiniteSteps>(curve: C) -> f32
    ensures { result ≡ chords (C.point curve) C.STEPS }
{
    let mut length: f32 = 0.0;
    let mut last = curve.start();
    for step in 0..C::STEPS {
        let next = curve.point(step + 1);
        length += between(last, next);
        last = next;
    }
    length
}
