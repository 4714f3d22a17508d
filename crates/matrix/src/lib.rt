// Matrices that send a point to a point, and their products: each product and sum is rounded, left to right.
#![tactic(auto)]

ghost use Rattle.std.specs.Prelude.{◌≡◌, true};
ghost use Rattle.ieee.specs.Literal.{number_limit};
ghost use Rattle.ieee.specs.Limit.{within};
ghost use Rattle.matrix.specs.Matrix as spec;

use angle::Direction;
use point::Point;

// Sends (p, q) to (a·p + c·q + e, b·p + d·q + f).
#[derive(Clone, Copy)]
pub struct Matrix {
    pub a: f32,
    pub b: f32,
    pub c: f32,
    pub d: f32,
    pub e: f32,
    pub f: f32,
}

impl Matrix {
    pub fn identity() -> Matrix
        ensures { result ≡ spec.identity }
    {
        Matrix {
            a: 1.0,
            b: 0.0,
            c: 0.0,
            d: 1.0,
            e: 0.0,
            f: 0.0,
        }
    }

    // The product of two: n acts first.
    #[tactic(auto, unfolding(crate::specs::Matrix::concat))]
    pub fn concat(self, n: Matrix) -> Matrix
        ensures { result ≡ spec.concat self n }
    {
        Matrix {
            a: self.a * n.a + self.c * n.b,
            b: self.b * n.a + self.d * n.b,
            c: self.a * n.c + self.c * n.d,
            d: self.b * n.c + self.d * n.d,
            e: self.a * n.e + self.c * n.f + self.e,
            f: self.b * n.e + self.d * n.f + self.f,
        }
    }

    #[tactic(auto, unfolding(crate::specs::Matrix::pre_translate))]
    pub fn pre_translate(self, shift: Point) -> Matrix
        ensures { result ≡ spec.pre_translate self shift.x shift.y }
    {
        Matrix {
            a: self.a,
            b: self.b,
            c: self.c,
            d: self.d,
            e: self.a * shift.x + self.c * shift.y + self.e,
            f: self.b * shift.x + self.d * shift.y + self.f,
        }
    }

    #[tactic(auto, unfolding(crate::specs::Matrix::pre_scale))]
    pub fn pre_scale(self, scale: Point) -> Matrix
        ensures { result ≡ spec.pre_scale self scale.x scale.y }
    {
        Matrix {
            a: self.a * scale.x,
            b: self.b * scale.x,
            c: self.c * scale.y,
            d: self.d * scale.y,
            e: self.e,
            f: self.f,
        }
    }

    // The product with a rotation into a direction.
    #[tactic(auto, unfolding(crate::specs::Matrix::rotated))]
    fn rotated(self, w: Direction) -> Matrix
        ensures { result ≡ spec.rotated self w }
    {
        Matrix {
            a: self.a * w.cosine + self.c * w.sine,
            b: self.b * w.cosine + self.d * w.sine,
            c: self.a * -w.sine + self.c * w.cosine,
            d: self.b * -w.sine + self.d * w.cosine,
            e: self.e,
            f: self.f,
        }
    }

    // A rotation by degrees, at most 1,048,576 of them either way. A zero angle leaves the matrix as it is.
    #[tactic(auto, unfolding(crate::specs::Matrix::pre_rotate))]
    pub fn pre_rotate(self, degrees: f32) -> Matrix
        requires { within number_limit degrees ≡ true }
        ensures { result ≡ spec.pre_rotate self degrees }
    {
        let turn = angle::turn(degrees);
        if turn.sixteenths == 0 {
            self
        } else {
            self.rotated(angle::direction_at(turn))
        }
    }
}
