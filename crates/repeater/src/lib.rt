// The copies of a repeater: `repeater_transform_for_copy` of drawing_paths.rs and what it calls.
#![tactic(auto)]

ghost use Rattle.std.specs.Prelude.{◌≡◌, ◌^◌, ◌≤◌, true};
ghost use Rattle.ieee.specs.Literal.{number_limit};
ghost use Rattle.ieee.specs.Limit.{within};
ghost use Rattle.count.specs.Count.{count_limit};
ghost use Rattle.repeater.specs.Repeater as spec;
ghost use Rattle.repeater.specs.Upright as upright;

use matrix::Matrix;
use point::Point;

// A repeater, sampled. Scales are in per cent, the rotation is in degrees.
// The mode is the number that C hands over: any number is let pass where only matrices are asked for.
// What its numbers may be stands in contracts, not in a ghost field: a style is made of any numbers, and `copies` checks it then.
#[derive(Clone, Copy)]
pub struct RepeaterStyle {
    pub copies: f32,
    pub offset: f32,
    pub mode: u8,
    pub anchor: Point,
    pub position: Point,
    pub scale: Point,
    pub rotation: f32,
    pub start_opacity: f32,
    pub end_opacity: f32,
}

// A part of a step, or of the inverse step.
#[derive(Clone, Copy)]
struct StepPart {
    percent: f32,
    inverse: bool,
}

impl StepPart {
    // The part of a scale.
    #[tactic(auto, unfolding(crate::specs::Repeater::step_scale))]
    fn of_scale(self, scale: f32) -> f32
        ensures { result ≡ spec.step_scale scale self.percent self.inverse }
    {
        let s = fused::mul_add(scale / 100.0 - 1.0, self.percent, 1.0);
        if self.inverse {
            1.0 / float::max(s, 0.0001)
        } else {
            s
        }
    }

    fn direction(self) -> f32
        ensures { result ≡ spec.direction self.inverse }
    {
        if self.inverse { -1.0 } else { 1.0 }
    }

    // The part of a shift along an axis, or of an angle.
    #[tactic(auto, unfolding(crate::specs::Repeater::step_part))]
    fn of(self, amount: f32) -> f32
        ensures { result ≡ spec.step_part amount self.percent self.inverse }
    {
        amount * self.direction() * self.percent
    }
}

// A shift, then a rotation and a scaling around an anchor.
#[tactic(auto, unfolding(crate::specs::Repeater::step_matrix))]
fn step_matrix(shift: Point, anchor: Point, degrees: f32, scale: Point) -> Matrix
    requires { within number_limit degrees ≡ true }
    ensures { result ≡ spec.step_matrix shift.x shift.y anchor.x anchor.y degrees scale.x scale.y }
{
    let back = Point {
        x: -anchor.x,
        y: -anchor.y,
    };
    Matrix::identity()
        .pre_translate(shift)
        .pre_translate(anchor)
        .pre_rotate(degrees)
        .pre_scale(scale)
        .pre_translate(back)
}

// Whether a matrix neither turns nor mirrors: b and c are zeros, and a and d are above zero.
#[tactic(auto, unfolding(crate::specs::Upright::is_upright))]
fn is_upright(m: Matrix) -> bool
    ensures { result ≡ upright.is_upright m }
{
    m.b == 0.0 && m.c == 0.0 && m.a > 0.0 && m.d > 0.0
}

// The product of two matrices that neither turn nor mirror: n acts first.
#[tactic(auto, unfolding(crate::specs::Upright::upright_concat))]
fn upright_concat(m: Matrix, n: Matrix) -> Matrix
    ensures { result ≡ upright.upright_concat m n }
{
    Matrix {
        a: m.a * n.a,
        b: 0.0,
        c: 0.0,
        d: m.d * n.d,
        e: m.a * n.e + 0.0 * n.f + m.e,
        f: 0.0 * n.e + m.d * n.f + m.f,
    }
}

// So many steps that neither turn nor mirror. They are right where the scale is finite at the end.
fn upright_steps(n: u64, step: Matrix) -> Matrix
    ensures { result ≡ upright.upright_steps n step }
{
    (0..n).fold(
        Matrix::identity(),
        |transform, _| upright_concat(transform, step),
    )
}

// So many steps, one after another, by the quick way where it is right.
fn steps(n: u64, step: Matrix) -> Matrix
    ensures { result ≡ spec.steps n step }
{
    if is_upright(step) {
        let quick = upright_steps(n, step);
        if float::is_finite(quick.a) && float::is_finite(quick.d) {
            return quick;
        }
    }
    (0..n).fold(Matrix::identity(), |transform, _| transform.concat(step))
}

// The opacity of one copy of so many.
#[tactic(auto, using(crate::proofs::Ways::of_whole), unfolding(crate::specs::Repeater::opacity_of))]
fn opacity_of(start: f32, end: f32, count: u64, copy: u64) -> f32
    requires { (count ≤ 2 ^ 24) × (copy ≤ 2 ^ 24) }
    ensures { result ≡ spec.opacity_of start end count copy }
{
    if count <= 1 {
        start
    } else {
        let progress = whole::from_whole(false, copy) / whole::from_whole(false, count - 1);
        fused::mul_add(end - start, progress, start)
    }
}

impl RepeaterStyle {
    // A part of a step, or of the inverse step.
    #[tactic(auto, unfolding(crate::specs::Repeater::step_transform))]
    fn step_transform(self, part: StepPart) -> Matrix
        requires { within number_limit (spec.step_part self.rotation part.percent part.inverse) ≡ true }
        ensures { result ≡ spec.step_transform self part.percent part.inverse }
    {
        let shift = Point {
            x: part.of(self.position.x),
            y: part.of(self.position.y),
        };
        let scale = Point {
            x: part.of_scale(self.scale.x),
            y: part.of_scale(self.scale.y),
        };
        step_matrix(shift, self.anchor, part.of(self.rotation), scale)
    }

    // So many steps and a part of one. At most 2^-23 in absolute value is none.
    #[tactic(auto, using(crate::proofs::Ways::iterating), unfolding(crate::specs::Repeater::iteration_transform))]
    fn iteration_transform(self, iteration: f32) -> Matrix
        requires { (within count_limit iteration ≡ true) × (within number_limit self.rotation ≡ true) }
        ensures { result ≡ spec.iteration_transform self iteration }
    {
        if float::is_within(iteration, f32::EPSILON) {
            return Matrix::identity();
        }
        let inverse = iteration < 0.0;
        let magnitude = float::abs(iteration);
        let whole = count::count_down(magnitude);
        let percent = magnitude - whole::from_whole(false, whole);
        let step = self.step_transform(StepPart {
            percent: 1.0,
            inverse,
        });
        let transform = steps(whole, step);
        if percent > f32::EPSILON {
            transform.concat(self.step_transform(StepPart { percent, inverse }))
        } else {
            transform
        }
    }

    // The matrix of one copy.
    #[tactic(auto, using(crate::proofs::Ways::copying), unfolding(crate::specs::Repeater::copy_transform))]
    pub fn copy_transform(self, copy: u64) -> Matrix
        requires { (within spec.most_offset self.offset ≡ true) × (within number_limit self.rotation ≡ true) × (copy ≤ 4096) }
        ensures { result ≡ spec.copy_transform self copy }
    {
        self.iteration_transform(self.offset + whole::from_whole(false, copy))
    }

    // How many copies there are.
    #[tactic(auto, unfolding(crate::specs::Repeater::copy_count))]
    pub fn copy_count(self) -> u64
        requires { within count_limit self.copies ≡ true }
        ensures { (result ≡ spec.copy_count self) × (result ≤ 2 ^ 24) }
    {
        count::count_up(self.copies)
    }

    #[tactic(auto, unfolding(crate::specs::Repeater::copy_opacity))]
    pub fn copy_opacity(self, copy: u64) -> f32
        requires { (within count_limit self.copies ≡ true) × (copy ≤ 2 ^ 24) }
        ensures { result ≡ spec.copy_opacity self copy }
    {
        opacity_of(
            self.start_opacity,
            self.end_opacity,
            self.copy_count(),
            copy,
        )
    }
}
