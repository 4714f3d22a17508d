// A rectangle as path commands: `build_rect_path` and `build_round_rect_path` of drawing_paths.rs.
#![tactic(auto)]

ghost use Rattle.std.specs.Prelude.{◌≡◌};
ghost use Rattle.std.specs.Float.Ieee.{le};
ghost use Rattle.command.specs.Buffers.{size_of, pair_of};
ghost use Rattle.rect.specs.declared.Bounds.{Bounds};
ghost use Rattle.rect.specs.Bounds.{near_side, rect_bounds};
ghost use Rattle.rect.specs.Rect.{epsilon, corner_radius, plain_rect, round_rect, rect_path};

use command::{PathCommand, Size};
use point::Point;

// The centre and the size that a box is made from.
#[derive(Clone, Copy)]
pub struct Frame {
    pub centre: Point,
    // The width and the height. Their signs do not matter.
    pub size: Point,
}

// The sides of a box.
#[derive(Clone, Copy)]
pub struct Bounds {
    pub left: f32,
    pub top: f32,
    pub right: f32,
    pub bottom: f32,
}

// ROUND_RECT_KAPPA of drawing_paths.rs, and document 02's number for an ellipse.
pub const KAPPA: f32 = 0.5522848;

// The side that stands half a size before the centre. With a function of its own for it `bounds` is small enough
// for the compiler to inline it: else a box would go through memory.
fn near_side(centre: f32, size: f32) -> f32
    ensures { result ≡ near_side centre size }
{
    fused::mul_add(float::abs(size), -0.5, centre)
}

impl Frame {
    // The sides of the box with this centre and size.
    #[tactic(auto, unfolding(crate::specs::Bounds::rect_bounds))]
    pub fn bounds(self) -> Bounds
        ensures { result ≡ rect_bounds self.centre.x self.centre.y self.size.x self.size.y }
    {
        let left = near_side(self.centre.x, self.size.x);
        let top = near_side(self.centre.y, self.size.y);
        Bounds {
            left,
            top,
            right: left + float::abs(self.size.x),
            bottom: top + float::abs(self.size.y),
        }
    }
}

// The radius of the corners of a rectangle with this size and roundness. Width and height are apart, as in the list: the one caller would
// make a `Point` of them only for this.
#[tactic(auto, unfolding(crate::specs::Rect::corner_radius))]
pub fn corner_radius(w: f32, h: f32, roundness: f32) -> f32
    ensures { result ≡ corner_radius w h roundness }
{
    let smaller = float::min(float::abs(w), float::abs(h));
    float::clamp(roundness, 0.0, smaller * 0.5)
}

// Whether corners of this radius are sharp.
pub fn is_plain(radius: f32) -> bool
    ensures { result ≡ le radius epsilon }
{
    radius <= f32::EPSILON
}

// The commands of a rectangle with sharp corners.
#[tactic(auto, unfolding(crate::specs::Rect::plain_rect))]
pub fn plain_commands(bounds: Bounds) -> [PathCommand; 5]
    ensures { result ≡ plain_rect bounds }
{
    [
        PathCommand::Move(bounds.left, bounds.top),
        PathCommand::Line(bounds.right, bounds.top),
        PathCommand::Line(bounds.right, bounds.bottom),
        PathCommand::Line(bounds.left, bounds.bottom),
        PathCommand::Close,
    ]
}

// The commands of a rectangle with round corners.
#[tactic(auto, unfolding(crate::specs::Rect::round_rect))]
pub fn round_commands(bounds: Bounds, radius: f32) -> [PathCommand; 10]
    ensures { result ≡ round_rect bounds radius }
{
    let s = radius * KAPPA;
    let l = bounds.left + radius;
    let t = bounds.top + radius;
    let r = bounds.right - radius;
    let b = bounds.bottom - radius;
    [
        PathCommand::Move(l, bounds.top),
        PathCommand::Line(r, bounds.top),
        PathCommand::Cubic(r + s, bounds.top, bounds.right, t - s, bounds.right, t),
        PathCommand::Line(bounds.right, b),
        PathCommand::Cubic(bounds.right, b + s, r + s, bounds.bottom, r, bounds.bottom),
        PathCommand::Line(l, bounds.bottom),
        PathCommand::Cubic(l - s, bounds.bottom, bounds.left, b + s, bounds.left, b),
        PathCommand::Line(bounds.left, t),
        PathCommand::Cubic(bounds.left, t - s, l - s, bounds.top, l, bounds.top),
        PathCommand::Close,
    ]
}

// How many codes and numbers a rectangle has, whatever its box.
#[tactic(auto, unfolding(crate::specs::Rect::rect_path, crate::specs::Rect::plain_rect, crate::specs::Rect::round_rect))]
pub fn rect_size(radius: f32) -> Size
    ensures { (b : Bounds) → pair_of result ≡ size_of (rect_path b radius) }
{
    if is_plain(radius) {
        Size {
            codes: 5,
            numbers: 8,
        }
    } else {
        Size {
            codes: 10,
            numbers: 34,
        }
    }
}
