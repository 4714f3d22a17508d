// An ellipse as path commands: request U1 of document 02.
#![tactic(auto)]

ghost use Rattle.std.specs.Prelude.{◌≡◌};
ghost use Rattle.ellipse.specs.Ellipse.{tangent_on, ellipse_in, ellipse_path};

use command::PathCommand;
use point::Point;
use rect::{Bounds, Frame};

// How far the control points stand from the centre's coordinate, on the axis with this side.
#[tactic(auto, unfolding(crate::specs::Ellipse::tangent_on))]
fn tangent_on(side: f32) -> f32
    ensures { result ≡ tangent_on side }
{
    float::abs(side) * 0.5 * rect::KAPPA
}

// The commands of the ellipse with this centre and size, in a box.
#[tactic(auto, unfolding(crate::specs::Ellipse::ellipse_in))]
pub fn ellipse_commands_in(bounds: Bounds, frame: Frame) -> [PathCommand; 6]
    ensures { result ≡ ellipse_in bounds frame.centre.x frame.centre.y frame.size.x frame.size.y }
{
    let Point { x: cx, y: cy } = frame.centre;
    let tx = tangent_on(frame.size.x);
    let ty = tangent_on(frame.size.y);
    let l = bounds.left;
    let t = bounds.top;
    let r = bounds.right;
    let b = bounds.bottom;
    [
        PathCommand::Move(cx, t),
        PathCommand::Cubic(cx + tx, t, r, cy - ty, r, cy),
        PathCommand::Cubic(r, cy + ty, cx + tx, b, cx, b),
        PathCommand::Cubic(cx - tx, b, l, cy + ty, l, cy),
        PathCommand::Cubic(l, cy - ty, cx - tx, t, cx, t),
        PathCommand::Close,
    ]
}

// The commands of the ellipse with this centre and size, in the box that they make.
#[tactic(auto, unfolding(crate::specs::Ellipse::ellipse_path))]
pub fn ellipse_commands(frame: Frame) -> [PathCommand; 6]
    ensures { result ≡ ellipse_path frame.centre.x frame.centre.y frame.size.x frame.size.y }
{
    ellipse_commands_in(frame.bounds(), frame)
}
