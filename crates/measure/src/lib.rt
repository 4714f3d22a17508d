// The length of a path, a command at a time: `approx_path_length` of drawing_paths.rs.
#![tactic(auto)]

ghost use Rattle.std.specs.Prelude.{◌≡◌};
ghost use Rattle.measure.specs.Length as spec;

use command::PathCommand;
use curve::{Cubic, Quad};
use point::Point;

// What is known after some commands: the length so far, the last point, and where the contour
// started.
#[derive(Clone, Copy)]
pub struct Pen {
    pub length: f32,
    pub point: Option<Point>,
    pub start: Option<Point>,
}

impl Pen {
    // Before the first command.
    #[tactic(auto, unfolding(crate::specs::Length::start_pen))]
    pub fn start() -> Pen
        ensures { result ≡ spec.start_pen }
    {
        Pen {
            length: 0.0,
            point: None,
            start: None,
        }
    }

    // A contour starts.
    #[tactic(auto, unfolding(crate::specs::Length::move_to))]
    fn move_to(self, next: Point) -> Pen
        ensures { result ≡ spec.move_to self next }
    {
        Pen {
            point: Some(next),
            start: Some(next),
            ..self
        }
    }

    // The pen at the end of a segment of the same contour, after which the length is this: with the segment's own, or without
    // it where there is no point to come from.
    #[tactic(auto, unfolding(crate::specs::Length::arrive))]
    fn arrive(self, next: Point, length: f32) -> Pen
        ensures { result ≡ spec.arrive self next length }
    {
        Pen {
            length,
            point: Some(next),
            ..self
        }
    }

    // It, `quad_to` and `cubic_to` write the same `map_or`: a method that takes the closure would have to say in its contract what the
    // closure answers, which is longer than the call.
    #[tactic(auto, unfolding(crate::specs::Length::line_to, crate::specs::Length::added))]
    fn line_to(self, next: Point) -> Pen
        ensures { result ≡ spec.line_to self next }
    {
        let length = self.point.map_or(
            self.length,
            |start| self.length + curve::distance(start, next),
        );
        self.arrive(next, length)
    }

    #[tactic(auto, unfolding(crate::specs::Length::quad_to, crate::specs::Length::added))]
    fn quad_to(self, control: Point, next: Point) -> Pen
        ensures { result ≡ spec.quad_to self control next }
    {
        let length = self.point.map_or(self.length, |start| {
            let quad = Quad {
                start,
                control,
                end: next,
            };
            self.length + arc::quad_length(quad)
        });
        self.arrive(next, length)
    }

    #[tactic(auto, unfolding(crate::specs::Length::cubic_to, crate::specs::Length::added))]
    fn cubic_to(self, control1: Point, control2: Point, next: Point) -> Pen
        ensures { result ≡ spec.cubic_to self control1 control2 next }
    {
        let length = self.point.map_or(self.length, |start| {
            let cubic = Cubic {
                start,
                control1,
                control2,
                end: next,
            };
            self.length + arc::cubic_length(cubic)
        });
        self.arrive(next, length)
    }

    // Back to where the contour started.
    #[tactic(auto, unfolding(crate::specs::Length::close, crate::specs::Length::closing, crate::specs::Length::line_to, crate::specs::Length::arrive))]
    fn close(self) -> Pen
        ensures { result ≡ spec.close self }
    {
        match self.start {
            Some(first) => self.line_to(first),
            None => Pen {
                point: None,
                ..self
            },
        }
    }

    // The pen after one more command.
    #[tactic(auto, unfolding(crate::specs::Length::step))]
    pub fn step(self, command: PathCommand) -> Pen
        ensures { result ≡ spec.step self command }
    {
        match command {
            PathCommand::Move(x, y) => self.move_to(Point { x, y }),
            PathCommand::Line(x, y) => self.line_to(Point { x, y }),
            PathCommand::Cubic(ax, ay, bx, by, x, y) => self.cubic_to(
                Point { x: ax, y: ay },
                Point { x: bx, y: by },
                Point { x, y },
            ),
            PathCommand::Close => self.close(),
            PathCommand::Quad(ax, ay, x, y) => self.quad_to(Point { x: ax, y: ay }, Point { x, y }),
        }
    }
}
