// A star or a polygon: which numbers make one, and each of its points, as in `build_star_path` and `build_polygon_path` of
// drawing_paths.rs, with directions from the table of sines.
#![tactic(auto)]

ghost use Rattle.std.specs.Prelude.{◌≡◌, true, ◌≤◌, ◌<◌};
ghost use Rattle.ieee.specs.Literal.{number_limit};
ghost use Rattle.ieee.specs.Limit.{within};
ghost use Rattle.polystar.specs.Marks.{number_of, mark_of};
ghost use Rattle.polystar.specs.Polystar as spec;

use angle::Direction;
use path::BezierVertex;
use point::Point;
use sine::Turn;

// The points at one distance from the centre, and how long their tangents are, with a sign.
#[derive(Clone, Copy)]
pub struct Ring {
    pub radius: f32,
    pub tangent: f32,
}

// What the points of a star or a polygon have in common. That one is `Sound` stands in contracts, not in a ghost field, since
// `polystar_of` of specs/ makes one of any numbers.
#[derive(Clone, Copy)]
pub struct Polystar {
    pub centre: Point,
    // How many points, inner ones too.
    pub count: usize,
    // Where the first one stands.
    pub start: Turn,
    // Whether they go round the other way: direction 3.
    pub reversed: bool,
    // The points of even number and those of odd number. A polygon's are alike.
    pub outer: Ring,
    pub inner: Ring,
}

// What a polystar is: a star or a polygon, and which way its points go round, with the number by which C knows it.
#[derive(Clone, Copy)]
pub enum Mark {
    Star = 1,
    Polygon = 2,
    // The same with direction 3.
    ReversedStar = 5,
    ReversedPolygon = 6,
}

impl Mark {
    fn is_star(self) -> bool
        ensures { result ≡ spec.is_star (number_of self) }
    {
        matches!(self, Mark::Star | Mark::ReversedStar)
    }

    // Whether the points go round the other way.
    fn is_reversed(self) -> bool
        ensures { result ≡ spec.is_reversed (number_of self) }
    {
        matches!(self, Mark::ReversedStar | Mark::ReversedPolygon)
    }

    // 1 in the direction of the points, and -1 for direction 3.
    fn sign(self) -> f32
        ensures { result ≡ spec.sign_of (number_of self) }
    {
        if self.is_reversed() { -1.0 } else { 1.0 }
    }

    // The part of the perimeter of a ring that belongs to one of so many points. They are at most 1024 as in `Drawable`: past 2^24
    // a count need not be a float. A type for such a count would be made in `polystar_of` alone, and taken apart here.
    #[tactic(auto, using(crate::proofs::Ways::perimeters))]
    fn perimeter(self, count: usize, radius: f32) -> f32
        requires { count ≤ 1024 }
        ensures { result ≡ spec.perimeter_of (number_of self) count radius }
    {
        let n = whole::from_whole(false, count as u64);
        if self.is_star() {
            2.0 * std::f32::consts::PI * radius / (n * 2.0)
        } else {
            2.0 * std::f32::consts::PI * radius / (n * 4.0)
        }
    }

    // The ring of so many points that has this radius and this roundness in percent. The count is bounded for `perimeter`.
    #[tactic(auto, unfolding(crate::specs::Polystar::ring_of))]
    fn ring(self, count: usize, radius: f32, roundness: f32) -> Ring
        requires { count ≤ 1024 }
        ensures { result ≡ spec.ring_of (number_of self) count radius roundness }
    {
        let size = float::abs(radius);
        Ring {
            radius: size,
            tangent: self.perimeter(count, size) * (roundness / 100.0) * self.sign(),
        }
    }
}

impl From<Mark> for u32 {
    ghost from_gives = { λ mark number. number ≡ number_of mark };

    fn from(mark: Mark) -> u32 {
        mark as u32
    }
}

// What any number says of a polystar. Those of other marks than 1, 2, 5 and 6 are turned back before one is made.
impl From<u32> for Mark {
    ghost from_gives = { λ number mark. mark ≡ mark_of number };

    fn from(number: u32) -> Mark {
        match (number % 4 == 1, number >= 4) {
            (true, false) => Mark::Star,
            (false, false) => Mark::Polygon,
            (true, true) => Mark::ReversedStar,
            (false, true) => Mark::ReversedPolygon,
        }
    }
}

// How many points there are, of so many whole ones: a star has an inner one after each.
// The mark is a number, as C lends it: what is promised holds of any, listed or not.
pub fn point_count(mark: u32, whole: usize) -> usize
    requires { whole ≤ 512 }
    ensures { result ≡ spec.point_count mark whole }
{
    if Mark::from(mark).is_star() {
        2 * whole
    } else {
        whole
    }
}

// Whether there is no star of so many whole points and these radii, or no polygon, which does not use the inner one.
// The mark is a number, as C lends it: what is promised holds of any, listed or not.
pub fn is_degenerate(mark: u32, whole: usize, outer: f32, inner: f32) -> bool
    ensures { result ≡ spec.is_degenerate mark whole outer inner }
{
    if Mark::from(mark).is_star() {
        whole < 2 || float::is_within(outer, f32::EPSILON) || float::is_within(inner, f32::EPSILON)
    } else {
        whole < 3 || float::is_within(outer, f32::EPSILON)
    }
}

// Where the first point stands.
fn start_of(rotation: f32) -> Turn
    requires { within number_limit rotation ≡ true }
    ensures { result ≡ spec.start_of rotation }
{
    Turn::by_sixteenths(angle::turn(rotation).sixteenths + 4320)
}

// The polystar of a mark, so many points and the eight numbers that a list starts with. Inner points of a polygon are outer ones.
// The mark is a number, as C lends it: what is promised holds of any, listed or not.
#[tactic(auto, using(crate::proofs::Ways::rings_alike), unfolding(crate::specs::Polystar::polystar_of))]
pub fn polystar_of(mark: u32, count: usize, list: &[f32]) -> Polystar
    requires { spec.Drawable count list.now }
    ensures { (result ≡ spec.polystar_of mark count list.now) × spec.Sound result }
{
    let mark = Mark::from(mark);
    let outer = mark.ring(count, list[3], list[5]);
    Polystar {
        centre: Point {
            x: list[0],
            y: list[1],
        },
        count,
        start: start_of(list[7]),
        reversed: mark.is_reversed(),
        outer,
        inner: if mark.is_star() {
            mark.ring(count, list[4], list[6])
        } else {
            outer
        },
    }
}

// A vector of length 1 across the one to (x, y), whose length is near a number.
#[tactic(auto, unfolding(crate::specs::Polystar::unit_perpendicular))]
fn unit_perpendicular(x: f32, y: f32, near: f32) -> Point
    ensures { result ≡ spec.unit_perpendicular x y }
{
    let length = root::hypot_near(x, y, near);
    if length <= f32::EPSILON {
        Point { x: 0.0, y: 0.0 }
    } else {
        Point {
            x: y / length,
            y: -x / length,
        }
    }
}

impl Ring {
    // Its vertex in a direction, with its tangents.
    #[tactic(auto, unfolding(crate::specs::Polystar::vertex_toward))]
    fn vertex_toward(self, centre: Point, toward: Direction) -> BezierVertex
        ensures { result ≡ spec.vertex_toward centre.x centre.y self toward }
    {
        let x = self.radius * toward.cosine;
        let y = self.radius * toward.sine;
        let normal = unit_perpendicular(x, y, self.radius);
        BezierVertex {
            ix: normal.x * self.tangent,
            iy: normal.y * self.tangent,
            ox: -normal.x * self.tangent,
            oy: -normal.y * self.tangent,
            x: centre.x + x,
            y: centre.y + y,
        }
    }
}

impl Polystar {
    // Where point k stands: so many sixteenths of a degree on from the first, or back for direction 3.
    #[tactic(auto, using(crate::proofs::Turns::turns))]
    fn turn_at(self, k: usize) -> Turn
        requires { spec.Sound self × (k < self.count) }
        ensures { result.sixteenths ≡ spec.turn_at self k }
    {
        let steps = (11520 * k + self.count) / (2 * self.count);
        if self.reversed {
            Turn::by_sixteenths(self.start.sixteenths + 5760 - steps)
        } else {
            Turn::by_sixteenths(self.start.sixteenths + steps)
        }
    }

    // The ring that point k is on.
    fn ring_at(self, k: usize) -> Ring
        ensures { result ≡ spec.ring_at self k }
    {
        if k % 2 == 0 { self.outer } else { self.inner }
    }

    // Point k.
    #[tactic(auto, unfolding(crate::specs::Polystar::point_at))]
    pub fn point_at(self, k: usize) -> BezierVertex
        requires { spec.Sound self × (k < self.count) }
        ensures { result ≡ spec.point_at self k }
    {
        let toward = angle::direction_at(self.turn_at(k));
        self.ring_at(k).vertex_toward(self.centre, toward)
    }
}
