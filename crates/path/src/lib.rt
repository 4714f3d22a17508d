// The vertices of a path, and the segment between two, as in `build_bezier_path` of drawing_paths.rs.
#![tactic(auto)]

ghost use Rattle.std.specs.Prelude.{◌≡◌, ℕ, cond, ◌&&◌, ◌+◌, ◌*◌, ◌^◌, ◌<◌, ◌≤◌, length};
ghost use Rattle.path.specs.declared.BezierVertex.{BezierVertex};
ghost use Rattle.path.specs.Path.{vertex_at, approx_eq, is_line, bezier_segment, bezier_count, Sound};

use command::PathCommand;

// A vertex with its in-tangent and its out-tangent, both relative to it. Its six fields bear the names of the list of drawing_paths.rs,
// and `vertex_at` of specs/ reads them in its order, so it is no three points.
#[derive(Clone, Copy)]
pub struct BezierVertex {
    pub x: f32,
    pub y: f32,
    pub ix: f32,
    pub iy: f32,
    pub ox: f32,
    pub oy: f32,
}

// A vertex that a walk over a path has come to, and the place after the numbers on the way to it.
#[derive(Clone, Copy)]
pub struct Reached {
    pub vertex: BezierVertex,
    pub at: usize,
}

// Within 1e-4, equality included.
pub fn approx_eq(a: f32, b: f32) -> bool
    ensures { result ≡ approx_eq a b }
{
    float::is_within(a - b, 0.0001)
}

// Whether two points are within 1e-4 in each axis. By `&` and not `&&`, so that no branch hangs on how near they are.
// Four floats: they are fields of a vertex and sums of them, and no `Point` is at hand.
fn approx_eq_point(ax: f32, ay: f32, bx: f32, by: f32) -> bool
    ensures { result ≡ (approx_eq ax bx && approx_eq ay by) }
{
    approx_eq(ax, bx) & approx_eq(ay, by)
}

impl BezierVertex {
    // Whether the segment to the next vertex is a line: both control points are near their ends.
    pub fn is_line_to(self, next: BezierVertex) -> bool
        ensures { result ≡ is_line self next }
    {
        approx_eq_point(self.x, self.y, self.x + self.ox, self.y + self.oy)
            & approx_eq_point(next.x + next.ix, next.y + next.iy, next.x, next.y)
    }

    // The segment to the next vertex.
    #[tactic(auto, unfolding(crate::specs::Path::bezier_segment))]
    pub fn segment_to(self, next: BezierVertex) -> PathCommand
        ensures { result ≡ bezier_segment self next }
    {
        if self.is_line_to(next) {
            PathCommand::Line(next.x, next.y)
        } else {
            PathCommand::Cubic(
                self.x + self.ox,
                self.y + self.oy,
                next.x + next.ix,
                next.y + next.iy,
                next.x,
                next.y,
            )
        }
    }
}

// The vertex at a place of a list of numbers, of any that is long enough: `Vertices` asks for at most 1024 besides, and a public function
// may not ask more. By index: a chunk of six would be asked whether it is there, which the contract says already.
pub fn vertex_at(vertices: &[f32], k: usize) -> BezierVertex
    requires { 6 * k + 6 ≤ length vertices.now }
    ensures { result ≡ vertex_at vertices.now k }
{
    let i = 6 * k;
    BezierVertex {
        x: vertices[i],
        y: vertices[i + 1],
        ix: vertices[i + 2],
        iy: vertices[i + 3],
        ox: vertices[i + 4],
        oy: vertices[i + 5],
    }
}

// Vertices that a path goes through, each known by its number.
pub trait Outline {
    ghost count: { Self → ℕ };

    ghost vertex: { Self → ℕ → BezierVertex };

    // How many there are.
    fn count(&self) -> usize
        ensures { result ≡ count self.now };

    // Vertex k, counted from 0.
    fn vertex(&self, k: usize) -> BezierVertex
        requires { k < count self.now }
        ensures { result ≡ vertex self.now k };

    ghost some: { (outline : Self) → 0 < count outline };

    ghost few: { (outline : Self) → count outline ≤ 1024 };
}

// The vertices of a list of numbers, which has six for each. C lends the flat list with its length and the count apart, and that it
// holds so many is a check of its own, so they are kept as lent and not as a list of sixes. The closed flag stays beside it: an outline
// has none, and each function that takes both parts them at once.
#[derive(Clone, Copy)]
pub struct Vertices<'a> {
    pub numbers: &'a [f32],
    pub count: usize,
    pub ghost sound: { Sound numbers.now count },
}

impl Outline for Vertices<'_> {
    ghost count = { λ list. list.count };

    ghost vertex = { λ list. vertex_at list.numbers.now };

    ghost some = { λ list. list.sound.some };

    ghost few = { λ list. list.sound.few };

    fn count(&self) -> usize {
        self.count
    }

    fn vertex(&self, k: usize) -> BezierVertex {
        vertex_at(self.numbers, k)
    }
}

// Where the end of a segment stands whose numbers start at a place: a cubic has its control points before it.
pub fn end_place(line: bool, at: usize) -> usize
    requires { at + 4 < 2 ^ 64 }
    ensures { result ≡ cond line at (at + 4) }
{
    if line { at } else { at + 4 }
}

// How many commands the path has. The flag stays the number that C lends, as in each function that takes it: with any number but
// 1 a path is open, and a bool would ask the caller to say so first. The count is asked for as such, and not with the vertices: it is all
// that this hangs on.
pub fn bezier_count(closed: u32, count: usize) -> usize
    requires { count ≤ 1024 }
    ensures { result ≡ bezier_count closed count }
{
    if count == 1 {
        return 2;
    }
    if closed == 1 { count + 2 } else { count }
}
