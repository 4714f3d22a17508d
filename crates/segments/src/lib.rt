// How many numbers a path has, counted without writing it: two for each line and six for each cubic. The cubics
// that a list begins with are passed over, four at a time. From there on each vertex is carried over from segment to segment, as
// where they are written, and no branch hangs on which of the two a segment is: a list of both kinds is counted as fast as one of
// lines.
#![tactic(auto)]

ghost use Rattle.std.specs.Prelude.{◌≡◌, Bool, ◌&&◌, ◌+◌, ◌-◌, ◌*◌, ◌<◌, ◌≤◌, length, drop};
ghost use Rattle.command.specs.Commands.{numbers_of};
ghost use Rattle.path.specs.Path.{vertex_at, path_commands};
ghost use Rattle.path.specs.Between.{path_along, segments_along};
ghost use Rattle.segments.specs.Leaves.{leaves, Passed};

use path::{Outline, Reached, Vertices};

// Whether the x of the out-tangent at vertex j is enough to make the segment from there a cubic. Of the list alone, as `vertex_at` takes
// it: with `Vertices` each clause would name `vertices.now.numbers.now`.
fn leaves(vertices: &[f32], j: usize) -> bool
    requires { 6 * j + 6 ≤ length vertices.now }
    ensures { result ≡ leaves (vertex_at vertices.now j) }
{
    let i = 6 * j;
    let x = vertices[i];
    !path::approx_eq(x, x + vertices[i + 4])
}

// Whether it is at four vertices from j on.
fn four_leave(vertices: &[f32], j: usize) -> bool
    requires { 6 * j + 24 ≤ length vertices.now }
    ensures { result ≡ ((leaves (vertex_at vertices.now j) && leaves (vertex_at vertices.now (j + 1)))
        && (leaves (vertex_at vertices.now (j + 2)) && leaves (vertex_at vertices.now (j + 3)))) }
{
    (leaves(vertices, j) & leaves(vertices, j + 1))
        & (leaves(vertices, j + 2) & leaves(vertices, j + 3))
}

// A vertex before which there are only cubics. A list of cubics is passed over four at a time, up to its last few.
#[tactic(auto, using(crate::proofs::Ways::passed_four))]
fn cubics_before(vertices: &Vertices<'_>) -> usize
    ensures { Passed (vertex_at vertices.now.numbers.now) vertices.now.count result }
{
    // A loop that returns: by `find` over the fours the proof did not close at once.
    let fours = (vertices.count - 1) / 4;
    for k in 0..fours {
        if !four_leave(vertices.numbers, 4 * k) {
            return 4 * k;
        }
    }
    4 * fours
}

// How many numbers a move and the segments between the vertices have, and the last vertex; those before `start` are cubics. They are
// counted by the place of a segment's end: so the compiler tests the four differences of a segment together. `start` and its `Passed` are
// no type: its ghost field would name the outline, so it would have to hold that too.
#[tactic(auto, using(crate::proofs::Tally::tallies))]
fn numbers_between<O: Outline>(outline: &O, start: usize) -> Reached
    requires { Passed (O.vertex outline.now) (O.count outline.now) start }
    ensures vertex_value { result.vertex ≡ O.vertex outline.now (O.count outline.now - 1) }
    ensures at_value { result.at ≡ 2 + length (numbers_of (segments_along (O.vertex outline.now) (O.count outline.now))) }
{
    let mut a = outline.vertex(start);
    let mut at = 2 + 6 * start;
    for k in start + 1..outline.count() {
        let b = outline.vertex(k);
        at = path::end_place(a.is_line_to(b), at) + 2;
        a = b;
    }
    Reached { vertex: a, at }
}

// How many numbers the path of an outline has, of whose segments those before `start` are cubics.
#[tactic(auto, using(crate::proofs::Tally::totals))]
pub fn outline_numbers<O: Outline>(closed: bool, outline: &O, start: usize) -> usize
    requires { Passed (O.vertex outline.now) (O.count outline.now) start }
    ensures { result ≡ length (numbers_of (path_along closed (O.vertex outline.now) (O.count outline.now))) }
{
    if outline.count() == 1 {
        return 4;
    }
    let reached = numbers_between(outline, start);
    if closed {
        let line = reached.vertex.is_line_to(outline.vertex(0));
        return path::end_place(line, reached.at) + 2;
    }
    reached.at
}

// How many numbers the path of a list of vertices has. The flag is the number that C lends: with any but 1 the path is open.
#[tactic(auto, using(path::proofs::Along::commands_along))]
pub fn path_numbers(closed: u32, vertices: &Vertices<'_>) -> usize
    ensures { result ≡ length (numbers_of (path_commands closed vertices.now.numbers.now vertices.now.count)) }
{
    outline_numbers(closed == 1, vertices, cubics_before(vertices))
}
