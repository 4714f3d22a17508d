// Writes a path, a segment at a time. Each vertex is asked for once: it is the end of a segment, and is carried over as the start of
// the next one. The first is kept, as the end of the segment that closes the path.
#![tactic(auto)]

ghost use Rattle.std.specs.Prelude.{◌≡◌, cond, [], ◌∷◌, ◌-◌, ◌<◌};
ghost use Rattle.path.specs.Path.{bezier_segment, path_commands};
ghost use Rattle.path.specs.Between.{path_along, segments_along};
ghost use Rattle.sheet.specs.Sheets.{HasRoom, Wrote};
ghost use Rattle.segment_writer.specs.Followed.{FollowedRoom, Followed};

use command::{PathCommand, Size};
use path::{BezierVertex, Outline, Vertices};
use sheet::Sheet;

// The code of a segment: that of `PathCommand::code` for a line or a cubic, told without a branch and before there is a command.
fn segment_code(line: bool) -> u8
    ensures { result ≡ cond line 1 2 }
{
    if line { 1 } else { 2 }
}

// Writes a segment which two numbers or more are to follow, with no branch on what it is: its control points, and then its end,
// which of a line stands in the place of the first. The second is left after it, where what follows will stand.
#[tactic(auto, using(path::proofs::Segment::segment_numbers, crate::proofs::Ways::end_room))]
fn put_followed(a: BezierVertex, b: BezierVertex, sheet: &mut Sheet)
    requires { FollowedRoom (bezier_segment a b) sheet.old }
    ensures { Followed (bezier_segment a b ∷ []) sheet.old sheet.new }
{
    let line = a.is_line_to(b);
    let at = sheet.at.numbers;
    let ahead = [a.x + a.ox, a.y + a.oy, b.x + b.ix, b.y + b.iy];
    command::put(sheet.numbers, at, ahead);
    sheet.codes[sheet.at.codes] = segment_code(line);
    sheet.at = Size {
        codes: sheet.at.codes + 1,
        numbers: command::put(sheet.numbers, path::end_place(line, at), [b.x, b.y]),
    };
}

// Writes the segments between the vertices, of which the first is known, and gives the last. After the last segment nothing may be
// left, so that one is put as it is.
fn write_segments<O: Outline>(outline: &O, first: BezierVertex, sheet: &mut Sheet) -> BezierVertex
    requires several { 1 < O.count outline.now }
    requires first_is { first ≡ O.vertex outline.now 0 }
    requires room { HasRoom (segments_along (O.vertex outline.now) (O.count outline.now)) sheet.old }
    ensures last { result ≡ O.vertex outline.now (O.count outline.now - 1) }
    ensures wrote { Wrote (segments_along (O.vertex outline.now) (O.count outline.now)) sheet.old sheet.new }
{
    let last = outline.count() - 1;
    let mut a = first;
    for k in 1..last {
        let b = outline.vertex(k);
        put_followed(a, b, sheet);
        a = b;
    }
    let b = outline.vertex(last);
    sheet.put(a.segment_to(b));
    b
}

// Writes the path of an outline.
#[tactic(auto, using(path::proofs::Along::along_one, crate::proofs::Outlined::begin_room))]
pub fn write_outline<O: Outline>(closed: bool, outline: &O, sheet: &mut Sheet)
    requires { HasRoom (path_along closed (O.vertex outline.now) (O.count outline.now)) sheet.old }
    ensures { Wrote (path_along closed (O.vertex outline.now) (O.count outline.now)) sheet.old sheet.new }
{
    let first = outline.vertex(0);
    let start = PathCommand::Move(first.x, first.y);
    if outline.count() == 1 {
        sheet.put_all(&[start, PathCommand::Line(first.x, first.y)]);
        return;
    }
    sheet.put(start);
    let last = write_segments(outline, first, sheet);
    if closed {
        sheet.put_all(&[last.segment_to(first), PathCommand::Close]);
    }
}

// Writes the path of a list of vertices. The flag is the number that C lends: with any but 1 the path is open.
#[tactic(auto, using(path::proofs::Along::commands_along))]
pub fn write_path(closed: u32, vertices: &Vertices<'_>, sheet: &mut Sheet)
    requires { HasRoom (path_commands closed vertices.now.numbers.now vertices.now.count) sheet.old }
    ensures { Wrote (path_commands closed vertices.now.numbers.now vertices.now.count) sheet.old sheet.new }
{
    write_outline(closed == 1, vertices, sheet);
}
