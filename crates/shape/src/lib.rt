// A drawing of any kind: what it needs of two buffers, and its commands written to them.
#![tactic(auto)]

ghost use Rattle.std.specs.Prelude.{◌≡◌, true, ◌&&◌, ◌≤◌, leb, length};
ghost use Rattle.command.specs.Buffers.{in_buffers, DrawnInto, size_of, pair_of};
ghost use Rattle.rect.specs.Bounds.{rect_bounds};
ghost use Rattle.rect.specs.Rect.{rect_path};
ghost use Rattle.ellipse.specs.Ellipse.{ellipse_path};
ghost use Rattle.sheet.specs.Sheets.{HasRoom, Wrote};
ghost use Rattle.path.specs.Path.{path_commands};
ghost use Rattle.shape.specs.Shape.{frame_of, shape_commands, Fit};

use command::{Outcome, Refusal, Size};
use path::Vertices;
use point::Point;
use rect::Frame;
use sheet::Sheet;

// What is to be drawn, and what decides how much of it there is. Its numbers stand in the list of a `Drawing`.
#[derive(Clone, Copy)]
pub enum Shape {
    // The closed flag, as C lends it: with any number but 1 the path is open, and a bool would ask more of who makes a shape.
    // And how many vertices: the list has six numbers for each.
    Path { closed: u32, count: usize },
    // The radius of the corners. The list has the centre and the size.
    Rect(f32),
    // The list has the centre and the size.
    Ellipse,
}

// A shape and the list that its numbers start: they are all there, and it has at least one vertex and not too many.
#[derive(Clone, Copy)]
pub struct Drawing<'a> {
    pub shape: Shape,
    pub list: &'a [f32],
    pub ghost fits: { Fit shape list.now },
}

// What a path needs: each of its segments may be a line or a cubic, so all are looked at. This is a call of its own, so that
// `need`, which stays small, can be inlined.
#[tactic(auto, using(crate::proofs::Ways::path_sized))]
#[inline(never)]
fn path_need(closed: u32, vertices: &Vertices<'_>) -> Size
    ensures { pair_of result ≡ size_of (path_commands closed vertices.now.numbers.now vertices.now.count) }
{
    Size {
        codes: path::bezier_count(closed, vertices.count),
        numbers: segments::path_numbers(closed, vertices),
    }
}

// The centre and the size that are the first four numbers of a list. By index: a chunk of four would be asked whether it is there, which
// the contract says already.
fn frame_of(list: &[f32]) -> Frame
    requires { 4 ≤ length list.now }
    ensures { result ≡ frame_of list.now }
{
    Frame {
        centre: Point {
            x: list[0],
            y: list[1],
        },
        size: Point {
            x: list[2],
            y: list[3],
        },
    }
}

// Writes a rectangle.
#[tactic(auto, unfolding(rect::specs::Rect::rect_path))]
fn write_rect(radius: f32, frame: Frame, sheet: &mut Sheet)
    requires { HasRoom (rect_path (rect_bounds frame.centre.x frame.centre.y frame.size.x frame.size.y) radius) sheet.old }
    ensures { Wrote (rect_path (rect_bounds frame.centre.x frame.centre.y frame.size.x frame.size.y) radius) sheet.old sheet.new }
{
    let bounds = frame.bounds();
    if rect::is_plain(radius) {
        sheet.put_all(&rect::plain_commands(bounds));
    } else {
        sheet.put_all(&rect::round_commands(bounds, radius));
    }
}

// Writes an ellipse.
fn write_ellipse(frame: Frame, sheet: &mut Sheet)
    requires { HasRoom (ellipse_path frame.centre.x frame.centre.y frame.size.x frame.size.y) sheet.old }
    ensures { Wrote (ellipse_path frame.centre.x frame.centre.y frame.size.x frame.size.y) sheet.old sheet.new }
{
    sheet.put_all(&ellipse::ellipse_commands(frame));
}

// Whether there is room for so many codes and numbers.
fn holds(room: Size, size: Size) -> bool
    ensures { result ≡ (leb size.codes room.codes && leb size.numbers room.numbers) }
{
    size.codes <= room.codes && size.numbers <= room.numbers
}

impl<'a> Drawing<'a> {
    ghost use Rattle.shape.specs.Drawings.{commands_of};

    // What it needs, exactly: the one count that drawing, telling and merging go by.
    #[tactic(auto, using(crate::proofs::Ways::path_fits), unfolding(crate::specs::Shape::shape_commands, ellipse::specs::Ellipse::ellipse_path))]
    #[inline(always)]
    pub fn need(&self) -> Size
        ensures { pair_of result ≡ size_of (commands_of self.now) }
    {
        match self.shape {
            Shape::Path { closed, count } => path_need(
                closed,
                &Vertices {
                    numbers: self.list,
                    count,
                },
            ),
            Shape::Rect(radius) => rect::rect_size(radius),
            Shape::Ellipse => Size {
                codes: 6,
                numbers: 26,
            },
        }
    }

    // Writes it with a sheet of the caller's own.
    #[tactic(auto, using(crate::proofs::Ways::path_fits), unfolding(crate::specs::Shape::shape_commands))]
    fn write(&self, sheet: &mut Sheet)
        requires { HasRoom (commands_of self.now) sheet.old }
        ensures { Wrote (commands_of self.now) sheet.old sheet.new }
    {
        match self.shape {
            Shape::Path { closed, count } => {
                let vertices = Vertices {
                    numbers: self.list,
                    count,
                };
                segment_writer::write_path(closed, &vertices, sheet)
            }
            Shape::Rect(radius) => write_rect(radius, frame_of(self.list), sheet),
            Shape::Ellipse => write_ellipse(frame_of(self.list), sheet),
        }
    }

    // Writes it to a sheet that has room for it: by a sheet made here, whose places the compiler keeps in registers. Those of a sheet
    // that is lent it would store after each segment, since it cannot tell that no number is written over them.
    pub fn put(&self, sheet: &mut Sheet)
        requires { HasRoom (commands_of self.now) sheet.old }
        ensures { Wrote (commands_of self.now) sheet.old sheet.new }
    {
        let mut own = Sheet {
            codes: &mut *sheet.codes,
            numbers: &mut *sheet.numbers,
            at: sheet.at,
        };
        self.write(&mut own);
        sheet.at = own.at;
    }

    // Whether so much room is enough for any path of so many vertices, so that this one need not be counted.
    // What the other kinds need is told without a look at their numbers.
    #[tactic(auto, using(crate::proofs::Ways::path_fits, crate::proofs::Ways::path_ample))]
    fn is_ample(&self, room: Size) -> bool
        ensures { result ≡ true → in_buffers room.codes room.numbers (commands_of self.now) ≡ true }
    {
        match self.shape {
            Shape::Path { count, .. } => count + 2 <= room.codes && 6 * count + 2 <= room.numbers,
            Shape::Rect(_) | Shape::Ellipse => false,
        }
    }

    // Whether there is room for it.
    #[tactic(auto, using(crate::proofs::Ways::fits_by_need))]
    fn is_within(&self, room: Size) -> bool
        ensures { result ≡ in_buffers room.codes room.numbers (commands_of self.now) }
    {
        self.is_ample(room) || holds(room, self.need())
    }

    // Writes it from the start of two buffers, if it fits them. They stay as C lends them until they are known to have room: only then
    // is a sheet made of them.
    #[tactic(auto, using(crate::proofs::Ways::codes_held, crate::proofs::Ways::numbers_held))]
    pub fn draw(&self, codes: &mut [u8], numbers: &mut [f32]) -> Outcome<Size>
        ensures { DrawnInto (Ok (commands_of self.now)) result codes.old codes.new numbers.old numbers.new }
    {
        let room = Size {
            codes: codes.len(),
            numbers: numbers.len(),
        };
        if self.is_within(room) {
            let at = Size::default();
            let mut sheet = Sheet { codes, numbers, at };
            self.put(&mut sheet);
            Ok(sheet.at)
        } else {
            Err(Refusal::BufferTooSmall)
        }
    }
}
