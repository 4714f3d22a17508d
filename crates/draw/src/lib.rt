// The calls that draw a vertex list or one item row: the checks in document 01's order, then the writing.
#![tactic(auto)]

ghost use Rattle.std.specs.Prelude.{◌≡◌, ◌+◌, ◌≤◌, length, drop, false, IfOk};
ghost use Rattle.command.specs.Outcomes.{checked, mapped};
ghost use Rattle.command.specs.Buffers.{DrawnInto};
ghost use Rattle.item.specs.Rows.{item_row, entries_of};
ghost use Rattle.shape.specs.Drawings.{commands_of};
ghost use Rattle.draw.specs.Paths.{path_checks, draw_path};
ghost use Rattle.draw.specs.Items.{is_drawable, is_held_back, has_no_vertices, source_checks, shape_drawn, draw_source, item_checks, draw_item};

use command::{Outcome, Refusal, Size};
use item::{ItemRow, Kind};
use shape::{Drawing, Shape};

// The checks of a vertex list, all but that of the buffers: of the flag and the list as C lends them, since it is these checks that
// tell a flag that is listed, and a list that holds so many vertices, from one that is refused.
#[tactic(auto, unfolding(crate::specs::Paths::path_checks))]
pub fn check_path(closed: u32, vertices: &[f32], count: usize) -> Outcome<()>
    ensures { result ≡ checked (path_checks closed vertices.now count) (Ok tt) }
{
    if count == 0 {
        return Err(Refusal::Empty);
    }
    if count > 1024 {
        return Err(Refusal::TooMany);
    }
    if closed > 1 {
        return Err(Refusal::Unlisted);
    }
    let n = 6 * count;
    if vertices.len() < n {
        return Err(Refusal::OutOfBounds);
    }
    if float::all_within(&vertices[..n], 1048576.0) {
        Ok(())
    } else {
        Err(Refusal::OutOfRange)
    }
}

// Whether a row that is to be drawn has only listed entries, its kind being one that can be drawn.
#[tactic(auto, unfolding(crate::specs::Items::is_drawable))]
fn is_drawable(row: ItemRow) -> bool
    ensures { result ≡ is_drawable row }
{
    row.is_listed() && row.kind.is_source()
}

// Whether a row is a path without vertices.
fn has_no_vertices(row: ItemRow) -> bool
    ensures { result ≡ has_no_vertices row }
{
    row.kind == Kind::Path && row.count == 0
}

// Whether a row is of a kind that is not drawn yet.
fn is_held_back(row: ItemRow) -> bool
    ensures { result ≡ is_held_back row }
{
    !matches!(row.kind, Kind::Path | Kind::Rect | Kind::Ellipse)
}

// What a row whose numbers are there and within the limit says is to be drawn, or why it cannot be. A row and the list of all rows'
// numbers are no one value, here and below: what hands such a one on is not inlined (docs/DECISIONS.md, Speed, 12), and it could
// not hold the three facts asked for here, which only a checked row has.
#[tactic(auto, using(crate::proofs::Ways::kinds), unfolding(crate::specs::Items::shape_drawn, crate::specs::Items::item_shape))]
pub fn shape_of<'a>(row: ItemRow, items: &'a [f32]) -> Outcome<Drawing<'a>>
    requires { (has_no_vertices row ≡ false) × (row.count ≤ 1024) × (row.place + entries_of row ≤ length items.now) }
    ensures drawn { mapped commands_of result ≡ shape_drawn row (drop row.place items.now) }
    ensures placed { IfOk result (λ d. d.list.now ≡ drop row.place items.now) }
{
    let list = &items[row.place..];
    let shape = match row.kind {
        Kind::Path => Shape::Path {
            closed: row.mark,
            count: row.count,
        },
        Kind::Rect => Shape::Rect(rect::corner_radius(list[2], list[3], list[4])),
        Kind::Ellipse => Shape::Ellipse,
        _ => return Err(Refusal::Unsupported),
    };
    Ok(Drawing { shape, list })
}

// The checks of a row with listed entries, all but that of the buffers.
#[tactic(auto, using(crate::proofs::Ways::sources), unfolding(crate::specs::Items::source_checks))]
pub fn check_source(row: ItemRow, items: &[f32]) -> Outcome<()>
    ensures { result ≡ checked (source_checks row items.now) (Ok tt) }
{
    if is_held_back(row) {
        return Err(Refusal::Unsupported);
    }
    if has_no_vertices(row) {
        return Err(Refusal::Empty);
    }
    if row.count > 1024 {
        return Err(Refusal::TooMany);
    }
    let place = row.place;
    let n = row.entries();
    if items.len() < n || items.len() - n < place {
        return Err(Refusal::OutOfBounds);
    }
    if float::all_within(&items[place..place + n], 1048576.0) {
        Ok(())
    } else {
        Err(Refusal::OutOfRange)
    }
}

// One item row, if it is there and may be asked to be drawn.
#[tactic(auto, using(crate::proofs::Ways::row_taken), unfolding(crate::specs::Items::item_checks))]
pub fn check_row(row: &[u32]) -> Outcome<ItemRow>
    ensures { result ≡ checked (item_checks row.now) (Ok (item_row row.now 0)) }
{
    let entries = row.first_chunk::<6>().ok_or(Refusal::OutOfBounds)?;
    let row = ItemRow::from(*entries);
    if is_drawable(row) {
        Ok(row)
    } else {
        Err(Refusal::Unlisted)
    }
}

// Draws the first `count` vertices of a list, each of six numbers, into two buffers: the flag, the list and the buffers as C lends them.
// `need::path_need` makes the same drawing, and `need::source_need` that of `draw_source`, each after the same checks: one function
// of both would be larger than the compiler inlines by itself (docs/DECISIONS.md, Speed, 12).
#[tactic(auto, using(crate::proofs::Ways::path_ready, command::proofs::Verdicts::behind_value), unfolding(crate::specs::Paths::draw_path, shape::specs::Shape::shape_commands))]
pub fn draw_path(
    closed: u32,
    vertices: &[f32],
    count: usize,
    codes: &mut [u8],
    numbers: &mut [f32],
) -> Outcome<Size>
    ensures { DrawnInto (draw_path closed vertices.now count) result codes.old codes.new numbers.old numbers.new }
{
    check_path(closed, vertices, count)?;
    let drawing = Drawing {
        shape: Shape::Path { closed, count },
        list: vertices,
    };
    drawing.draw(codes, numbers)
}

// Draws a row with listed entries into two buffers.
#[tactic(auto, using(crate::proofs::Ways::behind_checks, crate::proofs::Ways::source_made))]
fn draw_source(row: ItemRow, items: &[f32], codes: &mut [u8], numbers: &mut [f32]) -> Outcome<Size>
    ensures { DrawnInto (draw_source row items.now) result codes.old codes.new numbers.old numbers.new }
{
    check_source(row, items)?;
    let drawing = shape_of(row, items)?;
    drawing.draw(codes, numbers)
}

// Draws one item row into two buffers.
#[tactic(auto, using(crate::proofs::Ways::item_drawn))]
pub fn draw_item(row: &[u32], items: &[f32], codes: &mut [u8], numbers: &mut [f32]) -> Outcome<Size>
    ensures { DrawnInto (draw_item row.now items.now) result codes.old codes.new numbers.old numbers.new }
{
    let row = check_row(row)?;
    draw_source(row, items, codes, numbers)
}
