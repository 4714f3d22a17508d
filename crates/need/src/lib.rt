// What a drawing needs of two buffers, told without drawing it: exactly the codes and numbers that it writes.
#![tactic(auto)]

ghost use Rattle.std.specs.Prelude.{◌≡◌};
ghost use Rattle.command.specs.Outcomes.{mapped};
ghost use Rattle.command.specs.Buffers.{need_of, pair_of};
ghost use Rattle.draw.specs.Paths.{draw_path};
ghost use Rattle.draw.specs.Items.{draw_source, draw_item};

use command::{Outcome, Size};
use item::ItemRow;
use shape::{Drawing, Shape};

// What a vertex list needs, or why it is refused: of the flag and the list as C lends them, which the checks judge.
#[tactic(auto, using(draw::proofs::Ways::path_ready, command::proofs::Verdicts::behind_value), unfolding(draw::specs::Paths::draw_path, shape::specs::Shape::shape_commands))]
pub fn path_need(closed: u32, vertices: &[f32], count: usize) -> Outcome<Size>
    ensures { mapped pair_of result ≡ need_of (draw_path closed vertices.now count) }
{
    draw::check_path(closed, vertices, count)?;
    let drawing = Drawing {
        shape: Shape::Path { closed, count },
        list: vertices,
    };
    Ok(drawing.need())
}

// What a row with listed entries needs, as each source of a merge is, or why it is refused. It is inlined in the loop over the
// sources of a merge as well as in the call below.
#[tactic(auto, using(draw::proofs::Ways::behind_checks, draw::proofs::Ways::source_made))]
#[inline(always)]
pub fn source_need(row: ItemRow, items: &[f32]) -> Outcome<Size>
    ensures { mapped pair_of result ≡ need_of (draw_source row items.now) }
{
    draw::check_source(row, items)?;
    let drawing = draw::shape_of(row, items)?;
    Ok(drawing.need())
}

// What one item row needs, or why it is refused.
#[tactic(auto, using(draw::proofs::Ways::item_fault, draw::proofs::Ways::item_drawn))]
pub fn item_need(row: &[u32], items: &[f32]) -> Outcome<Size>
    ensures { mapped pair_of result ≡ need_of (draw_item row.now items.now) }
{
    let row = draw::check_row(row)?;
    source_need(row, items)
}
