// The sources of a merge drawn one after another: judged and counted whole, then written.
#![tactic(auto)]

ghost use Rattle.std.specs.Prelude.{◌≡◌, true, ◌≤◌, length, map};
ghost use Rattle.command.specs.Outcomes.{list_of, mapped};
ghost use Rattle.command.specs.Buffers.{pair_of, DrawnInto, need_of};
ghost use Rattle.sheet.specs.Sheets.{HasRoom, Wrote};
ghost use Rattle.item.specs.Rows.{row_of};
ghost use Rattle.join.specs.Merge.{draw_merge};
ghost use Rattle.join.specs.Sources.{is_accepted, draw_row, draw_rows};

use command::{Outcome, Refusal, Size};
use item::ItemRow;
use sheet::Sheet;

// What a row needs: nothing where it is no source.
#[tactic(auto, using(crate::proofs::Ways::row_needs))]
fn row_need(row: ItemRow, items: &[f32]) -> Outcome<Size>
    ensures { mapped pair_of result ≡ need_of (draw_row row items.now) }
{
    if merge::is_source(row) {
        need::source_need(row, items)
    } else {
        Ok(Size::default())
    }
}

// What the sources among rows need together, or the first refusal of one. The rows and the numbers of all rows are two lists of C's.
#[tactic(auto, using(crate::proofs::Ways::rows_needs))]
fn rows_need(rows: &[[u32; 6]], items: &[f32]) -> Outcome<Size>
    requires { length rows.now ≤ 256 }
    ensures { mapped pair_of result ≡ need_of (draw_rows (map row_of rows.now) items.now) }
{
    let mut codes = 0;
    let mut numbers = 0;
    for entries in rows {
        let need = row_need(ItemRow::from(*entries), items)?;
        codes += need.codes;
        numbers += need.numbers;
    }
    Ok(Size { codes, numbers })
}

// Writes what a row draws, which is known to be drawn, to a sheet that has room for it.
#[tactic(auto, using(crate::proofs::Ways::row_writes))]
fn write_row(row: ItemRow, items: &[f32], sheet: &mut Sheet)
    requires value { is_accepted (draw_row row items.now) ≡ true }
    requires room { HasRoom (list_of (draw_row row items.now)) sheet.old }
    ensures { Wrote (list_of (draw_row row items.now)) sheet.old sheet.new }
{
    if merge::is_source(row) {
        if let Ok(drawing) = draw::shape_of(row, items) {
            drawing.put(sheet);
        }
    }
}

// Writes what rows draw, one after another.
#[tactic(auto, using(crate::proofs::Ways::rows_writes))]
fn write_rows(rows: &[[u32; 6]], items: &[f32], sheet: &mut Sheet)
    requires value { is_accepted (draw_rows (map row_of rows.now) items.now) ≡ true }
    requires room { HasRoom (list_of (draw_rows (map row_of rows.now) items.now)) sheet.old }
    ensures { Wrote (list_of (draw_rows (map row_of rows.now) items.now)) sheet.old sheet.new }
{
    for entries in rows {
        write_row(ItemRow::from(*entries), items, sheet);
    }
}

// Draws the sources among rows into two buffers, if they fit. The two stay as C lends them until they are known to have room: only then
// is a sheet made of them. The test is the opposite of `holds` of `shape`, which takes two sizes: making one here would be longer.
#[tactic(auto, using(crate::proofs::Ways::joins))]
fn join_rows(
    rows: &[[u32; 6]],
    items: &[f32],
    codes: &mut [u8],
    numbers: &mut [f32],
) -> Outcome<Size>
    requires { length rows.now ≤ 256 }
    ensures { DrawnInto (draw_rows (map row_of rows.now) items.now) result codes.old codes.new numbers.old numbers.new }
{
    let need = rows_need(rows, items)?;
    if need.codes > codes.len() || need.numbers > numbers.len() {
        return Err(Refusal::BufferTooSmall);
    }
    let at = Size::default();
    let mut sheet = Sheet { codes, numbers, at };
    write_rows(rows, items, &mut sheet);
    Ok(need)
}

// Draws the merge of the first n rows into two buffers. The rows and their number stay apart, here and below, as C lends them: that
// the list holds so many is a check of its own, in its place among the others.
#[tactic(auto, using(crate::proofs::Ways::merges))]
pub fn draw_merge(
    rows: &[u32],
    n: usize,
    items: &[f32],
    codes: &mut [u8],
    numbers: &mut [f32],
) -> Outcome<Size>
    ensures { DrawnInto (draw_merge rows.now n items.now) result codes.old codes.new numbers.old numbers.new }
{
    let before = merge::decide(rows, n)?;
    join_rows(before, items, codes, numbers)
}

// What the merge of the first n rows needs, or why it is refused.
#[tactic(auto, using(crate::proofs::Ways::merges))]
pub fn merge_need(rows: &[u32], n: usize, items: &[f32]) -> Outcome<Size>
    ensures { mapped pair_of result ≡ need_of (draw_merge rows.now n items.now) }
{
    let before = merge::decide(rows, n)?;
    rows_need(before, items)
}
