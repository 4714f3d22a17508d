// Rows read as nested items: the rules for a list of rows, and which groups are empty.
#![tactic(auto)]

ghost use Rattle.std.specs.Prelude.{◌≡◌, ◌*◌, ◌≤◌, ◌<◌, ◌↔◌, IsNone, IfSome, length, map, true};
ghost use Rattle.std.specs.List.{list_all};
ghost use Rattle.item.specs.Rows.{row_of, is_listed};
ghost use Rattle.nest.specs.Lists.{rows_from, is_shallow, deepest_after, is_nested};
ghost use Rattle.nest.specs.Flat.{is_plain_child, children_empty, group_empty};

use item::{ItemRow, Kind};

// The first n rows of a list of numbers, which has six for each, if there are so many. C lends the list and n apart: they may disagree.
pub fn first_rows(entries: &[u32], n: usize) -> Option<&[[u32; 6]]>
    ensures none { IsNone result ↔ (length entries.now < 6 * n) }
    ensures some { IfSome result (λ rows. map row_of rows.now ≡ rows_from entries.now 0 n) }
{
    let (rows, _) = entries.as_chunks::<6>();
    rows.get(..n)
}

// Whether no row is more than 8 deep.
pub fn each_shallow(rows: &[[u32; 6]]) -> bool
    ensures { result ≡ list_all is_shallow (map row_of rows.now) }
{
    rows.iter()
        .map(|row| ItemRow::from(*row))
        .all(|row| row.depth <= 8)
}

// Whether each row has only listed entries.
pub fn each_listed(rows: &[[u32; 6]]) -> bool
    ensures { result ≡ list_all is_listed (map row_of rows.now) }
{
    rows.iter()
        .map(|row| ItemRow::from(*row))
        .all(|row| row.is_listed())
}

// How deep the row after this one may be.
fn deepest_after(row: ItemRow) -> u32
    requires { row.depth ≤ 8 }
    ensures { result ≡ deepest_after row }
{
    if row.kind == Kind::Group {
        row.depth + 1
    } else {
        row.depth
    }
}

// Whether the rows are nested: only a group has rows below it, and they are one deeper.
#[tactic(auto, unfolding(crate::specs::Lists::is_nested))]
pub fn is_nested(rows: &[[u32; 6]]) -> bool
    requires { list_all is_shallow (map row_of rows.now) ≡ true }
    ensures { result ≡ is_nested 0 (map row_of rows.now) }
{
    let mut deepest = 0;
    for entries in rows {
        let row = ItemRow::from(*entries);
        if row.depth > deepest {
            return false;
        }
        deepest = deepest_after(row);
    }
    true
}

// Whether a row inside a group of this depth is a child that only an empty group may be: visible, and no tr.
fn is_plain_child(row: ItemRow, group: u32) -> bool
    requires { group < row.depth }
    ensures { result ≡ is_plain_child group row }
{
    row.depth - group == 1 && row.hidden == 0 && row.kind != Kind::Transform
}

// Whether a row, with the rows after it, is a group with nothing to draw: `group_is_render_merge_noop` of drawing_paths.rs.
// It is inlined, so that a walk over nested groups calls itself once for each and hands no row on.
#[cycle(children_empty_group_empty)]
#[tactic(auto, unfolding(crate::specs::Flat::group_empty))]
#[inline(always)]
pub fn group_empty(row: ItemRow, after: &[[u32; 6]]) -> bool
    ensures { result ≡ group_empty row (map row_of after.now) }
{
    row.kind == Kind::Group && children_empty(after, row.depth)
}

// Whether each child of a group at this depth is hidden, a tr or an empty group. The group's rows come first.
// No `for` over the rows, since whether a child is an empty group hangs on all the rows after it as well.
#[cycle(children_empty_group_empty)]
#[tactic(auto, using(crate::proofs::Children::child_steps), unfolding(crate::specs::Flat::children_empty))]
fn children_empty(rows: &[[u32; 6]], group: u32) -> bool
    ensures { result ≡ children_empty group (map row_of rows.now) }
{
    let mut rest = rows;
    while let Some((entries, after)) = rest.split_first() {
        let row = ItemRow::from(*entries);
        if row.depth <= group {
            return true;
        }
        if is_plain_child(row, group) && !group_empty(row, after) {
            return false;
        }
        rest = after;
    }
    true
}
