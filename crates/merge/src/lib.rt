// Which rows a merge joins, settled on the rows alone.
#![tactic(auto)]

ghost use Rattle.std.specs.Prelude.{◌≡◌, ◌<◌, IfSome, length, map, true};
ghost use Rattle.item.specs.Rows.{row_of};
ghost use Rattle.merge.specs.Flat.{is_top, is_union_row, is_source_row, precedes, follows, clean_after, scan_from, late_from, rows_before};
ghost use Rattle.merge.specs.Decision.{decision, said, Settled};
ghost use Rattle.command.specs.Outcomes.{mapped};

use command::{Outcome, Refusal};
use item::{ItemRow, Kind};

// Whether a row is visible at depth 0.
fn is_top(row: ItemRow) -> bool
    ensures { result ≡ is_top row }
{
    row.hidden == 0 && row.depth == 0
}

// Whether a row is a visible mm of mode 1 at depth 0.
fn is_union(row: ItemRow) -> bool
    ensures { result ≡ is_union_row row }
{
    is_top(row) && row.kind == Kind::Merge && row.mark == 1
}

// Whether a row is a visible source at depth 0. The kind is asked first and with a branch: most rows that are no source are told by it.
pub fn is_source(row: ItemRow) -> bool
    ensures { result ≡ is_source_row row }
{
    if row.kind.is_source() {
        is_top(row)
    } else {
        false
    }
}

// Whether a row, with the rows after it, may stand before the merge row.
#[tactic(auto, unfolding(crate::specs::Flat::precedes))]
fn may_precede(row: ItemRow, after: &[[u32; 6]]) -> bool
    ensures { result ≡ precedes row (map row_of after.now) }
{
    !is_top(row)
        || row.kind.is_source()
        || row.kind == Kind::Transform
        || nest::group_empty(row, after)
}

// The place of the merge row, with the number of sources before it, where only rows that may be there stand before it.
// The place and no slices, as in `scan_from`: `rule` cuts the rows before it and those after it by the same number.
#[tactic(auto, unfolding(crate::specs::Flat::scan_from))]
fn find_merge(rows: &[[u32; 6]]) -> Option<(usize, usize)>
    ensures value { result ≡ scan_from 0 0 (map row_of rows.now) }
    ensures inside { IfSome result (λ found. found.0 < length rows.now) }
{
    let mut count = 0;
    for (i, entries) in rows.iter().enumerate() {
        let row = ItemRow::from(*entries);
        if is_union(row) {
            return Some((i, count));
        }
        if !may_precede(row, &rows[i + 1..]) {
            return None;
        }
        if is_source(row) {
            count += 1;
        }
    }
    None
}

// Whether a row may follow the merge row, where `clean` tells that an mm here would have no new sources.
fn may_follow(row: ItemRow, clean: bool) -> bool
    ensures { result ≡ follows clean row }
{
    !is_top(row)
        || row.kind == Kind::Transform
        || row.kind.is_style()
        || (row.kind == Kind::Merge && clean)
}

// The same of an mm right after such a row.
fn is_clean_after(row: ItemRow, clean: bool) -> bool
    ensures { result ≡ clean_after clean row }
{
    if is_top(row) && row.kind != Kind::Transform {
        row.kind == Kind::Merge
    } else {
        clean
    }
}

// Whether the rows may follow the merge row before them.
#[tactic(auto, unfolding(crate::specs::Flat::late_from))]
fn all_follow(rows: &[[u32; 6]]) -> bool
    ensures { result ≡ late_from true (map row_of rows.now) }
{
    let mut clean = true;
    for entries in rows {
        let row = ItemRow::from(*entries);
        if !may_follow(row, clean) {
            return false;
        }
        clean = is_clean_after(row, clean);
    }
    true
}

// The rows before the merge row, by the merge rule on rows that keep the rules before it: `build_supported_merge_path` of drawing_paths.rs, up to the drawing.
#[tactic(auto, unfolding(crate::specs::Flat::rows_before, crate::specs::Flat::chosen))]
fn rule(rows: &[[u32; 6]]) -> Outcome<&[[u32; 6]]>
    ensures { mapped (λ before. map row_of before.now) result ≡ rows_before (map row_of rows.now) }
{
    match find_merge(rows) {
        Some((m, count)) if count >= 2 && all_follow(&rows[m + 1..]) => Ok(&rows[..m]),
        _ => Err(Refusal::NotMergeable),
    }
}

// What a merge of the first n rows comes to on the rows alone: a refusal, or the rows before the merge row, the sources among which are joined.
// The list and n stay apart, as C lends them, until `first_rows` has found that they agree.
#[tactic(auto, unfolding(crate::specs::Decision::said, crate::specs::Decision::decision))]
pub fn decide(rows: &[u32], n: usize) -> Outcome<&[[u32; 6]]>
    ensures sources { said (mapped (λ before. map row_of before.now) result) ≡ decision rows.now n }
    ensures first { Settled rows.now (mapped (λ before. map row_of before.now) result) }
{
    if n == 0 {
        return Err(Refusal::Empty);
    }
    if n > 256 {
        return Err(Refusal::TooMany);
    }
    let rows = nest::first_rows(rows, n).ok_or(Refusal::OutOfBounds)?;
    if !nest::each_shallow(rows) {
        return Err(Refusal::TooMany);
    }
    if !nest::each_listed(rows) {
        return Err(Refusal::Unlisted);
    }
    if !nest::is_nested(rows) {
        return Err(Refusal::BrokenNesting);
    }
    rule(rows)
}
