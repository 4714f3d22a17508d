// The functions that C calls: include/jengafir.h declares them. Each hands its numbers on.
// The parameters are C's: a flag or a mode is a number, since any may come, and a list has a count beside it where the two
// may disagree. Those that draw or tell a need are one call each, of functions that take other parameters, and `command::tell_size`.
// What tells ranges stands in both trims, and what tells a count in both copies: two or three lines each, and a function of them
// would have a contract as long.
#![tactic(auto)]

ghost use Rattle.std.specs.Prelude.{◌≡◌, length};
ghost use Rattle.std.specs.Float.{binary32};
ghost use Rattle.ieee.specs.Literal.{turn32};
ghost use Rattle.ieee.specs.Sign as Sign;
ghost use Rattle.ieee.specs.Whole as Whole;
ghost use Rattle.ieee.specs.Remainder.{rem_euclid};
ghost use Rattle.ieee.specs.Fused.{fma};
ghost use Rattle.ieee.specs.Root.{hypot_of};
ghost use Rattle.command.specs.Outcomes.{Told, Counted};
ghost use Rattle.command.specs.Buffers.{fitted, in_buffer, in_buffers, need_of, Filled, FilledBoth};
ghost use Rattle.draw.specs.Paths.{draw_path};
ghost use Rattle.draw.specs.Items.{draw_item};
ghost use Rattle.join.specs.Merge.{draw_merge};
ghost use Rattle.judge.specs.Lists.{find_command};
ghost use Rattle.length.specs.Lists.{measure_list};
ghost use Rattle.reach.specs.Reach.{length_reaches, Replied};
ghost use Rattle.cut.specs.Answers.{ranges_answer, lengths_answer, Placed};
ghost use Rattle.copies.specs.Calls.{repeater_of, order_answer, transform_answer};

use trim::TrimStyle;

#[unsafe(no_mangle)]
pub extern "C" fn jengafir_mul_add(a: f32, b: f32, c: f32) -> f32
    ensures { result ≡ fma binary32 a b c }
{
    fused::mul_add(a, b, c)
}

#[unsafe(no_mangle)]
pub extern "C" fn jengafir_hypot(x: f32, y: f32) -> f32
    ensures { result ≡ hypot_of binary32 x y }
{
    root::hypot(x, y)
}

#[unsafe(no_mangle)]
pub extern "C" fn jengafir_floor(x: f32) -> f32
    ensures { result ≡ Whole.floor binary32 x }
{
    whole::floor(x)
}

#[unsafe(no_mangle)]
pub extern "C" fn jengafir_ceil(x: f32) -> f32
    ensures { result ≡ Whole.ceil binary32 x }
{
    whole::ceil(x)
}

#[unsafe(no_mangle)]
pub extern "C" fn jengafir_round(x: f32) -> f32
    ensures { result ≡ Whole.round_away binary32 x }
{
    whole::round(x)
}

#[unsafe(no_mangle)]
pub extern "C" fn jengafir_abs(x: f32) -> f32
    ensures { result ≡ Sign.abs x }
{
    float::abs(x)
}

#[unsafe(no_mangle)]
pub extern "C" fn jengafir_rem_euclid_360(x: f32) -> f32
    ensures { result ≡ rem_euclid binary32 x turn32 }
{
    remainder::rem_euclid_360(x)
}

#[tactic(auto, using(command::proofs::Buffers::both_told))]
#[unsafe(no_mangle)]
pub extern "C" fn jengafir_draw_path(
    closed: u32,
    vertices: &[f32],
    count: usize,
    codes: &mut [u8],
    numbers: &mut [f32],
    codes_written: &mut usize,
    numbers_written: &mut usize,
) -> u32
    ensures { FilledBoth
        (fitted (in_buffers (length codes.old) (length numbers.old)) (draw_path closed vertices.now count))
        result codes_written.new numbers_written.new
        codes.old codes.new numbers.old numbers.new }
{
    let drawn = draw::draw_path(closed, vertices, count, codes, numbers);
    command::tell_size(drawn, codes_written, numbers_written)
}

#[tactic(auto, using(command::proofs::Buffers::both_told))]
#[unsafe(no_mangle)]
pub extern "C" fn jengafir_draw_item(
    row: &[u32],
    items: &[f32],
    codes: &mut [u8],
    numbers: &mut [f32],
    codes_written: &mut usize,
    numbers_written: &mut usize,
) -> u32
    ensures { FilledBoth
        (fitted (in_buffers (length codes.old) (length numbers.old)) (draw_item row.now items.now))
        result codes_written.new numbers_written.new
        codes.old codes.new numbers.old numbers.new }
{
    let drawn = draw::draw_item(row, items, codes, numbers);
    command::tell_size(drawn, codes_written, numbers_written)
}

#[unsafe(no_mangle)]
pub extern "C" fn jengafir_tray_need(
    closed: u32,
    vertices: &[f32],
    count: usize,
    codes_needed: &mut usize,
    numbers_needed: &mut usize,
) -> u32
    ensures { Counted (need_of (draw_path closed vertices.now count))
        result codes_needed.new numbers_needed.new }
{
    command::tell_size(
        need::path_need(closed, vertices, count),
        codes_needed,
        numbers_needed,
    )
}

#[unsafe(no_mangle)]
pub extern "C" fn jengafir_item_need(
    row: &[u32],
    items: &[f32],
    codes_needed: &mut usize,
    numbers_needed: &mut usize,
) -> u32
    ensures { Counted (need_of (draw_item row.now items.now))
        result codes_needed.new numbers_needed.new }
{
    command::tell_size(need::item_need(row, items), codes_needed, numbers_needed)
}

#[tactic(auto, using(command::proofs::Buffers::both_told))]
#[unsafe(no_mangle)]
pub extern "C" fn jengafir_merge(
    rows: &[u32],
    row_count: usize,
    items: &[f32],
    codes: &mut [u8],
    numbers: &mut [f32],
    codes_written: &mut usize,
    numbers_written: &mut usize,
) -> u32
    ensures { FilledBoth
        (fitted (in_buffers (length codes.old) (length numbers.old)) (draw_merge rows.now row_count items.now))
        result codes_written.new numbers_written.new
        codes.old codes.new numbers.old numbers.new }
{
    let drawn = join::draw_merge(rows, row_count, items, codes, numbers);
    command::tell_size(drawn, codes_written, numbers_written)
}

#[unsafe(no_mangle)]
pub extern "C" fn jengafir_merge_need(
    rows: &[u32],
    row_count: usize,
    items: &[f32],
    codes_needed: &mut usize,
    numbers_needed: &mut usize,
) -> u32
    ensures { Counted (need_of (draw_merge rows.now row_count items.now))
        result codes_needed.new numbers_needed.new }
{
    command::tell_size(
        join::merge_need(rows, row_count, items),
        codes_needed,
        numbers_needed,
    )
}

#[tactic(auto, using(length::proofs::Ways::told))]
#[unsafe(no_mangle)]
pub extern "C" fn jengafir_length(codes: &[u8], numbers: &[f32], length: &mut f32) -> u32
    ensures { Told (measure_list codes.now numbers.now) result length.old length.new }
{
    match length::path_length(codes, numbers) {
        Err(refusal) => u32::from(refusal),
        Ok(x) => {
            *length = x;
            0
        }
    }
}

#[tactic(auto, using(reach::proofs::Ways::replying))]
#[unsafe(no_mangle)]
pub extern "C" fn jengafir_length_reaches(
    codes: &[u8],
    numbers: &[f32],
    least: f32,
    reached: &mut u32,
    commands_read: &mut usize,
) -> u32
    ensures { Replied (length_reaches codes.now numbers.now least)
        result commands_read.new reached.old reached.new }
{
    match reach::length_reaches(codes, numbers, least) {
        Err(refusal) => {
            *commands_read = 0;
            u32::from(refusal)
        }
        Ok((yes, count)) => {
            *reached = u32::from(yes);
            *commands_read = count;
            0
        }
    }
}

#[unsafe(no_mangle)]
pub extern "C" fn jengafir_command(
    codes: &[u8],
    numbers: &[f32],
    k: usize,
    start: &mut usize,
    count: &mut usize,
) -> u32
    ensures { Counted (find_command codes.now numbers.now k) result start.new count.new }
{
    command::tell(judge::find_command(codes, numbers, k), start, count)
}

#[unsafe(no_mangle)]
pub extern "C" fn jengafir_trim_ranges(
    start: f32,
    end: f32,
    offset: f32,
    ranges: &mut [f32; 4],
    range_count: &mut usize,
    whole: &mut u32,
) -> u32
    ensures { Placed 2
        (ranges_answer (record { start = start; end = end; offset_degrees = offset; mode = 1 }))
        result range_count.new ranges.old ranges.new whole.old whole.new }
{
    let trim = TrimStyle {
        start,
        end,
        offset_degrees: offset,
        mode: 1,
    };
    match cut::trim_ranges(trim) {
        Err(refusal) => {
            *range_count = 0;
            u32::from(refusal)
        }
        Ok(visible) => {
            cut::put_ranges(visible, ranges);
            *range_count = visible.count();
            *whole = u32::from(visible.is_full());
            0
        }
    }
}

#[unsafe(no_mangle)]
pub extern "C" fn jengafir_trim_lengths(
    start: f32,
    end: f32,
    offset: f32,
    mode: u8,
    codes: &[u8],
    numbers: &[f32],
    cuts: &mut [f32; 6],
    range_count: &mut usize,
    whole: &mut u32,
) -> u32
    ensures { Placed 3
        (lengths_answer (record { start = start; end = end; offset_degrees = offset; mode = mode }) codes.now numbers.now)
        result range_count.new cuts.old cuts.new whole.old whole.new }
{
    let trim = TrimStyle {
        start,
        end,
        offset_degrees: offset,
        mode,
    };
    match cut::trim_lengths(trim, codes, numbers) {
        Err(refusal) => {
            *range_count = 0;
            u32::from(refusal)
        }
        Ok((total, visible)) => {
            cut::put_cuts(total, visible, cuts);
            *range_count = visible.count();
            *whole = u32::from(visible.is_full());
            0
        }
    }
}

#[tactic(auto, using(copies::proofs::Ways::telling))]
#[unsafe(no_mangle)]
pub extern "C" fn jengafir_copy_order(
    repeater: &[f32; 11],
    mode: u8,
    order: &mut [u32],
    order_count: &mut usize,
) -> u32
    ensures { Filled
        (fitted (in_buffer (length order.old)) (order_answer (repeater_of repeater.now mode)))
        result order_count.new order.old order.new }
{
    let written = copies::copy_order(copies::repeater_of(repeater, mode), order);
    *order_count = written.unwrap_or(0);
    command::number_of(written)
}

#[tactic(auto, using(copies::proofs::Ways::telling))]
#[unsafe(no_mangle)]
pub extern "C" fn jengafir_copy_transform(
    repeater: &[f32; 11],
    mode: u8,
    copy: usize,
    matrix: &mut [f32],
    matrix_count: &mut usize,
) -> u32
    ensures { Filled
        (fitted (in_buffer (length matrix.old)) (transform_answer (repeater_of repeater.now mode) copy))
        result matrix_count.new matrix.old matrix.new }
{
    let written = copies::copy_transform(copies::repeater_of(repeater, mode), copy, matrix);
    *matrix_count = written.unwrap_or(0);
    command::number_of(written)
}
