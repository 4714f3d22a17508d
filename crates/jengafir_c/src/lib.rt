// The static library that C links: each export has the name and the clauses of the function of `jengafir` that it calls.
// include/jengafir.h declares them.
#![tactic(auto)]

ghost use Rattle.std.specs.Prelude.{◌≡◌, length};
ghost use Rattle.std.specs.Float.{binary32};
ghost use Rattle.ieee.specs.Literal.{turn32};
ghost use Rattle.ieee.specs.Sign as Sign;
ghost use Rattle.ieee.specs.Whole as Whole;
ghost use Rattle.ieee.specs.Remainder.{rem_euclid};
ghost use Rattle.ieee.specs.Fused.{fma};
ghost use Rattle.ieee.specs.Root.{hypot_of};
ghost use Rattle.command.specs.Outcomes.{Told, Counted};
ghost use Rattle.command.specs.Buffers.{fitted, in_buffer, in_buffers, need_of, Filled, FilledBoth};
ghost use Rattle.draw.specs.Paths.{draw_path};
ghost use Rattle.draw.specs.Items.{draw_item};
ghost use Rattle.join.specs.Merge.{draw_merge};
ghost use Rattle.judge.specs.Lists.{find_command};
ghost use Rattle.length.specs.Lists.{measure_list};
ghost use Rattle.reach.specs.Reach.{length_reaches, Replied};
ghost use Rattle.cut.specs.Answers.{ranges_answer, lengths_answer, Placed};
ghost use Rattle.copies.specs.Calls.{repeater_of, order_answer, transform_answer};

#[unsafe(no_mangle)]
pub extern "C" fn jengafir_mul_add(a: f32, b: f32, c: f32) -> f32
    ensures { result ≡ fma binary32 a b c }
{
    jengafir::jengafir_mul_add(a, b, c)
}

#[unsafe(no_mangle)]
pub extern "C" fn jengafir_hypot(x: f32, y: f32) -> f32
    ensures { result ≡ hypot_of binary32 x y }
{
    jengafir::jengafir_hypot(x, y)
}

#[unsafe(no_mangle)]
pub extern "C" fn jengafir_floor(x: f32) -> f32
    ensures { result ≡ Whole.floor binary32 x }
{
    jengafir::jengafir_floor(x)
}

#[unsafe(no_mangle)]
pub extern "C" fn jengafir_ceil(x: f32) -> f32
    ensures { result ≡ Whole.ceil binary32 x }
{
    jengafir::jengafir_ceil(x)
}

#[unsafe(no_mangle)]
pub extern "C" fn jengafir_round(x: f32) -> f32
    ensures { result ≡ Whole.round_away binary32 x }
{
    jengafir::jengafir_round(x)
}

#[unsafe(no_mangle)]
pub extern "C" fn jengafir_abs(x: f32) -> f32
    ensures { result ≡ Sign.abs x }
{
    jengafir::jengafir_abs(x)
}

#[unsafe(no_mangle)]
pub extern "C" fn jengafir_rem_euclid_360(x: f32) -> f32
    ensures { result ≡ rem_euclid binary32 x turn32 }
{
    jengafir::jengafir_rem_euclid_360(x)
}

#[unsafe(no_mangle)]
pub extern "C" fn jengafir_draw_path(
    closed: u32,
    vertices: &[f32],
    count: usize,
    codes: &mut [u8],
    numbers: &mut [f32],
    codes_written: &mut usize,
    numbers_written: &mut usize,
) -> u32
    ensures { FilledBoth
        (fitted (in_buffers (length codes.old) (length numbers.old)) (draw_path closed vertices.now count))
        result codes_written.new numbers_written.new
        codes.old codes.new numbers.old numbers.new }
{
    jengafir::jengafir_draw_path(
        closed,
        vertices,
        count,
        codes,
        numbers,
        codes_written,
        numbers_written,
    )
}

#[unsafe(no_mangle)]
pub extern "C" fn jengafir_draw_item(
    row: &[u32],
    items: &[f32],
    codes: &mut [u8],
    numbers: &mut [f32],
    codes_written: &mut usize,
    numbers_written: &mut usize,
) -> u32
    ensures { FilledBoth
        (fitted (in_buffers (length codes.old) (length numbers.old)) (draw_item row.now items.now))
        result codes_written.new numbers_written.new
        codes.old codes.new numbers.old numbers.new }
{
    jengafir::jengafir_draw_item(row, items, codes, numbers, codes_written, numbers_written)
}

#[unsafe(no_mangle)]
pub extern "C" fn jengafir_tray_need(
    closed: u32,
    vertices: &[f32],
    count: usize,
    codes_needed: &mut usize,
    numbers_needed: &mut usize,
) -> u32
    ensures { Counted (need_of (draw_path closed vertices.now count))
        result codes_needed.new numbers_needed.new }
{
    jengafir::jengafir_tray_need(closed, vertices, count, codes_needed, numbers_needed)
}

#[unsafe(no_mangle)]
pub extern "C" fn jengafir_item_need(
    row: &[u32],
    items: &[f32],
    codes_needed: &mut usize,
    numbers_needed: &mut usize,
) -> u32
    ensures { Counted (need_of (draw_item row.now items.now))
        result codes_needed.new numbers_needed.new }
{
    jengafir::jengafir_item_need(row, items, codes_needed, numbers_needed)
}

#[unsafe(no_mangle)]
pub extern "C" fn jengafir_merge(
    rows: &[u32],
    row_count: usize,
    items: &[f32],
    codes: &mut [u8],
    numbers: &mut [f32],
    codes_written: &mut usize,
    numbers_written: &mut usize,
) -> u32
    ensures { FilledBoth
        (fitted (in_buffers (length codes.old) (length numbers.old)) (draw_merge rows.now row_count items.now))
        result codes_written.new numbers_written.new
        codes.old codes.new numbers.old numbers.new }
{
    jengafir::jengafir_merge(
        rows,
        row_count,
        items,
        codes,
        numbers,
        codes_written,
        numbers_written,
    )
}

#[unsafe(no_mangle)]
pub extern "C" fn jengafir_merge_need(
    rows: &[u32],
    row_count: usize,
    items: &[f32],
    codes_needed: &mut usize,
    numbers_needed: &mut usize,
) -> u32
    ensures { Counted (need_of (draw_merge rows.now row_count items.now))
        result codes_needed.new numbers_needed.new }
{
    jengafir::jengafir_merge_need(rows, row_count, items, codes_needed, numbers_needed)
}

#[unsafe(no_mangle)]
pub extern "C" fn jengafir_length(codes: &[u8], numbers: &[f32], length: &mut f32) -> u32
    ensures { Told (measure_list codes.now numbers.now) result length.old length.new }
{
    jengafir::jengafir_length(codes, numbers, length)
}

#[unsafe(no_mangle)]
pub extern "C" fn jengafir_length_reaches(
    codes: &[u8],
    numbers: &[f32],
    least: f32,
    reached: &mut u32,
    commands_read: &mut usize,
) -> u32
    ensures { Replied (length_reaches codes.now numbers.now least)
        result commands_read.new reached.old reached.new }
{
    jengafir::jengafir_length_reaches(codes, numbers, least, reached, commands_read)
}

#[unsafe(no_mangle)]
pub extern "C" fn jengafir_command(
    codes: &[u8],
    numbers: &[f32],
    k: usize,
    start: &mut usize,
    count: &mut usize,
) -> u32
    ensures { Counted (find_command codes.now numbers.now k) result start.new count.new }
{
    jengafir::jengafir_command(codes, numbers, k, start, count)
}

#[unsafe(no_mangle)]
pub extern "C" fn jengafir_trim_ranges(
    start: f32,
    end: f32,
    offset: f32,
    ranges: &mut [f32; 4],
    range_count: &mut usize,
    whole: &mut u32,
) -> u32
    ensures { Placed 2
        (ranges_answer (record { start = start; end = end; offset_degrees = offset; mode = 1 }))
        result range_count.new ranges.old ranges.new whole.old whole.new }
{
    jengafir::jengafir_trim_ranges(start, end, offset, ranges, range_count, whole)
}

#[unsafe(no_mangle)]
pub extern "C" fn jengafir_trim_lengths(
    start: f32,
    end: f32,
    offset: f32,
    mode: u8,
    codes: &[u8],
    numbers: &[f32],
    cuts: &mut [f32; 6],
    range_count: &mut usize,
    whole: &mut u32,
) -> u32
    ensures { Placed 3
        (lengths_answer (record { start = start; end = end; offset_degrees = offset; mode = mode }) codes.now numbers.now)
        result range_count.new cuts.old cuts.new whole.old whole.new }
{
    jengafir::jengafir_trim_lengths(
        start,
        end,
        offset,
        mode,
        codes,
        numbers,
        cuts,
        range_count,
        whole,
    )
}

#[unsafe(no_mangle)]
pub extern "C" fn jengafir_copy_order(
    repeater: &[f32; 11],
    mode: u8,
    order: &mut [u32],
    order_count: &mut usize,
) -> u32
    ensures { Filled
        (fitted (in_buffer (length order.old)) (order_answer (repeater_of repeater.now mode)))
        result order_count.new order.old order.new }
{
    jengafir::jengafir_copy_order(repeater, mode, order, order_count)
}

#[unsafe(no_mangle)]
pub extern "C" fn jengafir_copy_transform(
    repeater: &[f32; 11],
    mode: u8,
    copy: usize,
    matrix: &mut [f32],
    matrix_count: &mut usize,
) -> u32
    ensures { Filled
        (fitted (in_buffer (length matrix.old)) (transform_answer (repeater_of repeater.now mode) copy))
        result matrix_count.new matrix.old matrix.new }
{
    jengafir::jengafir_copy_transform(repeater, mode, copy, matrix, matrix_count)
}
