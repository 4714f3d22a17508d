// Runs the vectors of drawing and of its needs: reads calls from standard input, one a line, and writes what each
// leaves behind.
// tools/draw_vectors.py makes the lines and says how they read.
#![tactic(auto)]

ghost use Rattle.std.specs.Prelude.{◌<◌};

use command::{Outcome, Size};
use pattern_text::{Call, Drawn, Form, Needed};
use std::io;

// A path or an item, by a call's word. It is asked in three places: an enum that the line is read to would be matched in the
// same three.
fn is_item(call: Call<'_>) -> bool {
    call.line[pattern_text::word_place(call.line)..].starts_with(b"i")
}

// The place of how many numbers are lent to the call. For a drawing, how many codes and numbers the buffers have follows.
fn lengths_place(call: Call<'_>) -> usize
    ensures { result < 10 }
{
    if is_item(call) { 7 } else { 2 }
}

// The entries of an item's row.
fn row_of(call: Call<'_>) -> [u32; 6] {
    [
        call.field(1),
        call.field(2),
        call.field(3),
        call.field(4),
        call.field(5),
        call.field(6),
    ]
}

// Draws with the first places of a list and of two buffers, so many as the line says.
fn draw(rt: &impl Print, call: Call<'_>) -> io::Result<()> {
    let place = lengths_place(call);
    let mut list = [0.0; 6150];
    let mut codes = [0xee; 1030];
    let mut numbers = [-77.25; 6150];
    call.fill(place + 3, &mut list);
    let list = &list[..call.lent(place, 6150)];
    let codes = &mut codes[..call.lent(place + 1, 1030)];
    let numbers = &mut numbers[..call.lent(place + 2, 6150)];
    let size = if is_item(call) {
        draw::draw_item(&row_of(call)[..call.lent(0, 6)], list, codes, numbers)
    } else {
        draw::draw_path(call.field(0), list, call.size(1), codes, numbers)
    };
    println!(rt;
        "{}",
        Drawn {
            size,
            codes,
            numbers,
        }
    )
}

// The need of a drawing of the first places of a list, so many as the line says.
// It shares with `draw` that a list is filled and lent, each a call of `Call`, and fills it from another place of the line.
fn need_of(call: Call<'_>) -> Outcome<Size> {
    let place = lengths_place(call);
    let mut list = [0.0; 6150];
    call.fill(place + 1, &mut list);
    let list = &list[..call.lent(place, 6150)];
    if is_item(call) {
        need::item_need(&row_of(call)[..call.lent(0, 6)], list)
    } else {
        need::path_need(call.field(0), list, call.size(1))
    }
}

// The program of merges has an `answer` of this shape: each names calls of its own.
fn answer(rt: &impl Print, call: Call<'_>) -> io::Result<()> {
    if call.line.starts_with(b"n") {
        println!(rt; "{}", Needed(need_of(call)))
    } else {
        draw(rt, call)
    }
}

fn main(rt: HostRuntime) -> io::Result<()> {
    pattern_text::run(&rt, "\n", Form::MayNeed, answer)
}
