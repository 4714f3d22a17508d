// Runs the vectors of merges and of their needs: reads calls from standard input, one a line, and writes what each
// leaves behind.
// tools/merge_vectors.py makes the lines and says how they read.
#![tactic(auto)]

ghost use Rattle.std.specs.Prelude.{◌<◌};

use command::{Outcome, Size};
use pattern_text::{Call, Drawn, Form, Needed};
use std::io;

// The entries of a row, which is written as one number.
fn entries(row: u32) -> [u32; 6] {
    [
        row / 0x1000_0000,
        row / 0x100_0000 % 16,
        row / 0x10_0000 % 16,
        row / 0x1000 % 256,
        row / 0x10 % 256,
        row % 16,
    ]
}

// How many rows a line has.
fn given(call: Call<'_>) -> usize
    ensures { result < 300 }
{
    call.lent(4, 299)
}

// The rows of a line, of which the last one stands for all that follow, with the one entry changed that the line names.
fn fill_rows(call: Call<'_>, rows: &mut [u32]) {
    let n = given(call);
    for (r, row) in rows.chunks_exact_mut(6).enumerate() {
        row.copy_from_slice(&entries(call.field((5 + r).min(4 + n))));
    }
    if let Some(entry) = rows.get_mut(call.size(2)) {
        *entry = call.field(3);
    }
}

// Merges the first places of two lists into those of two buffers, so many as the line says.
fn merge(rt: &impl Print, call: Call<'_>) -> io::Result<()> {
    let place = given(call) + 5;
    let mut rows = [0; 1548];
    let mut list = [0.0; 6150];
    let mut codes = [0xee; 1030];
    let mut numbers = [-77.25; 6150];
    fill_rows(call, &mut rows);
    call.fill(place + 3, &mut list);
    let rows = &rows[..call.lent(1, 1548)];
    let list = &list[..call.lent(place, 6150)];
    let codes = &mut codes[..call.lent(place + 1, 1030)];
    let numbers = &mut numbers[..call.lent(place + 2, 6150)];
    let size = join::draw_merge(rows, call.size(0), list, codes, numbers);
    let drawn = Drawn {
        size,
        codes,
        numbers,
    };
    println!(rt; "{drawn}")
}

// The need of a merge of the first places of two lists, so many as the line says.
// It shares with `merge` that two lists are filled and lent, each a call, and fills the second from another place of the line.
fn need_of(call: Call<'_>) -> Outcome<Size> {
    let place = given(call) + 5;
    let mut rows = [0; 1548];
    let mut list = [0.0; 6150];
    fill_rows(call, &mut rows);
    call.fill(place + 1, &mut list);
    join::merge_need(
        &rows[..call.lent(1, 1548)],
        call.size(0),
        &list[..call.lent(place, 6150)],
    )
}

// The program of drawing has an `answer` of this shape: each names calls of its own.
fn answer(rt: &impl Print, call: Call<'_>) -> io::Result<()> {
    if call.line.starts_with(b"n") {
        println!(rt; "{}", Needed(need_of(call)))
    } else {
        merge(rt, call)
    }
}

fn main(rt: HostRuntime) -> io::Result<()> {
    pattern_text::run(&rt, "\n", Form::MayNeed, answer)
}
