// Runs the vectors of the float functions: reads calls from standard input, one a line, and writes each line with its result.
// tools/float_vectors.py makes the lines and says how they read.
#![tactic(auto)]

use pattern_text::{Bits, Call, Form};
use std::io;

// The word of a line with the blank after it, and nothing where it is no text.
fn word_of(line: &[u8]) -> &str {
    let mut words = line.split_inclusive(|byte| *byte == b' ');
    str::from_utf8(words.next().unwrap_or(b"")).unwrap_or("")
}

// The result of a call. A word that names no operation has a NaN.
fn result(call: Call<'_>) -> f32 {
    let x = call.float(0);
    let y = call.float(1);
    let z = call.float(2);
    match word_of(call.line) {
        "mul_add " => fused::mul_add(x, y, z),
        "hypot " => root::hypot(x, y),
        "floor " => whole::floor(x),
        "ceil " => whole::ceil(x),
        "round " => whole::round(x),
        "abs " => float::abs(x),
        "rem " => remainder::rem_euclid_360(x),
        "min " => float::min(x, y),
        "max " => float::max(x, y),
        "clamp " => float::clamp(x, y, z),
        _ => f32::NAN,
    }
}

fn main(rt: HostRuntime) -> io::Result<()> {
    pattern_text::run(
        &rt,
        " = ",
        Form::AtBlank,
        |rt, call| println!(rt; "{}", Bits(result(call))),
    )
}
