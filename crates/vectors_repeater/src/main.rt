// Runs the vectors of repeaters: reads calls from standard input, one a line, and writes what each answers.
// tools/repeater_vectors.py makes the lines and says how they read.
#![tactic(auto)]

ghost use Rattle.std.specs.Prelude.{◌≤◌, length};

use pattern_text::{Answer, Call, Floats, Form, Pair};
use repeater::RepeaterStyle;
use std::io;
use std::num::f32_from_bits_with_nan;

// The repeater of a line's mode and of its eleven numbers from a place on.
fn repeater_at(call: Call<'_>, first: usize) -> RepeaterStyle {
    let mut numbers = [0.0; 11];
    call.fill(first, &mut numbers);
    copies::repeater_of(&numbers, call.byte(0))
}

// Answers with an order in the first places of a list, so many as the line says, and writes what they then hold.
// The places are printed by a loop: a third list beside `Floats` and `Codes`, but one that is printed here alone.
fn answer_order(rt: &impl Print, call: Call<'_>) -> io::Result<()> {
    let mut order = [0xeeee_eeee; 4100];
    let order = &mut order[..call.lent(1, 4100)];
    let written = copies::copy_order(repeater_at(call, 2), order);
    println!(rt; "{}", Answer(written.map(|n| Pair("written", n))))?;
    print!(rt; "places")?;
    for copy in order {
        print!(rt; " {copy:08x}")?;
    }
    println!(rt)
}

// The same with a copy's numbers.
fn answer_copy(rt: &impl Print, call: Call<'_>) -> io::Result<()> {
    let mut numbers = [-77.25; 16];
    let numbers = &mut numbers[..call.lent(2, 16)];
    let written = copies::copy_transform(repeater_at(call, 3), call.size(1), numbers);
    println!(rt; "{}", Answer(written.map(|n| Pair("written", n))))?;
    println!(rt; "places{}", Floats(numbers))
}

// A repeater of two copies that turns and does nothing else.
fn turning(rotation: f32) -> RepeaterStyle {
    let numbers = [
        2.0, 0.0, 0.0, 0.0, 0.0, 0.0, 100.0, 100.0, rotation, 1.0, 1.0,
    ];
    copies::repeater_of(&numbers, 1)
}

// The rotations of a line, or the first 64 where it has more.
fn rotations(call: Call<'_>) -> &[u32]
    ensures { length result.now ≤ 64 }
{
    &call.patterns[..call.patterns.len().min(64)]
}

// Answers with the numbers a, b, c and d of copy 1 for each rotation of a line, or what their places hold where it is
// refused.
fn answer_turns(rt: &impl Print, call: Call<'_>) -> io::Result<()> {
    print!(rt; "places")?;
    for pattern in rotations(call) {
        let rotation = f32_from_bits_with_nan(*pattern);
        let mut numbers = [-77.25; 7];
        let _written = copies::copy_transform(turning(rotation), 1, &mut numbers);
        print!(rt; "{}", Floats(&numbers[..4]))?;
    }
    println!(rt)
}

fn answer(rt: &impl Print, call: Call<'_>) -> io::Result<()> {
    match call.line.first() {
        Some(b'o') => answer_order(rt, call),
        Some(b't') => answer_turns(rt, call),
        _ => answer_copy(rt, call),
    }
}

fn main(rt: HostRuntime) -> io::Result<()> {
    pattern_text::run(&rt, "\n", Form::ByLength, answer)
}
