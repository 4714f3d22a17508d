// Runs the vectors of lengths, single commands and lengths that are reached: reads calls from standard input, one a line, and
// writes what each answers.
// tools/length_vectors.py makes the lines and says how they read.
#![tactic(auto)]

use pattern_text::{Answer, Bits, Call, Floats, Form, Pair};
use std::io;

fn length_of(codes: &[u8], numbers: &[f32]) -> Answer<Pair<&'static str, Bits>> {
    let length = length::path_length(codes, numbers);
    Answer(length.map(|length| Pair("length", Bits(length))))
}

fn reached_of(codes: &[u8], numbers: &[f32], least: f32) -> Answer<Pair<&'static str, usize>> {
    let reached = reach::length_reaches(codes, numbers, least);
    Answer(reached.map(|(yes, read)| Pair(if yes { "yes" } else { "no" }, read)))
}

fn place_of(
    codes: &[u8],
    numbers: &[f32],
    k: usize,
) -> Answer<Pair<&'static str, Pair<usize, usize>>> {
    let found = judge::find_command(codes, numbers, k);
    Answer(found.map(|(start, count)| Pair("numbers", Pair(start, count))))
}

// Answers with where a command's numbers stand, and below it the number that is handed back beside the part, how many
// numbers the part has, and the part.
fn answer_command(rt: &impl Print, codes: &[u8], numbers: &[f32], k: usize) -> io::Result<()> {
    println!(rt; "{}", place_of(codes, numbers, k))?;
    let fault = judge::command_fault(codes, numbers, k);
    let part = judge::command_part(codes, numbers, k);
    println!(rt; "fault {fault} part {}{}", part.len(), Floats(part))
}

// Calls with the first places of two lists, so many as the line says. A measure's line has no number before these.
fn answer(rt: &impl Print, call: Call<'_>) -> io::Result<()> {
    let is_command = call.line.starts_with(b"c");
    let is_reach = call.line.starts_with(b"r");
    let place = if is_command || is_reach { 1 } else { 0 };
    let mut codes = [0; 262150];
    let mut numbers = [0.0; 6150];
    let codes = &mut codes[..call.lent(place, 262150)];
    let numbers = &mut numbers[..call.lent(place + 1, 6150)];
    call.fill_path(place + 2, codes, numbers);
    if is_command {
        answer_command(rt, codes, numbers, call.size(0))
    } else if is_reach {
        println!(rt; "{}", reached_of(codes, numbers, call.float(0)))
    } else {
        println!(rt; "{}", length_of(codes, numbers))
    }
}

fn main(rt: HostRuntime) -> io::Result<()> {
    pattern_text::run(&rt, "\n", Form::ByLength, answer)
}
