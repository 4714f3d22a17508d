// Runs the vectors of trims: reads calls from standard input, one a line, and writes what each answers.
// tools/trim_vectors.py makes the lines and says how they read.
#![tactic(auto)]

use pattern_text::{Answer, Bits, Call, Floats, Form};
use std::{fmt, io};
use trim::{Ranges, TrimStyle};

fn trim_of(call: Call<'_>) -> TrimStyle {
    TrimStyle {
        start: call.float(0),
        end: call.float(1),
        offset_degrees: call.float(2),
        mode: call.byte(3),
    }
}

// What is told of ranges, and what a buffer holds that they were put in.
#[derive(Clone, Copy)]
struct Shown {
    ranges: Ranges,
    buffer: [f32; 8],
}

impl Shown {
    fn case(self) -> &'static str {
        match self.ranges {
            Ranges::Nothing => "nothing",
            Ranges::One(_, _) => "one",
            Ranges::Two(_, _) => "two",
        }
    }
}

impl fmt::Display for Shown {
    fn fmt<W: fmt::Write>(&self, f: &mut fmt::Formatter<W>) -> fmt::Result {
        let case = self.case();
        let count = self.ranges.count();
        let mark = u32::from(self.ranges.is_full());
        write!(
            f,
            "{case} {count} mark {mark} numbers{}",
            Floats(&self.buffer)
        )
    }
}

// The two that fill a buffer stay two: what puts the numbers down is another function of another type in each.
fn shown_ranges(ranges: Ranges) -> Shown {
    let mut buffer = [-77.25; 8];
    cut::put_ranges(ranges, &mut buffer);
    Shown { ranges, buffer }
}

// The lengths at which ranges cut a path, and before them the path's length.
#[derive(Clone, Copy)]
struct ShownCuts {
    total: f32,
    cuts: Shown,
}

impl fmt::Display for ShownCuts {
    fn fmt<W: fmt::Write>(&self, f: &mut fmt::Formatter<W>) -> fmt::Result {
        write!(f, "length {} {}", Bits(self.total), self.cuts)
    }
}

fn shown_cuts(total: f32, ranges: Ranges) -> ShownCuts {
    let mut buffer = [-77.25; 8];
    cut::put_cuts(total, ranges, &mut buffer);
    ShownCuts {
        total,
        cuts: Shown { ranges, buffer },
    }
}

fn ranges_of(call: Call<'_>) -> Answer<Shown> {
    Answer(cut::trim_ranges(trim_of(call)).map(|ranges| shown_ranges(ranges)))
}

// Cuts the path of the first places of two lists, so many as the line says.
fn cuts_of(call: Call<'_>) -> Answer<ShownCuts> {
    let mut codes = [0; 262150];
    let mut numbers = [0.0; 6150];
    let codes = &mut codes[..call.lent(4, 262150)];
    let numbers = &mut numbers[..call.lent(5, 6150)];
    call.fill_path(6, codes, numbers);
    let cut = cut::trim_lengths(trim_of(call), codes, numbers);
    Answer(cut.map(|(total, ranges)| shown_cuts(total, ranges)))
}

fn answer(rt: &impl Print, call: Call<'_>) -> io::Result<()> {
    if call.line.starts_with(b"r") {
        println!(rt; "{}", ranges_of(call))
    } else {
        println!(rt; "{}", cuts_of(call))
    }
}

fn main(rt: HostRuntime) -> io::Result<()> {
    pattern_text::run(&rt, "\n", Form::ByLength, answer)
}
