// A trim answered: its visible ranges, and the lengths at which they cut a path.
#![tactic(auto)]

ghost use Rattle.std.specs.Prelude.{◌≡◌, ◌+◌, ◌≤◌, length};
ghost use Rattle.std.proofs.lemmas.List.Edits.{sets};
ghost use Rattle.command.specs.Buffers.{onto};
ghost use Rattle.trim.specs.Ranges.{range_ends};
ghost use Rattle.cut.specs.Cuts.{part_of, cuts_of, cut_numbers, cut_all};
ghost use Rattle.cut.specs.Calls.{is_finite_trim, is_trim_mode, trim_ranges, cut_measured, trim_lengths};

use command::{Outcome, Refusal};
use trim::{Ranges, TrimStyle};

// What lies before, in and after a range.
#[derive(Clone, Copy)]
pub struct Cuts {
    pub before: f32,
    pub visible: f32,
    pub after: f32,
}

#[tactic(auto, unfolding(crate::specs::Calls::is_finite_trim))]
fn is_finite_trim(trim: TrimStyle) -> bool
    ensures { result ≡ is_finite_trim trim }
{
    float::is_finite(trim.start)
        && float::is_finite(trim.end)
        && float::is_finite(trim.offset_degrees)
}

// Whether a mode is listed. It is a number, as C lends it: any may come.
#[tactic(auto, unfolding(crate::specs::Calls::is_trim_mode))]
fn is_trim_mode(mode: u8) -> bool
    ensures { result ≡ is_trim_mode mode }
{
    mode == 1 || mode == 2
}

// The visible ranges of a trim.
#[tactic(auto, unfolding(crate::specs::Calls::trim_ranges))]
pub fn trim_ranges(trim: TrimStyle) -> Outcome<Ranges>
    ensures { result ≡ trim_ranges trim }
{
    if is_finite_trim(trim) {
        Ok(trim::normalized_trim_segments(trim))
    } else {
        Err(Refusal::OutOfRange)
    }
}

// A trim of a path of so much length: the length with the ranges. They stay a pair, here and where they go: both are named there at once
// (crates/jengafir), and `cut_measured` of specs/ answers with a pair.
#[tactic(auto, unfolding(crate::specs::Calls::cut_measured))]
fn trim_measured(trim: TrimStyle, total: f32) -> Outcome<(f32, Ranges)>
    ensures { result ≡ cut_measured trim total }
{
    if total <= f32::EPSILON {
        Err(Refusal::TooShort)
    } else {
        Ok((total, trim::normalized_trim_segments(trim)))
    }
}

// A trim of a lent command list.
// Codes and numbers are two parameters for the reason at `judge::judge`.
#[tactic(auto, unfolding(crate::specs::Calls::trim_lengths))]
pub fn trim_lengths(trim: TrimStyle, codes: &[u8], numbers: &[f32]) -> Outcome<(f32, Ranges)>
    ensures { result ≡ trim_lengths trim codes.now numbers.now }
{
    if !is_finite_trim(trim) {
        return Err(Refusal::OutOfRange);
    }
    if !is_trim_mode(trim.mode) {
        return Err(Refusal::Unlisted);
    }
    trim_measured(trim, length::path_length(codes, numbers)?)
}

// A part of a length, not below 0.
#[tactic(auto, unfolding(crate::specs::Cuts::part_of))]
fn part_of(total: f32, part: f32) -> f32
    ensures { result ≡ part_of total part }
{
    float::max(total * part, 0.0)
}

// The cut lengths of one range.
fn cuts_of(total: f32, start: f32, end: f32) -> Cuts
    ensures { result ≡ cuts_of total start end }
{
    Cuts {
        before: part_of(total, start),
        visible: part_of(total, end - start),
        after: part_of(total, 1.0 - end),
    }
}

// Puts the ends of ranges down.
#[tactic(auto, using(command::proofs::Buffers::sets_onto))]
pub fn put_ranges(ranges: Ranges, buffer: &mut [f32])
    requires { 4 ≤ length buffer.old }
    ensures { buffer.new ≡ onto (range_ends ranges) buffer.old }
{
    match ranges {
        Ranges::Nothing => {}
        Ranges::One(start, end) => {
            command::put(buffer, 0, [start, end]);
        }
        Ranges::Two(start, end) => {
            command::put(buffer, 0, [start, 1.0, 0.0, end]);
        }
    }
}

// Puts the cut lengths of one range down from a place on. Buffer and place as in `command::put`.
#[tactic(auto, using(command::proofs::Buffers::sets_append))]
fn put_cut(cuts: Cuts, buffer: &mut [f32], at: usize)
    requires { at + 3 ≤ length buffer.old }
    ensures { buffer.new ≡ sets buffer.old at (cut_numbers cuts) }
{
    command::put(buffer, at, [cuts.before, cuts.visible, cuts.after]);
}

// Puts the cut lengths of ranges down.
#[tactic(auto, using(command::proofs::Buffers::sets_onto, command::proofs::Buffers::sets_append))]
pub fn put_cuts(total: f32, ranges: Ranges, buffer: &mut [f32])
    requires { 6 ≤ length buffer.old }
    ensures { buffer.new ≡ onto (cut_all total (range_ends ranges)) buffer.old }
{
    match ranges {
        Ranges::Nothing => {}
        Ranges::One(start, end) => put_cut(cuts_of(total, start, end), buffer, 0),
        Ranges::Two(start, end) => {
            put_cut(cuts_of(total, start, 1.0), buffer, 0);
            put_cut(cuts_of(total, 0.0, end), buffer, 3);
        }
    }
}
