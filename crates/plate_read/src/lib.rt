// The text of a plate, as the program `plate` reads it: checked and turned into vertices, line by line.
#![tactic(auto)]

ghost use Rattle.std.specs.Prelude.{◌≡◌, ◌==◌, not, map, position, IfOk};
ghost use Rattle.command.specs.Buffers.{onto};
ghost use Rattle.plate_read.specs.Text.{most_vertices, read_lines, read_text, reading_of, numbers_given};
ghost use Rattle.plate_read.specs.Fields.{pattern_after, field_pattern, line_patterns};

use command::{Outcome, Refusal};
use std::num::f32_from_bits_with_nan;

// What a text in form gives: the closed flag, and how many vertices there are.
#[derive(Clone, Copy)]
pub struct Reading {
    // A number, since any may stand in a text: the drawing call refuses what is neither 0 nor 1.
    pub closed: u32,
    pub count: usize,
}

// The value of digits, if they are digits and it is a pattern of 32 bits.
// By hand: std's `u32::from_str_radix` takes a `&str`, where these are any bytes, and a `+` before the digits.
#[tactic(auto, using(crate::proofs::Fields::values))]
fn digits_value(digits: &[u8]) -> Option<u32>
    ensures { result ≡ pattern_after 0 digits.now }
{
    let mut value: u32 = 0;
    for byte in digits {
        if !byte.is_ascii_digit() {
            return None;
        }
        let tens = value.checked_mul(10)?;
        value = tens.checked_add(u32::from(*byte - b'0'))?;
    }
    Some(value)
}

// The place of a field's first byte that is no blank.
fn after_blanks(field: &[u8; 11]) -> Option<usize>
    ensures { result ≡ position (λ b. not (b == 32)) field.now }
{
    field.iter().position(|byte| *byte != b' ')
}

// The value of a field: blanks, and then digits, one or more.
#[tactic(auto, using(crate::proofs::Fields::fields))]
fn field_value(field: &[u8; 11]) -> Option<u32>
    ensures { result ≡ field_pattern field.now }
{
    let first = after_blanks(field)?;
    digits_value(&field[first..])
}

// The values of N fields, if they and a newline stand at the start of a text.
#[tactic(auto, using(crate::proofs::Lines::lines), unfolding(crate::specs::Fields::line_patterns, crate::specs::Fields::field_pattern))]
fn line_values<const N: usize>(text: &[u8]) -> Option<[u32; N]>
    ensures { result ≡ line_patterns N text.now }
{
    let mut values = [0; N];
    let mut rest = text;
    for value in values.iter_mut() {
        let (field, after) = rest.split_first_chunk()?;
        *value = field_value(field)?;
        rest = after;
    }
    match rest.first() {
        Some(b'\n') => Some(values),
        _ => None,
    }
}

// Reads the vertex lines, and writes six numbers for each of them from the start of a list.
// After a refusal the list may hold the numbers of the lines before.
// The lines are counted by hand, since after the loop the count is handed back: `enumerate` would have it in the loop alone.
#[tactic(auto, using(crate::proofs::Fills::fills), unfolding(crate::specs::Text::before, crate::specs::Text::reading_of, crate::specs::Text::numbers_given))]
fn read_lines(lines: &[u8], closed: u32, numbers: &mut [f32; 1536]) -> Outcome<Reading>
    ensures told { result ≡ reading_of (read_lines closed most_vertices lines.now) }
    ensures written { IfOk result (λ r. numbers.new ≡ onto (numbers_given (read_lines closed most_vertices lines.now)) numbers.old) }
{
    let mut count = 0;
    for line in lines.chunks(67) {
        if count == 256 {
            return Err(Refusal::TooMany);
        }
        let patterns = line_values::<6>(line).ok_or(Refusal::Unlisted)?;
        let vertex = patterns.map(|pattern| f32_from_bits_with_nan(pattern));
        command::put(numbers, 6 * count, vertex);
        count += 1;
    }
    Ok(Reading { closed, count })
}

// Reads a text, and writes the six numbers of each vertex from the start of `vertices`.
// A refusal writes nothing. A vertex is six numbers of one flat list, as C hands vertices over.
#[tactic(auto, using(crate::proofs::Fills::readings), unfolding(crate::specs::Text::read_text, crate::specs::Text::reading_of, crate::specs::Text::numbers_given, crate::specs::Fields::line_patterns))]
pub fn read(text: &[u8], vertices: &mut [f32; 1536]) -> Outcome<Reading>
    ensures told { result ≡ reading_of (read_text text.now) }
    ensures written { vertices.new ≡ onto (numbers_given (read_text text.now)) vertices.old }
{
    let [closed] = line_values::<1>(text).ok_or(Refusal::Unlisted)?;
    let mut numbers = *vertices;
    let reading = read_lines(&text[12..], closed, &mut numbers)?;
    *vertices = numbers;
    Ok(reading)
}
