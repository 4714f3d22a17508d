// The answer of the program `plate` as text: commands, the length and refusals, printed to a buffer of bytes.
// Each byte is put down by hand: std's `write!` says what it writes where it gives Ok, but not when it does, and these
// contracts name every byte for every input.
#![tactic(auto)]

ghost use Rattle.std.specs.Prelude.{◌≡◌, [], ◌∷◌, map, ◌+◌, ◌*◌, ◌≤◌, ◌<◌, length};
ghost use Rattle.std.specs.Float.{binary32};
ghost use Rattle.std.specs.Float.Ieee.{to_bits};
ghost use Rattle.std.proofs.lemmas.List.Edits.{sets};
ghost use Rattle.command.specs.Buffers.{onto};
ghost use Rattle.judge.specs.Lists.{place_of};
ghost use Rattle.plate_print.specs.Appended.{Appended, HasRoom};
ghost use Rattle.plate_print.specs.Lines.{digit_of, leading_digit, leading, column, columns, line, numbers_line, refusal_text, list_lines, list_text};

use command::Refusal;
use std::num::f32_to_bits_with_nan;

// The last digit of a number.
#[tactic(auto, unfolding(crate::specs::Lines::digit_of))]
fn digit(n: u32) -> u8
    ensures { result ≡ digit_of n }
{
    b'0' + (n % 10) as u8
}

// The last digit of a number, or a blank where there is none left.
#[tactic(auto, unfolding(crate::specs::Lines::leading_digit))]
fn leading_digit(n: u32) -> u8
    ensures { result ≡ leading_digit n }
{
    if n == 0 { b' ' } else { digit(n) }
}

// A number in the columns before the last one, from the right. No method of `Text`: its promise would have to say that `at` stays.
// By index, since of a slice that is written through `iter_mut().rev()` a proof knows only the length.
#[tactic(auto, using(crate::proofs::Ways::leads))]
fn put_leading(out: &mut [u8], at: usize, width: usize, value: u32)
    requires { at + width ≤ length out.old }
    ensures { out.new ≡ sets out.old at (leading width value) }
{
    let mut rest = value;
    for i in (0..width).rev() {
        out[at + i] = leading_digit(rest);
        rest /= 10;
    }
}

// A buffer of bytes, and the place up to which it is written.
#[derive(Drop)]
struct Text<'a> {
    out: &'a mut [u8],
    at: usize,
}

impl Text<'_> {
    // A number in columns.
    #[tactic(auto, using(crate::proofs::Ways::writing))]
    fn put_column(&mut self, width: usize, value: u32)
        requires { (0 < width) × HasRoom self.old width }
        ensures { Appended self.old self.new (column width value) }
    {
        let last = self.at + (width - 1);
        put_leading(self.out, self.at, width - 1, value / 10);
        self.out[last] = digit(value);
        self.at = last + 1;
    }

    // The bits of numbers in 11 columns each.
    #[tactic(auto, using(crate::proofs::Ways::columning), unfolding(crate::specs::Lines::columns))]
    fn put_columns(&mut self, numbers: &[f32])
        requires { HasRoom self.old (11 * length numbers.now) }
        ensures { Appended self.old self.new (columns (map (to_bits binary32) numbers.now)) }
    {
        for number in numbers {
            self.put_column(11, f32_to_bits_with_nan(*number));
        }
    }

    fn put_newline(&mut self)
        requires { HasRoom self.old 1 }
        ensures { Appended self.old self.new (10 ∷ []) }
    {
        self.out[self.at] = b'\n';
        self.at += 1;
    }

    // A line of a code and the bits of numbers. A plate's lines begin with a number: a command's code, or 8 or 9, which are no
    // command's code.
    #[tactic(auto, using(crate::proofs::Ways::writing), unfolding(crate::specs::Lines::numbers_line, crate::specs::Lines::line))]
    fn put_numbers_line(&mut self, code: u8, numbers: &[f32])
        requires { HasRoom self.old (3 + 11 * length numbers.now) }
        ensures { Appended self.old self.new (numbers_line code numbers.now) }
    {
        self.put_column(2, u32::from(code));
        self.put_columns(numbers);
        self.put_newline();
    }

    // A line of 8 or 9, which are no command's code, and 32 bits: the number of a refusal, or the pattern of a length.
    // With a closure for the bits, one function for this and `put_numbers_line` is no plainer.
    #[tactic(auto, using(crate::proofs::Ways::writing), unfolding(crate::specs::Lines::line, crate::specs::Lines::columns))]
    fn put_line(&mut self, code: u32, value: u32)
        requires { HasRoom self.old 14 }
        ensures { Appended self.old self.new (line code (value ∷ [])) }
    {
        self.put_column(2, code);
        self.put_column(11, value);
        self.put_newline();
    }

    // A line for each command. Codes and numbers are two parameters for the reason at `judge::judge`.
    #[tactic(auto, using(crate::proofs::Ways::commanding), unfolding(crate::specs::Lines::list_lines, judge::specs::Lists::place_of))]
    fn put_commands(&mut self, codes: &[u8], numbers: &[f32])
        requires listed { place_of (length codes.now) codes.now ≤ length numbers.now }
        requires room { HasRoom self.old (69 * length codes.now) }
        ensures { Appended self.old self.new (list_lines codes.now numbers.now) }
    {
        let mut rest = numbers;
        for code in codes {
            let (own, after) = rest.split_at(reader::size_of_code(*code));
            self.put_numbers_line(*code, own);
            rest = after;
        }
    }
}

// Prints a refusal from the start of a buffer, and gives the text's length.
#[tactic(auto, using(crate::proofs::Ways::writing), unfolding(crate::specs::Lines::refusal_text))]
pub fn print_refusal(refusal: Refusal, out: &mut [u8]) -> usize
    requires { 14 ≤ length out.old }
    ensures told { result ≡ length (refusal_text refusal) }
    ensures printed { out.new ≡ onto (refusal_text refusal) out.old }
{
    let mut text = Text { out, at: 0 };
    text.put_line(8, u32::from(refusal));
    text.at
}

// Prints commands and the path's length from the start of a buffer, and gives the text's length. A line has at most 69 bytes,
// the last one 14. Codes and numbers are two parameters for the reason at `judge::judge`.
#[tactic(auto, using(crate::proofs::Ways::writing), unfolding(crate::specs::Lines::list_text, crate::specs::Lines::numbers_line))]
pub fn print_answer(codes: &[u8], numbers: &[f32], total: f32, out: &mut [u8]) -> usize
    requires listed { place_of (length codes.now) codes.now ≤ length numbers.now }
    requires room { 69 * length codes.now + 14 ≤ length out.old }
    ensures told { result ≡ length (list_text codes.now numbers.now total) }
    ensures printed { out.new ≡ onto (list_text codes.now numbers.now total) out.old }
{
    let mut text = Text { out, at: 0 };
    text.put_commands(codes, numbers);
    text.put_line(9, f32_to_bits_with_nan(total));
    text.at
}
