// Calls in a text, as the vectors programs read them, and what they print of answers.
// A line is a word and numbers of eight hexadecimal digits, with one blank before each. Any bytes are a line: a number is what
// stands at its place, whatever is written there.
#![tactic(auto)]

ghost use Rattle.std.specs.Prelude.{◌≡◌, ◌%◌, ◌<◌, ◌≤◌, length, get_or, drop, min, None, IfOk, IfSome, IfNone};
ghost use Rattle.pattern_text.specs.Text.{place_of, FirstLine, word_place, numbers_place, GoesWell, Answered};

use command::{Outcome, Size};
use std::io::{Read, Write};
use std::num::f32_from_bits_with_nan;
use std::{fmt, io};

// Reads until the buffer is full or the input ends, and gives how many bytes it put at the buffer's start. The memory is
// fixed, so std's `read_to_end`, which fills a Vec, does not serve.
pub fn read_full(input: &mut impl Read, text: &mut [u8]) -> io::Result<usize>
    ensures { IfOk result (λ n. n ≤ length text.new) }
{
    let mut done = 0;
    while done < text.len() {
        let n = input.read(&mut text[done..])?;
        if n == 0 {
            break;
        }
        done += n;
    }
    Ok(done)
}

// A call that a line asks for: the line, how many numbers are in it, and these, or the first of them that there was room for.
#[derive(Clone, Copy)]
pub struct Call<'a> {
    pub line: &'a [u8],
    pub given: usize,
    pub patterns: &'a [u32],
}

impl Call<'_> {
    // The number at a place, and 0 past the last one.
    pub fn field(&self, place: usize) -> u32
        ensures { result ≡ get_or self.now.patterns.now place 0 }
    {
        self.patterns.get(place).copied().unwrap_or(0)
    }

    // The same as a length or a place.
    pub fn size(&self, place: usize) -> usize
        ensures { result ≡ get_or self.now.patterns.now place 0 }
    {
        self.field(place) as usize
    }

    // The number's last eight bits.
    pub fn byte(&self, place: usize) -> u8
        ensures { result ≡ get_or self.now.patterns.now place 0 % 256 }
    {
        (self.field(place) % 256) as u8
    }

    // The float whose pattern stands at a place.
    pub fn float(&self, place: usize) -> f32 {
        f32_from_bits_with_nan(self.field(place))
    }

    // How many places are lent of a buffer that has so many.
    pub fn lent(&self, place: usize, most: usize) -> usize
        ensures value { result ≡ min (get_or self.now.patterns.now place 0) most }
        ensures within { result ≤ most }
    {
        self.size(place).min(most)
    }

    // The numbers from a place on.
    pub fn after(&self, place: usize) -> &[u32]
        ensures { result.now ≡ drop place self.now.patterns.now }
    {
        &self.patterns[place.min(self.patterns.len())..]
    }

    // Fills a list with the floats from a place on, over and over.
    pub fn fill(&self, place: usize, list: &mut [f32]) {
        let given = self.given.saturating_sub(place);
        fill_with(list, self.after(place), given, |pattern| {
            f32_from_bits_with_nan(pattern)
        });
    }

    // Fills the codes and the numbers of a path. At the place stands how many codes are given, 900 at most, and the numbers
    // follow them.
    pub fn fill_path(&self, place: usize, codes: &mut [u8], numbers: &mut [f32]) {
        let first = place.saturating_add(1);
        let given = self.lent(place, 900);
        fill_with(codes, self.after(first), given, |pattern| {
            (pattern % 256) as u8
        });
        self.fill(first.saturating_add(given), numbers);
    }
}

// Fills a list with what the first n patterns stand for, over and over: a thousand of them at most, where the first stands for
// each that follows, and 0 for one that is not there.
fn fill_with<T: Copy, F: Fn(u32) -> T>(list: &mut [T], patterns: &[u32], n: usize, value: F)
    requires { F.IsAlwaysCallable value }
{
    for (i, x) in list.iter_mut().enumerate() {
        let turn = i.checked_rem(n).unwrap_or(0);
        let place = if turn < 1000 { turn } else { 0 };
        *x = value(patterns.get(place).copied().unwrap_or(0));
    }
}

// A float as its pattern, or `nan`.
#[derive(Clone, Copy)]
pub struct Bits(pub f32);

impl fmt::Display for Bits {
    fn fmt<W: fmt::Write>(&self, f: &mut fmt::Formatter<W>) -> fmt::Result {
        if self.0.is_nan() {
            f.write_str("nan")
        } else {
            write!(f, "{:08x}", self.0.to_bits())
        }
    }
}

// Floats, with one blank before each.
#[derive(Clone, Copy)]
pub struct Floats<'a>(pub &'a [f32]);

impl fmt::Display for Floats<'_> {
    fn fmt<W: fmt::Write>(&self, f: &mut fmt::Formatter<W>) -> fmt::Result {
        for x in self.0 {
            write!(f, " {}", Bits(*x))?;
        }
        Ok(())
    }
}

// The codes of a buffer, with one blank before each: what is printed of each is another thing than of a float.
#[derive(Clone, Copy)]
struct Codes<'a>(&'a [u8]);

impl fmt::Display for Codes<'_> {
    fn fmt<W: fmt::Write>(&self, f: &mut fmt::Formatter<W>) -> fmt::Result {
        for code in self.0 {
            write!(f, " {code:02x}")?;
        }
        Ok(())
    }
}

// Two things with a blank between them: two counts, or a word and what it names.
#[derive(Clone, Copy)]
pub struct Pair<A, B>(pub A, pub B);

impl<A: fmt::Display, B: fmt::Display> fmt::Display for Pair<A, B> {
    fn fmt<W: fmt::Write>(&self, f: &mut fmt::Formatter<W>) -> fmt::Result {
        write!(f, "{} {}", self.0, self.1)
    }
}

// What a call answers, or the number of its refusal.
#[derive(Clone, Copy)]
pub struct Answer<T>(pub Outcome<T>);

impl<T: fmt::Display> fmt::Display for Answer<T> {
    fn fmt<W: fmt::Write>(&self, f: &mut fmt::Formatter<W>) -> fmt::Result {
        match &self.0 {
            Err(refusal) => write!(f, "refused {}", u32::from(*refusal)),
            Ok(value) => write!(f, "{value}"),
        }
    }
}

// The answer of a call that fills two buffers, without what they hold.
fn named_size(word: &str, size: Outcome<Size>) -> Answer<Pair<&str, Pair<usize, usize>>> {
    Answer(size.map(|size| Pair(word, Pair(size.codes, size.numbers))))
}

// What a call that fills two buffers needs of them.
#[derive(Clone, Copy)]
pub struct Needed(pub Outcome<Size>);

impl fmt::Display for Needed {
    fn fmt<W: fmt::Write>(&self, f: &mut fmt::Formatter<W>) -> fmt::Result {
        write!(f, "{}", named_size("needed", self.0))
    }
}

// The answer of a call that fills two buffers, and what they hold after it, each on a line.
#[derive(Clone, Copy)]
pub struct Drawn<'a> {
    pub size: Outcome<Size>,
    pub codes: &'a [u8],
    pub numbers: &'a [f32],
}

impl fmt::Display for Drawn<'_> {
    fn fmt<W: fmt::Write>(&self, f: &mut fmt::Formatter<W>) -> fmt::Result {
        writeln!(f, "{}", named_size("written", self.size))?;
        writeln!(f, "codes{}", Codes(self.codes))?;
        write!(f, "numbers{}", Floats(self.numbers))
    }
}

// The value of a hexadecimal digit; of any other byte, how far it lies above the digit before it.
fn digit(byte: u8) -> u32 {
    if byte >= b'a' {
        u32::from(byte - b'a') + 10
    } else {
        u32::from(byte.saturating_sub(b'0'))
    }
}

// The pattern of a number: its eight digits, of which each that is not there is a 0. A byte stands before them.
fn pattern_of(number: &[u8]) -> u32 {
    let mut pattern: u32 = 0;
    for place in 1..9 {
        let digit = digit(number.get(place).copied().unwrap_or(0));
        pattern = pattern % 0x1000_0000 * 16 + digit % 16;
    }
    pattern
}

// The first place of a byte.
fn place_of(byte: u8, text: &[u8]) -> Option<usize>
    ensures { result ≡ place_of byte text.now }
{
    text.iter().position(|b| *b == byte)
}

// Where the numbers begin in a line. The lines of a program are all of one form.
#[derive(Clone, Copy)]
pub enum Form {
    // After a word of at most eight letters: what a line's length leaves when it is divided by nine.
    ByLength,
    // Likewise, but `need-` stands before the word where the line asks what the call needs.
    MayNeed,
    // At the first blank.
    AtBlank,
}

// Where the word of a call stands in a line that may ask what the call needs: after `need-`.
pub fn word_place(line: &[u8]) -> usize
    ensures within { result ≤ length line.now }
    ensures value { result ≡ word_place line.now }
{
    if line.starts_with(b"n") && line.len() >= 5 {
        5
    } else {
        0
    }
}

impl Form {
    fn numbers_place(self, line: &[u8]) -> usize
        ensures within { result ≤ length line.now }
        ensures value { result ≡ numbers_place self line.now }
    {
        match self {
            Form::ByLength => line.len() % 9,
            Form::MayNeed => word_place(line) + (line.len() - word_place(line)) % 9,
            Form::AtBlank => place_of(b' ', line).unwrap_or(line.len()),
        }
    }
}

// Puts down the patterns of numbers from the start of a list, so many as it holds.
fn read_patterns(numbers: &[u8], patterns: &mut [u32]) {
    for (pattern, number) in patterns.iter_mut().zip(numbers.chunks(9)) {
        *pattern = pattern_of(number);
    }
}

// The first line of a text, without its end, and what follows that.
fn first_line(text: &[u8]) -> Option<(&[u8], &[u8])>
    ensures none { IfNone result (place_of 10 text.now ≡ None) }
    ensures line { IfSome result (λ parts. FirstLine text.now parts.0.now parts.1.now) }
    ensures less { IfSome result (λ parts. length parts.1.now < length text.now) }
{
    let end = place_of(b'\n', text)?;
    Some((&text[..end], &text[end + 1..]))
}

// Prints each line of a text and what parts it from its answer, and lets `answer` print on. The text is the first 262,144
// bytes of the input, and its lines end in it. A call has the first 2,048 numbers of its line: no program reads more.
// Each program is a crate with a `main` of its own, which is one call of this, and an `answer` that names the calls by its own words.
// Where to print and the call stay two parameters: what reads a call and prints nothing gets the call alone.
pub fn run<R: Input + Print, F: FnMut(&R, Call<'_>) -> io::Result<()>>(
    rt: &R,
    between: &str,
    form: Form,
    mut answer: F,
) -> io::Result<()>
    requires { F.IsAlwaysCallable answer }
{
    let mut text = [0; 262144];
    let mut patterns = [0; 2048];
    read_full(&mut rt.reader(), &mut text)?;
    run_text(rt, between, form, &text, &mut patterns, &mut answer)
}

// Likewise for a text of any length, which is lent, and its lines that end in it. `patterns` is room for the numbers of a line.
pub fn run_text<R: Print, F: FnMut(&R, Call<'_>) -> io::Result<()>>(
    rt: &R,
    between: &str,
    form: Form,
    text: &[u8],
    patterns: &mut [u32],
    answer: &mut F,
) -> io::Result<()>
    requires { F.IsAlwaysCallable answer.old }
    ensures callable { F.IsAlwaysCallable answer.new }
    ensures answered { IfOk result (λ _. Answered (GoesWell F.step rt.entry.now form (length patterns.old)) answer.old text.now answer.new) }
{
    let mut rest = text;
    while let Some((line, after)) = first_line(rest) {
        let numbers = &line[form.numbers_place(line)..];
        let given = numbers.len().div_ceil(9);
        read_patterns(numbers, patterns);
        io::writer(rt).write_all(line)?;
        print!(rt; "{between}")?;
        let patterns = &patterns[..given.min(patterns.len())];
        answer(
            rt,
            Call {
                line,
                given,
                patterns,
            },
        )?;
        rest = after;
    }
    Ok(())
}
