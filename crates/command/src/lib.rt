// Path commands, the refusals of a call, and one command written to the two buffers of a path.
#![tactic(auto)]

ghost use Rattle.std.specs.Prelude.{◌≡◌, [], ◌∷◌, ◌+◌, ◌≤◌, length};
ghost use Rattle.std.proofs.lemmas.List.Edits.{sets};
ghost use Rattle.command.specs.Commands.{code_of, coordinates_of};
ghost use Rattle.command.specs.Refusals.{refusal_number};
ghost use Rattle.command.specs.Outcomes.{mapped, number_of, Counted};
ghost use Rattle.command.specs.Buffers.{pair_of};

// A path command, with its coordinates.
#[derive(Clone, Copy)]
pub enum PathCommand {
    Move(f32, f32),
    Line(f32, f32),
    Cubic(f32, f32, f32, f32, f32, f32),
    Close,
    Quad(f32, f32, f32, f32),
}

// Why a call gives no answer, with the number by which C knows it.
#[derive(Clone, Copy, PartialEq, Eq)]
pub enum Refusal {
    Empty = 1,
    TooMany = 2,
    OutOfRange = 3,
    Unlisted = 4,
    Unsupported = 5,
    BrokenNesting = 6,
    NotMergeable = 7,
    TooShort = 8,
    NoSuchCopy = 9,
    NotFinite = 10,
    BufferTooSmall = 11,
    OutOfBounds = 12,
}

// What a call comes to: an answer, or the first refusal.
pub type Outcome<T> = Result<T, Refusal>;

// So many codes and so many numbers: what a shape needs of two buffers, or how much of both is filled.
#[derive(Clone, Copy, Default)]
pub struct Size {
    pub codes: usize,
    pub numbers: usize,
}

impl From<Refusal> for u32 {
    ghost from_gives = { λ refusal number. number ≡ refusal_number refusal };

    fn from(refusal: Refusal) -> u32 {
        refusal as u32
    }
}

// The number that a call hands back: 0 for an answer.
pub fn number_of<T: Drop>(outcome: Outcome<T>) -> u32
    ensures { result ≡ number_of outcome }
{
    match outcome {
        Err(refusal) => u32::from(refusal),
        Ok(_) => 0,
    }
}

// Tells two counts at places of the caller's, both 0 for a refusal, and hands the number back.
pub fn tell(counts: Outcome<(usize, usize)>, first: &mut usize, second: &mut usize) -> u32
    ensures { Counted counts result first.new second.new }
{
    (*first, *second) = counts.unwrap_or((0, 0));
    number_of(counts)
}

// The same of the codes and numbers that are needed or written.
pub fn tell_size(size: Outcome<Size>, codes: &mut usize, numbers: &mut usize) -> u32
    ensures { Counted (mapped pair_of size) result codes.new numbers.new }
{
    tell(size.map(|size| (size.codes, size.numbers)), codes, numbers)
}

// Numbers at a place, and the place after them. A buffer and a place stay apart where numbers are put: a type for both would be made at
// each call and taken apart here.
pub fn put<const N: usize>(numbers: &mut [f32], at: usize, values: [f32; N]) -> usize
    requires { at + N ≤ length numbers.old }
    ensures { (result ≡ at + N) × (numbers.new ≡ sets numbers.old at values.entry) }
{
    // One by one: with `copy_from_slice` a path takes more instructions than it did before (docs/CHANGES.md).
    for k in 0..N {
        numbers[at + k] = values[k];
    }
    at + N
}

impl PathCommand {
    // Its code.
    pub fn code(self) -> u8
        ensures { result ≡ code_of self }
    {
        match self {
            PathCommand::Move(_, _) => 0,
            PathCommand::Line(_, _) => 1,
            PathCommand::Cubic(_, _, _, _, _, _) => 2,
            PathCommand::Close => 3,
            PathCommand::Quad(_, _, _, _) => 4,
        }
    }

    // Its numbers at a place, and the place after them.
    pub fn put_numbers(self, numbers: &mut [f32], at: usize) -> usize
        requires { at + length (coordinates_of self) ≤ length numbers.old }
        ensures { (result ≡ at + length (coordinates_of self)) × (numbers.new ≡ sets numbers.old at (coordinates_of self)) }
    {
        match self {
            PathCommand::Move(x, y) | PathCommand::Line(x, y) => put(numbers, at, [x, y]),
            PathCommand::Cubic(ax, ay, bx, by, x, y) => put(numbers, at, [ax, ay, bx, by, x, y]),
            PathCommand::Close => at,
            PathCommand::Quad(ax, ay, x, y) => put(numbers, at, [ax, ay, x, y]),
        }
    }
}
