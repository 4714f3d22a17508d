// A repeater answered: the order of its copies, and the numbers of one of them.
#![tactic(auto)]

ghost use Rattle.std.specs.Prelude.{◌≡◌, not, [], ◌∷◌, ◌≤◌, ◌<◌, Ok, length, get_or};
ghost use Rattle.std.proofs.lemmas.List.Edits.{sets};
ghost use Rattle.ieee.specs.Limit.{all_within};
ghost use Rattle.command.specs.declared.Refusal.TheVariants.{NotFinite};
ghost use Rattle.command.specs.Outcomes.{◌gives◌, checked, AllPass};
ghost use Rattle.command.specs.Buffers.{FilledWith};
ghost use Rattle.copies.specs.Order.{order_of};
ghost use Rattle.copies.specs.Calls as spec;

use command::{Outcome, Refusal};
use matrix::Matrix;
use point::Point;
use repeater::RepeaterStyle;

// A repeater from the eleven numbers that C lends, and the mode, a number too: any may come.
pub fn repeater_of(numbers: &[f32], mode: u8) -> RepeaterStyle
    requires { 11 ≤ length numbers.now }
    ensures { result ≡ spec.repeater_of numbers.now mode }
{
    RepeaterStyle {
        copies: numbers[0],
        offset: numbers[1],
        mode,
        anchor: Point {
            x: numbers[2],
            y: numbers[3],
        },
        position: Point {
            x: numbers[4],
            y: numbers[5],
        },
        scale: Point {
            x: numbers[6],
            y: numbers[7],
        },
        rotation: numbers[8],
        start_opacity: numbers[9],
        end_opacity: numbers[10],
    }
}

#[tactic(auto, unfolding(crate::specs::Calls::has_too_many))]
fn has_too_many(repeater: RepeaterStyle) -> bool
    ensures { result ≡ spec.has_too_many repeater }
{
    repeater.copies > 4096.0 || float::abs(repeater.offset) > 4096.0
}

// Whether its numbers are all within the limit.
fn is_within(repeater: RepeaterStyle) -> bool
    ensures { result ≡ all_within spec.repeater_limit (spec.repeater_numbers repeater) }
{
    let numbers = [
        repeater.copies,
        repeater.offset,
        repeater.anchor.x,
        repeater.anchor.y,
        repeater.position.x,
        repeater.position.y,
        repeater.scale.x,
        repeater.scale.y,
        repeater.rotation,
        repeater.start_opacity,
        repeater.end_opacity,
    ];
    float::all_within(&numbers, 1048576.0)
}

#[tactic(auto, unfolding(crate::specs::Calls::repeater_checks))]
pub fn check_repeater(repeater: RepeaterStyle) -> Outcome<()>
    ensures { result ≡ checked (spec.repeater_checks repeater) (Ok tt) }
{
    if has_too_many(repeater) {
        return Err(Refusal::TooMany);
    }
    if !is_within(repeater) {
        return Err(Refusal::OutOfRange);
    }
    Ok(())
}

// The order in which copies are drawn.
#[derive(Clone, Copy)]
struct Order {
    // In mode 1 from the first on, with any other number from the last on. It stays the number that C lends and `order_of` of specs/
    // takes, since only `mode == 1` is asked of it.
    mode: u8,
    // How many there are.
    count: u32,
    ghost few: { count ≤ 4096 },
}

impl Order {
    // The copy at a place.
    #[tactic(auto, using(crate::proofs::Ways::places))]
    fn copy_at(self, place: u32) -> u32
        requires { place < self.count }
        ensures { result ≡ get_or (order_of self.mode self.count) place 0 }
    {
        if self.mode == 1 {
            place
        } else {
            self.count - 1 - place
        }
    }

    // Puts it down from the start of a list.
    #[tactic(auto, using(crate::proofs::Ways::puttings))]
    fn put(self, order: &mut [u32])
        requires { self.count ≤ length order.old }
        ensures { order.new ≡ sets order.old 0 (order_of self.mode self.count) }
    {
        // By the place, which `copy_at` takes: over the list's own places (`iter_mut` with `zip`) the proof did not close at once.
        for place in 0..self.count {
            order[place as usize] = self.copy_at(place);
        }
    }

    // Puts it down if it fits.
    #[tactic(auto, using(command::proofs::Buffers::sets_onto, crate::proofs::Ways::order_length), unfolding(command::specs::Buffers::fitted))]
    fn write(self, order: &mut [u32]) -> Outcome<usize>
        ensures { FilledWith (Ok (order_of self.mode self.count)) result order.old order.new }
    {
        let count = self.count as usize;
        if count <= order.len() {
            self.put(order);
            Ok(count)
        } else {
            Err(Refusal::BufferTooSmall)
        }
    }
}

// The order of a repeater's copies.
#[tactic(auto, using(crate::proofs::Ways::orders), unfolding(command::specs::Buffers::fitted))]
pub fn copy_order(repeater: RepeaterStyle, order: &mut [u32]) -> Outcome<usize>
    ensures { FilledWith (spec.order_answer repeater) result order.old order.new }
{
    check_repeater(repeater)?;
    let count = repeater.copy_count() as u32;
    let mode = repeater.mode;
    Order { mode, count }.write(order)
}

// Whether all numbers are finite.
fn are_finite(numbers: &[f32]) -> bool
    ensures { result ≡ spec.all_finite numbers.now }
{
    numbers.iter().all(|x| float::is_finite(*x))
}

// The numbers of a copy, if they are finite and fit.
#[tactic(auto, unfolding(command::specs::Buffers::fitted))]
fn write_copy(numbers: &[f32; 7], matrix: &mut [f32]) -> Outcome<usize>
    ensures { FilledWith (checked ((not (spec.all_finite numbers.now) gives NotFinite) ∷ []) (Ok numbers.now)) result matrix.old matrix.new }
{
    if !are_finite(numbers) {
        return Err(Refusal::NotFinite);
    }
    if matrix.len() < 7 {
        return Err(Refusal::BufferTooSmall);
    }
    matrix[..7].copy_from_slice(numbers);
    Ok(7)
}

// The numbers of one copy of a sound repeater.
#[tactic(auto, using(crate::proofs::Ways::sounds), unfolding(command::specs::Buffers::fitted, crate::specs::Calls::copy_answer, crate::specs::Calls::copy_numbers))]
fn write_sound(repeater: RepeaterStyle, copy: usize, matrix: &mut [f32]) -> Outcome<usize>
    requires { AllPass (spec.repeater_checks repeater) }
    ensures { FilledWith (spec.copy_answer repeater copy) result matrix.old matrix.new }
{
    let k = copy as u64;
    if k >= repeater.copy_count() {
        return Err(Refusal::NoSuchCopy);
    }
    let m = repeater.copy_transform(k);
    let opacity = repeater.copy_opacity(k);
    write_copy(&[m.a, m.b, m.c, m.d, m.e, m.f, opacity], matrix)
}

// The numbers of one copy.
#[tactic(auto, using(crate::proofs::Ways::transforms), unfolding(command::specs::Buffers::fitted))]
pub fn copy_transform(repeater: RepeaterStyle, copy: usize, matrix: &mut [f32]) -> Outcome<usize>
    ensures { FilledWith (spec.transform_answer repeater copy) result matrix.old matrix.new }
{
    check_repeater(repeater)?;
    write_sound(repeater, copy, matrix)
}
