// The program `plate` as a function: a text is read, its path drawn and measured, and the answer printed.
#![tactic(auto)]

ghost use Rattle.std.specs.Prelude.{◌≡◌, ◌+◌, ◌*◌, ◌≤◌, length};
ghost use Rattle.command.specs.Buffers.{onto};
ghost use Rattle.draw.specs.Paths.{draw_path};
ghost use Rattle.length.specs.Lists.{measure_list};
ghost use Rattle.plate_text.specs.Plate.{drawn_text, plate_text, measured_text};

use plate_read::Reading;

// Prints a command list and its length, or why it has none, into fixed memory, as all that is printed here: `plate` has no
// heap. Each step prints its own refusal: so its contract names the whole text that is printed, and not a text or a refusal
// that the caller has yet to print. Codes and numbers are two parameters for the reason at `judge::judge`.
#[tactic(auto, using(crate::proofs::Ways::measured_there), unfolding(crate::specs::Plate::measured_text))]
fn print_measured(codes: &[u8], numbers: &[f32], out: &mut [u8]) -> usize
    requires { 69 * length codes.now + 14 ≤ length out.old }
    ensures told { result ≡ length (measured_text codes.now numbers.now (measure_list codes.now numbers.now)) }
    ensures printed { out.new ≡ onto (measured_text codes.now numbers.now (measure_list codes.now numbers.now)) out.old }
{
    match length::path_length(codes, numbers) {
        Err(refusal) => plate_print::print_refusal(refusal, out),
        Ok(total) => plate_print::print_answer(codes, numbers, total, out),
    }
}

// Draws the path that was read, of at most 256 vertices, and prints it. Such a path has at most 258 commands.
#[tactic(auto, using(crate::proofs::Ways::drawing))]
fn print_drawn(reading: Reading, vertices: &[f32], out: &mut [u8]) -> usize
    requires { (reading.count ≤ 256) × (17816 ≤ length out.old) }
    ensures told { result ≡ length (drawn_text (draw_path reading.closed vertices.now reading.count)) }
    ensures printed { out.new ≡ onto (drawn_text (draw_path reading.closed vertices.now reading.count)) out.old }
{
    let mut codes = [0; 258];
    let mut numbers = [0.0; 1538];
    let Reading { closed, count } = reading;
    match draw::draw_path(closed, vertices, count, &mut codes, &mut numbers) {
        Err(refusal) => plate_print::print_refusal(refusal, out),
        Ok(size) => print_measured(&codes[..size.codes], &numbers[..size.numbers], out),
    }
}

// Prints the answer to a text from the start of a buffer, and gives the answer's length.
#[tactic(auto, using(crate::proofs::Ways::plates))]
pub fn plate(text: &[u8], out: &mut [u8; 17816]) -> usize
    ensures told { result ≡ length (plate_text text.now) }
    ensures printed { out.new ≡ onto (plate_text text.now) out.old }
{
    let mut vertices = [0.0; 1536];
    match plate_read::read(text, &mut vertices) {
        Err(refusal) => plate_print::print_refusal(refusal, out),
        Ok(reading) => print_drawn(reading, &vertices[..6 * reading.count], out),
    }
}
