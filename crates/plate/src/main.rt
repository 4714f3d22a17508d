// Draws the path whose text stands on standard input, and prints its commands and its length.
#![tactic(auto)]

use std::io;
use std::io::Write;

// 17,165 bytes of a text decide the answer, and the buffer has room for more.
fn main(rt: HostRuntime) -> io::Result<()> {
    let mut text = [0; 65536];
    let n = pattern_text::read_full(&mut rt.stdin(), &mut text)?;
    let mut answer = [0; 17816];
    let m = plate_text::plate(&text[..n], &mut answer);
    rt.stdout().write_all(&answer[..m])
}
