// The program of `./read --mathml`: reads a text from standard input and writes its MathML, and a newline.
#![tactic(auto)]

use read_input::{MOST, read_input};
use read_output::{put_refusal, write_answer};
use refusals::refusal::Refusal;
use writer::put_bytes;

// What the program writes for a text, first in `out`; how many bytes. Table, work and tree are long enough for any text of so many bytes.
fn reply(text: &[u8], out: &mut [u8]) -> usize {
    if MOST < text.len() {
        return put_refusal(out, Refusal::LongText.number());
    }
    let mut table = [0u32; 3 * MOST];
    let mut work = [0u32; 2 * (MOST + 1)];
    let mut tree = [0u32; 32 * (MOST + 1)];
    match mathml::mathml(text, &mut table, &mut work, &mut tree, out) {
        Ok(marked) => put_bytes(out, marked.len, b"\n"),
        Err(refusal) => put_refusal(out, refusal.number()),
    }
}

// One byte more than the most tells a text that is too long.
// kept: a `main` in each program, since a public function over the reply would ask that it can be called
fn main(rt: HostRuntime) {
    let mut input = [0u8; MOST + 1];
    if let Some(n) = read_input(&rt, &mut input) {
        let mut out = [0u8; 65536];
        let len = reply(&input[..n], &mut out);
        write_answer(&rt, &out, len);
    }
}
