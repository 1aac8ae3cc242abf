// The program: reads a text from standard input and prints its tree.
#![tactic(auto)]

ghost use Rattle.std.specs.Prelude.{◌≡◌, ◌≤◌, ◌<◌, length};
ghost use Rattle.read.specs.Reply.{Written, print_room, reply_to};

use read_input::{MOST, read_input};
use read_output::{put_refusal, write_answer};
use refusals::refusal::Refusal;

// What the program writes for a text, first in `out`; how many bytes. The buffers are long enough for any text of MOST bytes.
fn reply(text: &[u8], out: &mut [u8]) -> usize
    requires { length out.old ≡ print_room }
    ensures { Written (reply_to text.now) out.new result }
{
    if MOST < text.len() {
        return put_refusal(out, Refusal::LongText.number());
    }
    let mut table = [0u32; 3 * MOST];
    let mut work = [0u32; 2 * (MOST + 1)];
    let mut tree = [0u32; 32 * (MOST + 1)];
    match print::print(text, &mut table, &mut work, &mut tree, out) {
        Ok(printed) => printed.len,
        Err(refusal) => put_refusal(out, refusal.number()),
    }
}

// One byte more than the most tells a text that is too long.
// kept: a `main` in each program, since a public function over the reply would ask that it can be called
fn main(rt: HostRuntime) {
    let mut input = [0u8; MOST + 1];
    if let Some(n) = read_input(&rt, &mut input) {
        let mut out = [0u8; 65536];
        let len = reply(&input[..n], &mut out);
        write_answer(&rt, &out, len);
    }
}
