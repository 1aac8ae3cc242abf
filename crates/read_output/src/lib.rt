// What the programs of `./read` write: the line of a refusal, and an answer to standard output.
#![tactic(auto)]

ghost use Rattle.writer.specs.Put.{Put};
ghost use Rattle.read_output.specs.Line.{refusal};

use writer::{put_bytes, put_number};

// The line of a refusal, first in `out`; its length.
pub fn put_refusal(out: &mut [u8], number: u8) -> usize
    ensures { Put out.old 0 out.new result (refusal number) }
{
    let end = put_number(out, 0, b"refused=", number as u64);
    put_bytes(out, end, b"\n")
}

// Writes the first `len` bytes, as many of them as there are, to standard output. Where that fails a line on standard error says why. It
// answers nothing and changes nothing that it is lent; what reaches a descriptor no contract can name, and it is tried.
pub fn write_answer(rt: &(impl Print + Eprint), bytes: &[u8], len: usize) {
    let written = if len < bytes.len() {
        rt.write_all(&bytes[..len])
    } else {
        rt.write_all(bytes)
    };
    if let Err(error) = written {
        let _ = eprintln!(rt; "read: can't write the answer: {error}");
    }
}
