// Standard input, read in one place for the programs of `./read`. A contract can say neither which bytes a read brings nor what it answers.
// Proved is what follows from an answer, that a read that fails is no end of the input above all; that the loop goes by it is tried.
#![tactic(auto)]

ghost use Rattle.std.specs.Prelude.{◌≡◌, ◌-◌, ◌≤◌, length};
ghost use Rattle.read_input.specs.Reads.{next_of, Fitting, Moved, Standing};

use std::fmt::Display;
use std::io;
use std::io::{ErrorKind, Read};

// A text of more bytes is refused.
pub const MOST: usize = 500;

// What follows from a read that was asked for what is left of `most` bytes, `done` of which were read before: so many bytes are read in
// all, or the input has ended.
fn after(got: io::Result<usize>, done: usize, most: usize) -> io::Result<Option<usize>>
    requires done_le_most { done ≤ most }
    requires moved { Moved (most - done) got }
    ensures { result ≡ next_of got done }
{
    match got {
        Ok(0) => Ok(None),
        Ok(n) => Ok(Some(done + n)),
        Err(error) if error.kind() == ErrorKind::Interrupted => Ok(Some(done)),
        Err(error) => Err(error),
    }
}

// One read, behind the first `done` bytes.
fn read_more(input: &mut impl Read, buf: &mut [u8], done: usize) -> io::Result<Option<usize>>
    requires { done ≤ length buf.old }
    ensures { Fitting result (length buf.old) }
{
    let most = buf.len();
    let got = input.read(&mut buf[done..]);
    after(got, done, most)
}

// The line on standard error that says why the input can't be read.
fn say_why<D: Display + Drop>(rt: &impl Eprint, why: D) {
    let _ = eprintln!(rt; "read: can't read the input: {why}");
}

// Reads until the buffer is full or the input ends. A proved loop has to end: this one counts its turns, which no run uses up.
fn fill(rt: &impl Eprint, input: &mut impl Read, buf: &mut [u8]) -> Option<usize>
    ensures { Standing result buf.new }
{
    let mut done = 0;
    for _ in 0..u64::MAX {
        if done == buf.len() {
            return Some(done);
        }
        match read_more(input, buf, done) {
            Ok(Some(n)) => done = n,
            Ok(None) => return Some(done),
            Err(error) => {
                say_why(rt, error);
                return None;
            }
        }
    }
    say_why(rt, "too many reads");
    None
}

// Reads standard input: how many of its bytes stand first in the buffer. Where that fails, a line on standard error says why.
pub fn read_input(rt: &(impl io::Input + Eprint), buf: &mut [u8]) -> Option<usize>
    ensures { Standing result buf.new }
{
    fill(rt, &mut rt.reader(), buf)
}
