// The program of `./read --brackets`: reads a text from standard input and writes it with a line below it, in which each bracket and its
// partner have the same letter.
#![tactic(auto)]

ghost use Rattle.std.specs.Prelude.{◌/◌, ◌≤◌, ◌<◌, length};
ghost use Rattle.read_brackets.specs.Place.{PlaceOf};

use read_input::{MOST, read_input};
use read_output::{put_refusal, write_answer};
use refusals::refusal::Refusal;
use tokens::kinds::SPACE;
use writer::put_bytes;

// The place in the table of the token that is the i-th other than Space, if there are so many.
fn place_of(table: &[u32], i: usize) -> Option<usize>
    ensures { PlaceOf table.now (length table.now / 3) i result }
{
    let mut left = i;
    for j in 0..table.len() / 3 {
        if table[3 * j + 2] < SPACE {
            if left == 0 {
                return Some(j);
            }
            left -= 1;
        }
    }
    None
}

// The letter at `len` places from `start` on, those that the line has.
fn mark_span(line: &mut [u8], start: u32, len: u32, letter: u8) {
    for place in line.iter_mut().skip(start as usize).take(len as usize) {
        *place = letter;
    }
}

// The letter below the bytes of the token that is the i-th other than Space.
fn mark_token(table: &[u32], i: usize, letter: u8, line: &mut [u8]) {
    if let Some(place) = place_of(table, i) {
        mark_span(line, table[3 * place], table[3 * place + 1], letter);
    }
}

// The letter of the next pair: from a to z, and again.
fn next_letter(letter: u8) -> u8
    requires { 97 ≤ letter }
    ensures { (97 ≤ result) × (result ≤ 122) }
{
    if letter < b'z' { letter + 1 } else { b'a' }
}

// A letter for each pair, in the order of the openers.
fn mark_pairs(table: &[u32], closers: &[u32], line: &mut [u8]) {
    let mut letter = b'a';
    for (opener, &closer) in closers.iter().enumerate() {
        let closer = closer as usize;
        if closer < closers.len() {
            mark_token(table, opener, letter, line);
            mark_token(table, closer, letter, line);
            letter = next_letter(letter);
        }
    }
}

// A byte that shows, or a blank.
fn shown(byte: u8) -> u8
    ensures { (32 ≤ result) × (result < 127) }
{
    if byte.is_ascii_graphic() { byte } else { b' ' }
}

fn show_bytes(text: &[u8], line: &mut [u8]) {
    for (place, &byte) in line.iter_mut().zip(text) {
        *place = shown(byte);
    }
}

fn put_line(out: &mut [u8], at: usize, line: &[u8]) -> usize {
    let end = put_bytes(out, at, line);
    put_bytes(out, end, b"\n")
}

// What the program writes for a text, first in `out`; how many bytes. The buffers are long enough for any text of so many bytes.
fn reply(text: &[u8], out: &mut [u8]) -> usize {
    if MOST < text.len() {
        return put_refusal(out, Refusal::LongText.number());
    }
    let mut table = [0u32; 3 * MOST];
    let mut closers = [0u32; MOST];
    match closers::closers_text(text, &mut table, &mut closers) {
        Ok(found) => {
            let mut above = [b' '; MOST];
            let mut below = [b' '; MOST];
            show_bytes(text, &mut above);
            mark_pairs(
                &table[..3 * found.tokens],
                &closers[..found.others],
                &mut below,
            );
            let end = put_line(out, 0, &above[..text.len()]);
            put_line(out, end, &below[..text.len()])
        }
        Err(refusal) => put_refusal(out, refusal.number()),
    }
}

// One byte more than the most tells a text that is too long.
// kept: a `main` in each program, since a public function over the reply would ask that it can be called
fn main(rt: HostRuntime) {
    let mut input = [0u8; MOST + 1];
    if let Some(n) = read_input(&rt, &mut input) {
        let mut out = [0u8; 2 * (MOST + 1)];
        let len = reply(&input[..n], &mut out);
        write_answer(&rt, &out, len);
    }
}
