// Reading the lines of standard input.
use std::io;
use std::io::Bytes;

// What is no digit.
// kept: an enum would need these numbers too, since half a byte before a line's end reads as 0, and before the input's end as 1
const NEWLINE: u8 = 16;

pub(crate) const END: u8 = 17;

// A text's length, and what stands behind it.
#[derive(Drop)]
pub(crate) struct Read {
    pub len: usize,
    pub behind: u8,
}

// The value of a hex digit, or NEWLINE.
fn digit_of(b: u8) -> u8 {
    if b == 10 {
        return NEWLINE;
    }
    (b % 16 + b / 64 * 9) % 16
}

fn next_digit(input: &mut Bytes<impl io::Read + Drop>) -> io::Result<u8> {
    match input.next() {
        Some(byte) => Ok(digit_of(byte?)),
        None => Ok(END),
    }
}

// A text in hex digits; how many bytes it has.
pub(crate) fn read_text(
    input: &mut Bytes<impl io::Read + Drop>,
    text: &mut [u8],
) -> io::Result<Read> {
    let mut len = 0;
    let mut behind = next_digit(input)?;
    for (i, place) in text.iter_mut().enumerate() {
        if 16 <= behind {
            break;
        }
        *place = behind % 16 * 16 + next_digit(input)? % 16;
        len = i + 1;
        behind = next_digit(input)?;
    }
    Ok(Read { len, behind })
}
