// Reading the lines of standard input.
use std::io;
use std::io::Bytes;

// A hex digit's value, or what else stands there.
#[derive(Clone, Copy, PartialEq, Eq, Drop)]
pub(crate) enum Sign {
    Digit(u8),
    Newline,
    Comma,
    Colon,
    End,
}

// A length or a number, and what stands behind it.
#[derive(Drop)]
pub(crate) struct Read {
    pub n: usize,
    pub behind: Sign,
}

impl Sign {
    fn of(byte: u8) -> Sign {
        match byte {
            b'\n' => Sign::Newline,
            b',' => Sign::Comma,
            b':' => Sign::Colon,
            _ => Sign::Digit((byte % 16 + byte / 64 * 9) % 16),
        }
    }

    // Half of a byte: what is no digit stands for one too, so that any line has an answer.
    fn half(self) -> u8 {
        match self {
            Sign::Digit(value) => value % 16,
            Sign::Newline => 0,
            Sign::Comma => 1,
            Sign::Colon => 2,
            Sign::End => 3,
        }
    }
}

fn next_sign(input: &mut Bytes<impl io::Read + Drop>) -> io::Result<Sign> {
    match input.next() {
        Some(byte) => Ok(Sign::of(byte?)),
        None => Ok(Sign::End),
    }
}

// A text in hex digits; how many bytes it has.
pub(crate) fn read_text(
    input: &mut Bytes<impl io::Read + Drop>,
    text: &mut [u8],
) -> io::Result<Read> {
    let mut n = 0;
    let mut behind = next_sign(input)?;
    for (i, place) in text.iter_mut().enumerate() {
        let Sign::Digit(high) = behind else {
            break;
        };
        *place = high % 16 * 16 + next_sign(input)?.half() % 16;
        n = i + 1;
        behind = next_sign(input)?;
    }
    Ok(Read { n, behind })
}

// A number of at most nine digits.
fn read_number(input: &mut Bytes<impl io::Read + Drop>) -> io::Result<Read> {
    let mut n = 0;
    let mut behind = next_sign(input)?;
    for _ in 0..9 {
        let Sign::Digit(digit) = behind else {
            break;
        };
        n = n % 100000000 * 10 + digit as usize;
        behind = next_sign(input)?;
    }
    Ok(Read { n, behind })
}

// Numbers with a comma behind each; how many there are.
pub(crate) fn read_words(
    input: &mut Bytes<impl io::Read + Drop>,
    table: &mut [u32],
) -> io::Result<usize> {
    let mut count = 0;
    let mut number = read_number(input)?;
    for (i, word) in table.iter_mut().enumerate() {
        if number.behind != Sign::Comma {
            break;
        }
        *word = (number.n % 4294967296) as u32;
        count = i + 1;
        number = read_number(input)?;
    }
    Ok(count)
}
