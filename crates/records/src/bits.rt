// The bits of a word that a field has.
ghost use Rattle.std.specs.Prelude.{◌≡◌};
ghost use Rattle.records.specs.Record.{bits_of, with_bits};

// Fields of 16 bits hold numbers below this, marks and a closer beside them numbers below these.
const HALF_SIZE: u32 = 65536;

const MARKS_SIZE: u32 = 8;

pub const CLOSER_SIZE: u32 = 8192;

// What a word holds below a closer.
const BELOW_CLOSER: u32 = HALF_SIZE * MARKS_SIZE;

// The low and the high 16 bits; or, for the high ones, the lowest three of them and the 13 above those.
#[derive(Clone, Copy)]
pub enum Bits {
    Low,
    High,
    Marks,
    Closer,
}

// These bits of the word.
pub fn bits_of(bits: Bits, word: u32) -> u32
    ensures { result ≡ bits_of bits word }
{
    match bits {
        Bits::Low => word % HALF_SIZE,
        Bits::High => word / HALF_SIZE,
        Bits::Marks => word / HALF_SIZE % MARKS_SIZE,
        Bits::Closer => word / BELOW_CLOSER,
    }
}

// The word with v in these bits, of a larger number as many of its low bits; the others are kept.
pub fn with_bits(bits: Bits, word: u32, v: u32) -> u32
    ensures { result ≡ with_bits bits word v }
{
    match bits {
        Bits::Low => HALF_SIZE * (word / HALF_SIZE) + v % HALF_SIZE,
        Bits::High => word % HALF_SIZE + HALF_SIZE * (v % HALF_SIZE),
        Bits::Marks => word % HALF_SIZE
            + HALF_SIZE * (v % MARKS_SIZE)
            + BELOW_CLOSER * (word / BELOW_CLOSER),
        Bits::Closer => word % BELOW_CLOSER + BELOW_CLOSER * (v % CLOSER_SIZE),
    }
}
