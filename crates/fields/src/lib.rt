// The fields of a record beside its token's place: the closing bracket, the Sep, the marks and the closer.
#![tactic(auto)]

ghost use Rattle.std.specs.Prelude.{◌≡◌, ◌+◌, ◌*◌, ◌<◌, get_or};
ghost use Rattle.records.specs.Record.{after_close, sep_of, marks_of, closer_of};

use records::RECORD_WORDS;
use records::bits::{Bits, bits_of};

// The word k of the record i, or 0 past the end.
fn word(work: &[u32], i: usize, k: usize) -> u32
    requires { k < 2 }
    ensures { result ≡ get_or work.now (2 * i + k) 0 }
{
    // so many records have a word k; kept: with get, 2 * i + k would have to be checked for overflow
    if i < (work.len() + (1 - k)) / RECORD_WORDS {
        work[RECORD_WORDS * i + k]
    } else {
        0
    }
}

// The entry behind the closing bracket of the one at i, or 0.
#[tactic(auto, unfolding(records::specs::Record::after_close))]
pub fn after_close(work: &[u32], i: usize) -> usize
    ensures { result ≡ after_close work.now i }
{
    bits_of(Bits::High, word(work, i, 0)) as usize
}

// 1 if a Sep stands directly in the bracket at i, or 0; or what the reading noted there.
#[tactic(auto, unfolding(records::specs::Record::sep_of))]
pub fn sep_of(work: &[u32], i: usize) -> u32
    ensures { result ≡ sep_of work.now i }
{
    bits_of(Bits::Low, word(work, i, 1))
}

// The marks of the entry i, see the crate `marks`.
#[tactic(auto, unfolding(records::specs::Record::marks_of))]
pub fn marks_of(work: &[u32], i: usize) -> u32
    ensures { result ≡ marks_of work.now i }
{
    bits_of(Bits::Marks, word(work, i, 1))
}

// How far before the end of the entries the closer of the entry i stands, or 0.
#[tactic(auto, unfolding(records::specs::Record::closer_of))]
pub fn closer_of(work: &[u32], i: usize) -> u32
    ensures { result ≡ closer_of work.now i }
{
    bits_of(Bits::Closer, word(work, i, 1))
}
