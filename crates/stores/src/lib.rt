// Stores into a record: where it is not whole, nothing is stored.
#![tactic(auto)]

ghost use Rattle.std.specs.Prelude.{◌≡◌, ◌<◌};
ghost use Rattle.records.specs.Record.{with_record, with_field, with_close, with_sep, with_marks, with_closer};

use records::RECORD_WORDS;
use records::bits::{Bits, bits_of, with_bits};

// The record of the entry i at this place of the table, with no bracket matched, no mark set and no closer.
#[tactic(auto, unfolding(records::specs::Record::with_record))]
pub fn put_record(work: &mut [u32], i: usize, place: u32)
    ensures { work.new ≡ with_record work.old i place }
{
    if i < work.len() / RECORD_WORDS {
        work[RECORD_WORDS * i] = bits_of(Bits::Low, place);
        work[RECORD_WORDS * i + 1] = 0;
    }
}

// Bits of the word k of the record i; of a larger number as many of its low bits.
#[tactic(auto, unfolding(records::specs::Record::with_field))]
fn put_bits(work: &mut [u32], i: usize, k: usize, bits: Bits, v: u32)
    requires { k < 2 }
    ensures { work.new ≡ with_field k bits work.old i v }
{
    if i < work.len() / RECORD_WORDS {
        let word = &mut work[RECORD_WORDS * i + k];
        *word = with_bits(bits, *word, v);
    }
}

// The entry behind the closing bracket of the one at i.
pub fn set_close(work: &mut [u32], i: usize, after: u32)
    ensures { work.new ≡ with_close work.old i after }
{
    put_bits(work, i, 0, Bits::High, after);
}

// The Sep of the one at i: 1 if one stands directly in the bracket. Of a closing bracket that nothing opened the reading notes here how
// many items it wraps.
pub fn set_sep(work: &mut [u32], i: usize, sep: u32)
    ensures { work.new ≡ with_sep work.old i sep }
{
    put_bits(work, i, 1, Bits::Low, sep);
}

// The marks, see the crate `marks`.
pub fn set_marks(work: &mut [u32], i: usize, marks: u32)
    ensures { work.new ≡ with_marks work.old i marks }
{
    put_bits(work, i, 1, Bits::Marks, marks);
}

// The closer of the entry i: how far it stands before the end of the entries, or 0 for none.
pub fn set_closer(work: &mut [u32], i: usize, before: u32)
    ensures { work.new ≡ with_closer work.old i before }
{
    put_bits(work, i, 1, Bits::Closer, before);
}
