// The token of an entry, by its place in the record.
ghost use Rattle.std.specs.Prelude.{true, false, ◌≡◌, ◌+◌, ◌*◌, ◌<◌, length, IfSome, IfNone};
ghost use Rattle.records.specs.Record.{place_of, is_placed, kind_of, start_of, len_of};

use crate::RECORD_WORDS;
use crate::bits::{Bits, bits_of};
use tokens::kinds::SPACE;

// The place of the entry's token in the table, if the work words have its record and the table that token.
#[tactic(auto, unfolding(crate::specs::Record::is_placed, crate::specs::Record::place_of))]
pub(crate) fn placed(tok: &[u32], work: &[u32], i: usize) -> Option<usize>
    ensures place { IfSome result (λ j. (is_placed tok.now work.now i ≡ true) × (j ≡ place_of work.now i)) }
    ensures in_table { IfSome result (λ j. 3 * j + 2 < length tok.now) }
    ensures none { IfNone result (is_placed tok.now work.now i ≡ false) }
{
    if i < work.len() / RECORD_WORDS {
        let j = bits_of(Bits::Low, work[RECORD_WORDS * i]) as usize;
        if 3 * j + 2 < tok.len() {
            return Some(j);
        }
    }
    None
}

// The kind of the entry's token, that of a Space if it is not placed.
#[tactic(auto, unfolding(crate::specs::Record::kind_of))]
pub fn kind_at(tok: &[u32], work: &[u32], i: usize) -> u32
    ensures { result ≡ kind_of tok.now work.now i }
{
    match placed(tok, work, i) {
        Some(j) => tok[3 * j + 2],
        None => SPACE,
    }
}

#[tactic(auto, unfolding(crate::specs::Record::start_of))]
pub fn start_at(tok: &[u32], work: &[u32], i: usize) -> u32
    ensures { result ≡ start_of tok.now work.now i }
{
    match placed(tok, work, i) {
        Some(j) => tok[3 * j],
        None => 0,
    }
}

#[tactic(auto, unfolding(crate::specs::Record::len_of))]
pub fn len_at(tok: &[u32], work: &[u32], i: usize) -> u32
    ensures { result ≡ len_of tok.now work.now i }
{
    match placed(tok, work, i) {
        Some(j) => tok[3 * j + 1],
        None => 0,
    }
}
