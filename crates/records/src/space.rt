// The Space directly before an entry.
ghost use Rattle.std.specs.Prelude.{cond, ◌≡◌, ◌+◌, ◌*◌, ◌<◌, length};
ghost use Rattle.records.specs.Record.{place_of, is_placed, space_word, space_start, space_len};

use crate::record::placed;
use tokens::kinds::SPACE;

// A word of the Space directly before the token j, or 0. A number above that of a Space stands for one too.
#[tactic(auto, unfolding(crate::specs::Record::space_word))]
fn space_word(tok: &[u32], j: usize, k: usize) -> u32
    requires j_in_bounds { 3 * j + 2 < length tok.now }
    requires k_bound { k < 2 }
    ensures { result ≡ space_word tok.now j k }
{
    if j == 0 || tok[3 * (j - 1) + 2] < SPACE {
        return 0;
    }
    tok[3 * (j - 1) + k]
}

// A word of the Space directly before the entry, or 0.
fn space_before(tok: &[u32], work: &[u32], i: usize, k: usize) -> u32
    requires { k < 2 }
    ensures { result ≡ cond (is_placed tok.now work.now i) (space_word tok.now (place_of work.now i) k) 0 }
{
    match placed(tok, work, i) {
        Some(j) => space_word(tok, j, k),
        None => 0,
    }
}

#[tactic(auto, unfolding(crate::specs::Record::space_start))]
pub fn space_start(tok: &[u32], work: &[u32], i: usize) -> u32
    ensures { result ≡ space_start tok.now work.now i }
{
    space_before(tok, work, i, 0)
}

#[tactic(auto, unfolding(crate::specs::Record::space_len))]
pub fn space_len(tok: &[u32], work: &[u32], i: usize) -> u32
    ensures { result ≡ space_len tok.now work.now i }
{
    space_before(tok, work, i, 1)
}
