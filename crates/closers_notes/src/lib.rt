// The closers as the bracket pass notes them in the records: taken back where an attempt is given back, and written out.
#![tactic(auto)]

ghost use Rattle.std.specs.Prelude.{◌≡◌, ◌-◌};
ghost use Rattle.records.specs.Record.{closer_of, with_closer};
ghost use Rattle.closers_notes.specs.Notes.{cleared, gave_up, with_closers};

use fields::closer_of;
use marks::mark_failed;
use records::bits::CLOSER_SIZE;
use stores::set_closer;

// What is noted for no closer; kept: these are bits of a record's word (docs/LAYOUT.md).
const NONE: u32 = 0;

// Of n entries, the one at k is the closer of the one at i.
pub fn note_closer(work: &mut [u32], i: usize, n: usize, k: usize)
    ensures { work.new ≡ with_closer work.old i (n - k) }
{
    // cut to the bits of a closer; up to 4,096 entries nothing is lost
    let before = n.saturating_sub(k) % CLOSER_SIZE as usize;
    set_closer(work, i, before as u32);
}

// No entry from `from` up to `to` has a closer.
fn clear_closers(work: &mut [u32], from: usize, to: usize)
    ensures { work.new ≡ cleared (to - from) from work.old }
{
    for i in from..to {
        set_closer(work, i, NONE);
    }
}

// The attempt of that mark at the entry i has failed and is given back: what it closed from `from` up to `to` is not closed.
pub fn give_up(work: &mut [u32], i: usize, mark: u32, from: usize, to: usize)
    ensures { work.new ≡ gave_up i mark from to work.old }
{
    mark_failed(work, i, mark);
    clear_closers(work, from, to);
}

// The place of the closer of the entry i of n, or n.
fn closer_at(work: &[u32], i: usize, n: u32) -> u32
    ensures { result ≡ n - closer_of work.now i }
{
    n.saturating_sub(closer_of(work, i))
}

// The closers of n entries, if `out` has words for them.
pub fn put_closers(work: &[u32], n: u32, out: &mut [u32])
    ensures { out.new ≡ with_closers work.now n out.old }
{
    let many = n as usize;
    if out.len() < many {
        return;
    }
    for (i, word) in out[..many].iter_mut().enumerate() {
        *word = closer_at(work, i, n);
    }
}
