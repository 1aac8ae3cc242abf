// Refusals 8 and 9: buffers that are too short.
#![tactic(auto)]

ghost use Rattle.std.specs.Prelude.{◌≡◌};
ghost use Rattle.refusals.specs.Refusal.{refusal_number, numbered};
ghost use Rattle.room.specs.Room.{room_for, lacking_for, room_answer};

use records::RECORD_WORDS;
use refusals::refusal::Refusal;

// The words of the tree for each token other than Space, and for one more.
const TREE_WORDS: usize = 32;

// The least number of tokens other than Space for which the buffers are too short, by their words.
pub fn room_for(work: usize, tree: usize) -> usize
    ensures { result ≡ room_for work tree }
{
    (work / RECORD_WORDS).min(tree / TREE_WORDS)
}

// The refusal where one of the two is too short for n tokens other than Space.
pub fn lacking(n: usize, work: usize) -> Refusal
    ensures { refusal_number result ≡ lacking_for n work }
{
    if work / RECORD_WORDS <= n {
        Refusal::ShortWork
    } else {
        Refusal::ShortTree
    }
}

// Whether the buffers are long enough for n tokens other than Space, by their words.
pub fn check_room(n: usize, work: usize, tree: usize) -> Result<(), Refusal>
    ensures { numbered result ≡ room_answer n work tree }
{
    if n < room_for(work, tree) {
        return Ok(());
    }
    Err(lacking(n, work))
}
