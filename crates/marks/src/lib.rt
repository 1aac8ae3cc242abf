// The marks of an entry: what was tried there and failed.
#![tactic(auto)]

ghost use Rattle.std.specs.Prelude.{◌≡◌};
ghost use Rattle.records.specs.Record.{marks_of, with_marks};
ghost use Rattle.marks.specs.Marks.{is_marked, with_mark, open_mark};

use fields::marks_of;
use stores::set_marks;

// The mark of this number (1, 2 or 4) among an entry's marks, which are one number.
#[tactic(auto, unfolding(crate::specs::Marks::is_marked))]
fn is_marked(marks: u32, mark: u32) -> bool
    ensures { result ≡ is_marked marks mark }
{
    mark != 0 && marks / mark % 2 == 1
}

#[tactic(auto, unfolding(crate::specs::Marks::with_mark))]
fn with_mark(marks: u32, mark: u32) -> u32
    ensures { result ≡ with_mark marks mark }
{
    if is_marked(marks, mark) {
        marks
    } else {
        marks.wrapping_add(mark)
    }
}

pub fn failed_at(work: &[u32], i: usize, mark: u32) -> bool
    ensures { result ≡ is_marked (marks_of work.now i) mark }
{
    is_marked(marks_of(work, i), mark)
}

pub fn mark_failed(work: &mut [u32], i: usize, mark: u32)
    ensures { work.new ≡ with_marks work.old i (with_mark (marks_of work.old i) mark) }
{
    let marks = with_mark(marks_of(work, i), mark);
    set_marks(work, i, marks);
}

// The number of the mark of a matrix that failed.
// kept: numbers, not an enum, since the functions of this crate are offered for any number (README, "The calls")
pub const MATRIX_MARK: u32 = 4;

// The number of the open mark for a stop.
pub fn open_mark(stop: bool) -> u32
    ensures { result ≡ open_mark stop }
{
    if stop { 2 } else { 1 }
}
