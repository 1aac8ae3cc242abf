// What the readers answer.
ghost use Rattle.std.specs.Prelude.{◌≡◌, true, cond, ◌≤◌, ◌<◌};
ghost use Rattle.parse.specs.Meet.{part_at, missed_at, step_at};
ghost use Rattle.reading_cursor.specs.Moves.{onward, seen, passing, inner};

use reading_cursor::Cursor;

// The cursor's steps as the readers take them: within a list, and no deeper than readers go.

// Past the next token, which is there.
pub(crate) fn next(c: Cursor) -> Cursor
    requires { c.pos < 4096 }
    ensures { result ≡ onward c }
{
    c.next()
}

// Past the next token, if there is one.
#[tactic(auto, unfolding(reading_cursor::specs::Moves::passing))]
pub(crate) fn over(c: Cursor, n: usize) -> Cursor
    requires { n ≤ 4096 }
    ensures { result ≡ passing n c }
{
    c.over(n)
}

// Past the next token, if it is taken; else a look at it.
pub(crate) fn past(c: Cursor, n: usize, taken: bool) -> Cursor
    requires { taken ≡ true → c.pos < 4096 }
    ensures { result ≡ cond taken (onward c) (seen n c) }
{
    c.past(n, taken)
}

// One reader deeper.
pub(crate) fn deeper(c: Cursor) -> Cursor
    requires { c.depth < 256 }
    ensures { result ≡ inner c }
{
    c.deeper()
}

// A node, up to the word `end`, and whether it ends an operand.
#[derive(Clone, Copy)]
pub(crate) struct Part {
    pub cur: Cursor,
    pub end: usize,
    pub ends: bool,
}

impl Part {
    // The same, back in the reader of that depth.
    pub(crate) fn at_depth(self, depth: u16) -> Part
        ensures { result ≡ part_at depth self }
    {
        Part {
            cur: self.cur.at_depth(depth),
            ..self
        }
    }
}

// No node was there, and the cursor stands here. The empty array gives a Part's alignment, so that the cursor lies at one place in both
// answers of a step. A plain Cursor would lie half a word off, and each copy would wait for two stores: a text of brackets took a quarter
// longer.
#[derive(Clone, Copy)]
pub(crate) struct Missed {
    pub cur: Cursor,
    pub aligned: [usize; 0],
}

impl Missed {
    pub(crate) fn at(cur: Cursor) -> Missed
        ensures { result ≡ missed_at cur }
    {
        Missed { cur, aligned: [] }
    }
}

// A node was read, or none was there.
pub(crate) type Step = Result<Part, Missed>;

// The same, back in the reader of that depth.
pub(crate) fn back(s: Step, depth: u16) -> Step
    ensures { result ≡ step_at depth s }
{
    match s {
        Ok(g) => Ok(g.at_depth(depth)),
        Err(d) => Err(Missed::at(d.cur.at_depth(depth))),
    }
}

// A script's number and its arguments.
// kept: the numbers of scripts, kinds and classes are words of the tree, the C interface (docs/LAYOUT.md)
#[derive(Clone, Copy)]
pub(crate) struct Scripted {
    pub cur: Cursor,
    pub end: usize,
    pub script: u32,
}

// Items: how many, and whether a sign behind them prefixes.
#[derive(Clone, Copy)]
pub(crate) struct Items {
    pub cur: Cursor,
    pub end: usize,
    pub count: u32,
    pub sign: bool,
}

// The Space before an item: the end of its words, and how many items it makes, 1 if it is kept.
// kept: a count, which is added to the items' count, so a bool would be turned into it at each use
#[derive(Clone, Copy)]
pub(crate) struct Gap {
    pub end: usize,
    pub items: u32,
}

// A row's cells, and the entry of its closing bracket; none, if the row broke off.
#[derive(Clone, Copy)]
pub(crate) struct Cells {
    pub cur: Cursor,
    pub end: usize,
    pub count: usize,
    pub close: Option<usize>,
}

// Why the rows ended: all are read, one differs from the first, or one is broken off.
#[derive(Clone, Copy)]
pub(crate) enum Why {
    Done,
    Differs,
    Broken,
}

// Rows: their cells, the columns, the first row's opening bracket.
#[derive(Clone, Copy)]
pub(crate) struct Rows {
    pub cur: Cursor,
    pub end: usize,
    pub cells: usize,
    pub cols: usize,
    pub left: usize,
    pub why: Why,
}
