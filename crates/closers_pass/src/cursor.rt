// What readers answer.
ghost use Rattle.std.specs.Prelude.{◌≡◌, ◌≤◌, ◌<◌};
ghost use Rattle.closers_pass.specs.Meet.{ends_in, nothing_at, operation_at, part_at};
ghost use Rattle.reading_cursor.specs.Moves.{onward, passing, inner};

use reading_cursor::Cursor;

// The cursor's steps as the readers take them: within a list, and no deeper than readers go.

// Past the next token, which is there.
pub(crate) fn next(c: Cursor) -> Cursor
    requires { c.pos < 4096 }
    ensures { result ≡ onward c }
{
    c.next()
}

// Past the next token, if there is one.
#[tactic(auto, unfolding(reading_cursor::specs::Moves::passing))]
pub(crate) fn over(c: Cursor, n: usize) -> Cursor
    requires { n ≤ 4096 }
    ensures { result ≡ passing n c }
{
    c.over(n)
}

// One reader deeper.
pub(crate) fn deeper(c: Cursor) -> Cursor
    requires { c.depth < 256 }
    ensures { result ≡ inner c }
{
    c.deeper()
}

// A node that was read: whether it ends an operand, and whether it is a bar by itself.
#[derive(Clone, Copy)]
pub(crate) struct Node {
    pub ends: bool,
    pub bar: bool,
}

// The node at the cursor, if there was one.
#[derive(Clone, Copy)]
pub(crate) struct Part {
    pub cur: Cursor,
    pub node: Option<Node>,
}

impl Part {
    // A node is there, and it ends an operand.
    pub(crate) fn ends(self) -> bool
        ensures { result ≡ ends_in self.node }
    {
        match self.node {
            Some(node) => node.ends,
            None => false,
        }
    }
}

// None was there.
pub(crate) fn nothing(cur: Cursor) -> Part
    ensures { result ≡ nothing_at cur }
{
    Part { cur, node: None }
}

// An operation with its arguments, or a group.
pub(crate) fn operation(cur: Cursor) -> Part
    ensures { result ≡ operation_at cur }
{
    Part {
        cur,
        node: Some(Node {
            ends: true,
            bar: false,
        }),
    }
}

// The same, back in the reader of that depth.
pub(crate) fn back(g: Part, depth: u16) -> Part
    ensures { result ≡ part_at depth g }
{
    let gc = g.cur;
    Part {
        cur: gc.at_depth(depth),
        ..g
    }
}

// Whether a script was there.
// kept, here and below: a flag beside the cursor, no plainer as an Option, since the reading goes on from the cursor in either case
#[derive(Clone, Copy)]
pub(crate) struct Scripted {
    pub cur: Cursor,
    pub some: bool,
}

// Items: whether there are some, whether they are a bar alone, whether a sign behind them prefixes, and whether they ended at the bar that
// was to end them.
#[derive(Clone, Copy)]
pub(crate) struct Items {
    pub cur: Cursor,
    pub some: bool,
    pub line: bool,
    pub sign: bool,
    pub met: bool,
}

// A row's cells, and how many of them are no lines; the closing bracket at which the row ended, if it ended at one.
#[derive(Clone, Copy)]
pub(crate) struct Cells {
    pub cur: Cursor,
    pub count: usize,
    pub kept: usize,
    pub close: Option<usize>,
}

// The rows behind the first: whether all are read and alike, and whether there are some.
#[derive(Clone, Copy)]
pub(crate) struct Others {
    pub cur: Cursor,
    pub done: bool,
    pub more: bool,
}

// Rows: whether all are read and alike, whether there are more than one; the first one's cells, and those that are no lines.
#[derive(Clone, Copy)]
pub(crate) struct Rows {
    pub cur: Cursor,
    pub done: bool,
    pub more: bool,
    pub cols: usize,
    pub kept: usize,
}

// Whether a matrix was read.
#[derive(Clone, Copy)]
pub(crate) struct Tried {
    pub cur: Cursor,
    pub made: bool,
}
