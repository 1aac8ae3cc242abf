// Where a reader of the two passes stands. The steps are total: a position or a depth of 65,535 goes round to 0. The readers take only those
// that don't.
#![tactic(auto)]

ghost use Rattle.std.specs.Prelude.{◌≡◌, cond, ltb};
ghost use Rattle.reading_cursor.specs.Moves.{round_on, round_in, seen, at_depth, rewound};

use lookahead::takes::{count_look, count_take};

// The position, the depth of the readers, and the takes so far, counted round 2^32.
#[derive(Clone, Copy)]
pub struct Cursor {
    pub pos: u16,
    pub depth: u16,
    pub takes: u32,
}

impl Cursor {
    // Past the next token.
    pub fn next(self) -> Cursor
        ensures { result ≡ round_on self }
    {
        Cursor {
            pos: self.pos.wrapping_add(1),
            takes: count_take(self.takes),
            ..self
        }
    }

    // A look at the next token, counted if there is one.
    pub fn look(self, n: usize) -> Cursor
        ensures { result ≡ seen n self }
    {
        Cursor {
            takes: count_look(self.takes, n, self.pos as usize),
            ..self
        }
    }

    // Past the next token, if there is one.
    pub fn over(self, n: usize) -> Cursor
        ensures { result ≡ cond (ltb self.pos n) (round_on self) self }
    {
        if (self.pos as usize) < n {
            self.next()
        } else {
            self
        }
    }

    // Past the next token, if it is taken; else a look at it.
    pub fn past(self, n: usize, taken: bool) -> Cursor
        ensures { result ≡ cond taken (round_on self) (seen n self) }
    {
        if taken { self.next() } else { self.look(n) }
    }

    // One reader deeper.
    pub fn deeper(self) -> Cursor
        ensures { result ≡ round_in self }
    {
        Cursor {
            depth: self.depth.wrapping_add(1),
            ..self
        }
    }

    // Back in the reader of that depth.
    pub fn at_depth(self, depth: u16) -> Cursor
        ensures { result ≡ at_depth depth self }
    {
        Cursor { depth, ..self }
    }

    // Back at the position `pos`, the takes being kept.
    pub fn rewind(self, pos: u16) -> Cursor
        ensures { result ≡ rewound pos self }
    {
        Cursor { pos, ..self }
    }
}
