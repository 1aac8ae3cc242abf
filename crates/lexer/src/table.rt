// Tokens written into a table of three words each, as far as they fit, and counted.
ghost use Rattle.std.specs.Prelude.{◌≡◌, ◌+◌, ◌≤◌};
ghost use Rattle.lexer.specs.Listing.{put_token};
ghost use Rattle.lexer.specs.Coded.{listed};

// How many tokens are listed, how many of them are Spaces, the place behind them, and the word of what was found at the last read
// (crate::found).
#[derive(Clone, Copy)]
pub(crate) struct Listed {
    pub all: usize,
    pub spaces: usize,
    pub next: usize,
    pub found: usize,
}

// Writes the n-th token if the table has words for it.
pub(crate) fn put(table: &mut [u32], n: usize, start: usize, len: usize, kind: u32)
    requires { (n ≤ 4096) × (start ≤ 4096) × (len ≤ 4096) }
    ensures { table.new ≡ put_token n start len kind table.old }
{
    if n < table.len() / 3 {
        let i = 3 * n;
        table[i] = start as u32;
        table[i + 1] = len as u32;
        table[i + 2] = kind;
    }
}

// Lists a token other than Space, behind which the place is `next`.
pub(crate) fn put_other(
    table: &mut [u32],
    p: Listed,
    start: usize,
    len: usize,
    kind: u32,
    next: usize,
) -> Listed
    requires { (p.all ≤ 4096) × (start ≤ 4096) × (len ≤ 4096) }
    ensures { (result ≡ listed (p.all + 1) p.spaces next p.found)
        × (table.new ≡ put_token p.all start len kind table.old) }
{
    put(table, p.all, start, len, kind);
    Listed {
        all: p.all + 1,
        next,
        ..p
    }
}
