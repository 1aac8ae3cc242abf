// The token list that the readers read.
ghost use Rattle.std.specs.Prelude.{◌≡◌, cond};

// The text, the words of its token table, and how many entries there are.
#[derive(Clone, Copy)]
pub struct List<'a> {
    pub text: &'a [u8],
    pub tok: &'a [u32],
    pub n: usize,
}

// One of two entries.
pub fn choose(first: bool, i: usize, j: usize) -> usize
    ensures { result ≡ cond first i j }
{
    if first { i } else { j }
}
