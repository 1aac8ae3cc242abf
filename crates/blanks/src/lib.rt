// Where the blanks of a text end, and other runs of bytes.
#![tactic(auto)]

ghost use Rattle.std.specs.Prelude.{◌≡◌, ℕ, Bool};
ghost use Rattle.lexing.specs.Rules.{blank, run_end};

#[tactic(auto, using(std::proofs::lemmas::Bool::Decides::nat_tests), unfolding(lexing::specs::Rules::blank))]
fn is_blank(c: u8) -> bool
    ensures { result ≡ blank c }
{
    matches!(c, b'\t'..=b'\r' | b' ')
}

// A test of bytes: it says of any byte whether it passes.
pub trait ByteTest {
    ghost passed: { Self → ℕ → Bool };

    fn passes(&self, c: u8) -> bool
        ensures { result ≡ passed self.now c };
}

// Where the bytes from the place on that pass the test end; past the text's end there are none.
pub fn run_end<T: ByteTest>(text: &[u8], at: usize, test: &T) -> usize
    ensures { result ≡ run_end (T.passed test.now) text.now at }
{
    // told apart here, so that the compiler keeps one count in the loop
    if text.len() <= at {
        return at;
    }
    for i in at..text.len() {
        if !test.passes(text[i]) {
            return i;
        }
    }
    text.len()
}

struct Blank;

impl ByteTest for Blank {
    ghost passed = { λ t. blank };

    fn passes(&self, c: u8) -> bool {
        is_blank(c)
    }
}

// Where the blanks from the place on end; past the text's end there are none.
pub fn blanks_end(text: &[u8], at: usize) -> usize
    ensures { result ≡ run_end blank text.now at }
{
    run_end(text, at, &Blank)
}
