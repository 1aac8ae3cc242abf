// Refusals 1 and 2: whether a text is turned back.
ghost use Rattle.std.specs.Prelude.{◌≡◌};
ghost use Rattle.tokens.specs.Refusals.{ascii};
ghost use Rattle.refusals.specs.TextChecks.{check_of, checked_text};

use crate::refusal::Refusal;

const LONGEST: usize = 4096;

const LAST_ASCII: u8 = 127;

// Whether every byte is below 128. It looks at all of them, so that the compiler takes many at a time.
fn is_ascii(text: &[u8]) -> bool
    ensures { result ≡ ascii text.now }
{
    let mut ok = true;
    for &byte in text {
        ok &= byte <= LAST_ASCII;
    }
    ok
}

// Whether the text is refused by 1 or 2.
pub fn check_text(text: &[u8]) -> Result<(), Refusal>
    ensures { check_of result ≡ checked_text text.now }
{
    if LONGEST < text.len() {
        return Err(Refusal::LongText);
    }
    if !is_ascii(text) {
        return Err(Refusal::NotAscii);
    }
    Ok(())
}
