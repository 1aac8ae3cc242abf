// Whether the brackets of a group are dropped.
ghost use Rattle.std.specs.Prelude.{◌≡◌, [], ◌∷◌};
ghost use Rattle.mathml_rules.specs.declared.Mode.TheVariants.{Argument, Text};
ghost use Rattle.mathml_rules.specs.Mathml.{dropped};

use mathml_rules::Mode;

// Brackets of one byte, in an argument.
fn drops_in_argument(l: u8, r: u8) -> bool
    ensures { result ≡ dropped Argument (l ∷ []) (r ∷ []) }
{
    match l {
        b'(' => r == b')',
        b'{' => r == b'}',
        _ => false,
    }
}

// And in the argument of a text.
fn drops_in_text(l: u8, r: u8) -> bool
    ensures { result ≡ dropped Text (l ∷ []) (r ∷ []) }
{
    match l {
        b'[' => r == b']',
        _ => drops_in_argument(l, r),
    }
}

pub fn drops(m: Mode, left: &[u8], right: &[u8]) -> bool
    ensures { result ≡ dropped m left.now right.now }
{
    if left.len() != 1 {
        return false;
    }
    if right.len() != 1 {
        return false;
    }
    let l = left[0];
    let r = right[0];
    match m {
        Mode::Keep => false,
        Mode::Argument => drops_in_argument(l, r),
        Mode::Text => drops_in_text(l, r),
    }
}
