// A short text as one number.
ghost use Rattle.std.specs.Prelude.{◌≡◌};
ghost use Rattle.mathml_forms.specs.Keys.{key_of};

const MOST_BYTES: usize = 9;

// The bytes in base 128, the first one as the last digit, with a 1 before them; 0 if they are more than nine, or one is not below 128.
// kept: 0 and no Option, since what is found by a key is one match over numbers, in which 0 has no arm
pub fn key_of(s: &[u8]) -> u64
    ensures { result ≡ key_of s.now }
{
    if s.len() > MOST_BYTES {
        return 0;
    }
    let mut key: u64 = 1;
    for i in (0..s.len()).rev() {
        let b = s[i] as u64;
        if b >= 128 {
            return 0;
        }
        key = 128 * key + b;
    }
    key
}
