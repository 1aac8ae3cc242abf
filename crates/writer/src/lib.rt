// Bytes and numbers at a place of a lent buffer. Each function answers the place behind what it put; the count goes on past the buffer's
// end, so that the same calls with a short buffer find the length that is needed.
#![tactic(auto)]

ghost use Rattle.std.specs.Prelude.{◌+◌, ◌≤◌, [], ◌∷◌, ◌++◌, length};
ghost use Rattle.writer.specs.Put.{Put};
ghost use Rattle.writer.specs.Decimal.{decimal};

fn put_byte(out: &mut [u8], at: usize, b: u8) -> usize
    ensures { Put out.old at out.new result (b ∷ []) }
{
    if at < out.len() {
        out[at] = b;
    }
    at.saturating_add(1)
}

// Bytes that all have room: no test for each.
// kept: tried as copy_from_slice, 1.1 to 1.2 times the instructions for a tag, which is short
fn put_inside(out: &mut [u8], at: usize, s: &[u8]) -> usize
    requires { at + length s.now ≤ length out.old }
    ensures { Put out.old at out.new result s.now }
{
    for (i, &b) in s.iter().enumerate() {
        out[at + i] = b;
    }
    at + s.len()
}

// Bytes of which some may lie past the end.
fn put_each(out: &mut [u8], at: usize, s: &[u8]) -> usize
    ensures { Put out.old at out.new result s.now }
{
    let mut end = at;
    for &b in s {
        end = put_byte(out, end, b);
    }
    end
}

pub fn put_bytes(out: &mut [u8], at: usize, s: &[u8]) -> usize
    ensures { Put out.old at out.new result s.now }
{
    if out.len() <= at {
        return at.saturating_add(s.len());
    }
    if s.len() <= out.len() - at {
        return put_inside(out, at, s);
    }
    put_each(out, at, s)
}

// A number in decimal.
fn put_decimal(out: &mut [u8], at: usize, n: u64) -> usize
    ensures { Put out.old at out.new result (decimal n) }
{
    if n < 10 {
        put_byte(out, at, b'0' + n as u8)
    } else {
        let end = put_decimal(out, at, n / 10);
        put_byte(out, end, b'0' + (n % 10) as u8)
    }
}

// A name, then a number in decimal.
pub fn put_number(out: &mut [u8], at: usize, name: &[u8], n: u64) -> usize
    ensures { Put out.old at out.new result (name.now ++ decimal n) }
{
    let end = put_bytes(out, at, name);
    put_decimal(out, end, n)
}
