// Bytes of content: `<`, `>` and `&` as references, blanks as the no-break space.
ghost use Rattle.writer.specs.Put.{Put};
ghost use Rattle.mathml_rules.specs.Pieces.{escaped, esc};

use writer::put_bytes;

#[tactic(auto, unfolding(mathml_rules::specs::Pieces::escaped_by, mathml_rules::specs::Pieces::escapes, mathml_rules::specs::Utf8::utf8, mathml_rules::specs::Utf8::encoded))]
fn put_escape(out: &mut [u8], at: usize, b: u8) -> usize
    ensures { Put out.old at out.new result (escaped b) }
{
    match b {
        b'<' => put_bytes(out, at, b"&lt;"),
        b'>' => put_bytes(out, at, b"&gt;"),
        b'&' => put_bytes(out, at, b"&amp;"),
        b'\t' | b'\n' | b'\r' | b' ' => put_bytes(out, at, b"\xc2\xa0"),
        _ => put_bytes(out, at, &[b]),
    }
}

pub fn put_escaped(out: &mut [u8], at: usize, s: &[u8]) -> usize
    ensures { Put out.old at out.new result (esc s.now) }
{
    let mut end = at;
    for &b in s {
        end = put_escape(out, end, b);
    }
    end
}
