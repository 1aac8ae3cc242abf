// The start tag of a table, with the attribute that tells the lines between its columns. The lines that are passed are left behind, so
// that all is linear.
ghost use Rattle.std.specs.Prelude.{◌≡◌, ◌-◌};
ghost use Rattle.writer.specs.Put.{Put};
ghost use Rattle.mathml_rules.specs.Pieces.{Piece, bytes_of};
ghost use Rattle.mathml_rules.specs.Parts.{not_before, first_is, entry_for, entries_from, line_attribute};

use writer::put_bytes;

// The lines from the first one on that is not before boundary `j`.
fn not_before(lines: &[u32], j: usize) -> &[u32]
    ensures { result.now ≡ not_before j lines.now }
{
    for (i, &line) in lines.iter().enumerate() {
        if line as usize >= j {
            return &lines[i..];
        }
    }
    &[]
}

// What stands at boundary `j`, told by the first of the lines that are not before it.
fn put_entry(out: &mut [u8], at: usize, lines: &[u32], j: usize) -> usize
    ensures { Put out.old at out.new result (entry_for (first_is j lines.now)) }
{
    if !lines.is_empty() && lines[0] as usize == j {
        return put_bytes(out, at, b"solid");
    }
    put_bytes(out, at, b"none")
}

// The entries from boundary 2 on; of the lines only those that are not before boundary 1.
fn put_entries(out: &mut [u8], at: usize, cols: usize, lines: &[u32]) -> usize
    ensures { Put out.old at out.new result (entries_from 2 (cols - 2) lines.now) }
{
    let mut end = at;
    let mut rest = lines;
    for j in 2..cols {
        rest = not_before(rest, j);
        let next = put_bytes(out, end, b" ");
        end = put_entry(out, next, rest, j);
    }
    end
}

pub fn put_table(out: &mut [u8], at: usize, cols: usize, lines: &[u32]) -> usize
    ensures { Put out.old at out.new result (bytes_of (Piece.start 31 (line_attribute cols lines.now))) }
{
    if cols < 2 {
        return put_bytes(out, at, b"<mtable>");
    }
    let rest = not_before(lines, 1);
    let a = put_bytes(out, at, b"<mtable columnlines=\"");
    let b = put_entry(out, a, rest, 1);
    let c = put_entries(out, b, cols, rest);
    put_bytes(out, c, b"\">")
}
