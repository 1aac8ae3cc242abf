// Tags and leaves by an element's number, for any number: past the table all are an mrow.
ghost use Rattle.std.specs.Prelude.{[]};
ghost use Rattle.writer.specs.Put.{Put};
ghost use Rattle.mathml_rules.specs.Pieces.{Piece, bytes_of, written, L};

use crate::elements::Element;
use crate::{leaf, tags};

pub fn put_start(out: &mut [u8], at: usize, e: usize) -> usize
    ensures { Put out.old at out.new result (bytes_of (Piece.start e [])) }
{
    tags::put_start(out, at, Element::from(e))
}

pub fn put_end(out: &mut [u8], at: usize, e: usize) -> usize
    ensures { Put out.old at out.new result (bytes_of (Piece.end e)) }
{
    tags::put_end(out, at, Element::from(e))
}

pub fn put_leaf(out: &mut [u8], at: usize, e: usize, s: &[u8]) -> usize
    ensures { Put out.old at out.new result (written (L e s.now)) }
{
    leaf::put_leaf(out, at, Element::from(e), s)
}
