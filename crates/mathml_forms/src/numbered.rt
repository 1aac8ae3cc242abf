// A drawn text in an element by its number, for any number: past the table all are an mrow.
ghost use Rattle.writer.specs.Put.{Put};
ghost use Rattle.mathml_rules.specs.Pieces.{written, L};
ghost use Rattle.mathml_rules.specs.Forms.{shown};

use crate::shown;
use mathml_tags::elements::Element;

pub fn put_drawn(out: &mut [u8], at: usize, e: usize, s: &[u8]) -> usize
    ensures { Put out.old at out.new result (written (L e (shown s.now))) }
{
    shown::put_drawn(out, at, Element::from(e), s)
}
