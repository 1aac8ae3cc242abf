// Elements that hold characters alone.
ghost use Rattle.writer.specs.Put.{Put};
ghost use Rattle.mathml_rules.specs.Pieces.{written, L};
ghost use Rattle.mathml_tags.specs.Application.{application};
ghost use Rattle.mathml_tags.specs.Element.{element_number};

use crate::elements::Element;
use crate::escape::put_escaped;
use crate::tags::{put_end, put_start};

pub fn put_leaf(out: &mut [u8], at: usize, e: Element, s: &[u8]) -> usize
    ensures { Put out.old at out.new result (written (L (element_number e) s.now)) }
{
    let a = put_start(out, at, e);
    let b = put_escaped(out, a, s);
    put_end(out, b, e)
}

// The sign of application, U+2061, behind a function's name: no space behind a name of one byte.
pub fn put_apply(out: &mut [u8], at: usize, name: &[u8]) -> usize
    ensures { Put out.old at out.new result (written (application name.now)) }
{
    if name.len() == 1 {
        return put_leaf(out, at, Element::Mo, &[226, 129, 161]);
    }
    put_leaf(out, at, Element::MoSpaced, &[226, 129, 161])
}
