// The tags of the elements.
#![tactic(auto, unfolding(mathml_rules::specs::Pieces::bytes_of, mathml_rules::specs::Elements::element_of, mathml_rules::specs::Elements::elements))]

ghost use Rattle.std.specs.Prelude.{[]};
ghost use Rattle.writer.specs.Put.{Put};
ghost use Rattle.mathml_rules.specs.Pieces.{Piece, bytes_of};
ghost use Rattle.mathml_tags.specs.Element.{element_number};

use crate::elements::Element;
use writer::put_bytes;

pub fn put_start(out: &mut [u8], at: usize, e: Element) -> usize
    ensures { Put out.old at out.new result (bytes_of (Piece.start (element_number e) [])) }
{
    match e {
        Element::Mn => put_bytes(out, at, b"<mn>"),
        Element::Mtext => put_bytes(out, at, b"<mtext>"),
        Element::Mi => put_bytes(out, at, b"<mi>"),
        Element::Mo | Element::MoSign | Element::MoSymbol => put_bytes(out, at, b"<mo>"),
        Element::Mspace => put_bytes(out, at, b"<mspace width=\"0.25em\">"),
        Element::MfracCommand | Element::Mfrac => put_bytes(out, at, b"<mfrac>"),
        Element::Msub => put_bytes(out, at, b"<msub>"),
        Element::Mtd => put_bytes(out, at, b"<mtd>"),
        Element::Math => put_bytes(
            out,
            at,
            b"<math xmlns=\"http://www.w3.org/1998/Math/MathML\" display=\"block\">",
        ),
        Element::Msup => put_bytes(out, at, b"<msup>"),
        Element::Msubsup => put_bytes(out, at, b"<msubsup>"),
        Element::MoTight => put_bytes(out, at, b"<mo lspace=\"0\" rspace=\"0\">"),
        Element::MoSpaced => put_bytes(out, at, b"<mo rspace=\"0.1667em\">"),
        Element::Msqrt => put_bytes(out, at, b"<msqrt>"),
        Element::Menclose => put_bytes(out, at, b"<menclose notation=\"updiagonalstrike\">"),
        Element::MoverAccent => put_bytes(out, at, b"<mover accent=\"true\">"),
        Element::MunderAccent => put_bytes(out, at, b"<munder accentunder=\"true\">"),
        Element::Mover => put_bytes(out, at, b"<mover>"),
        Element::Munder => put_bytes(out, at, b"<munder>"),
        Element::Mroot => put_bytes(out, at, b"<mroot>"),
        Element::Mtable => put_bytes(out, at, b"<mtable>"),
        Element::Mtr => put_bytes(out, at, b"<mtr>"),
        Element::MrowMissing
        | Element::MrowSigned
        | Element::MrowSsigned
        | Element::MrowFenced
        | Element::MrowSfunc
        | Element::MrowFunc
        | Element::MrowGroup
        | Element::MrowMatrix => put_bytes(out, at, b"<mrow>"),
    }
}

pub fn put_end(out: &mut [u8], at: usize, e: Element) -> usize
    ensures { Put out.old at out.new result (bytes_of (Piece.end (element_number e))) }
{
    match e {
        Element::Mn => put_bytes(out, at, b"</mn>"),
        Element::Mtext => put_bytes(out, at, b"</mtext>"),
        Element::Mi => put_bytes(out, at, b"</mi>"),
        Element::Mo | Element::MoSign | Element::MoSymbol | Element::MoTight | Element::MoSpaced =>
            put_bytes(out, at, b"</mo>"),
        Element::Mspace => put_bytes(out, at, b"</mspace>"),
        Element::MfracCommand | Element::Mfrac => put_bytes(out, at, b"</mfrac>"),
        Element::Msub => put_bytes(out, at, b"</msub>"),
        Element::Mtd => put_bytes(out, at, b"</mtd>"),
        Element::Math => put_bytes(out, at, b"</math>"),
        Element::Msup => put_bytes(out, at, b"</msup>"),
        Element::Msubsup => put_bytes(out, at, b"</msubsup>"),
        Element::Msqrt => put_bytes(out, at, b"</msqrt>"),
        Element::Menclose => put_bytes(out, at, b"</menclose>"),
        Element::MoverAccent | Element::Mover => put_bytes(out, at, b"</mover>"),
        Element::MunderAccent | Element::Munder => put_bytes(out, at, b"</munder>"),
        Element::Mroot => put_bytes(out, at, b"</mroot>"),
        Element::Mtable => put_bytes(out, at, b"</mtable>"),
        Element::Mtr => put_bytes(out, at, b"</mtr>"),
        Element::MrowMissing
        | Element::MrowSigned
        | Element::MrowSsigned
        | Element::MrowFenced
        | Element::MrowSfunc
        | Element::MrowFunc
        | Element::MrowGroup
        | Element::MrowMatrix => put_bytes(out, at, b"</mrow>"),
    }
}
