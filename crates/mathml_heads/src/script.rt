// The element of a script, by the script's number (docs/LAYOUT.md).
ghost use Rattle.std.specs.Prelude.{◌≡◌};
ghost use Rattle.writer.specs.Put.{Put};
ghost use Rattle.mathml_rules.specs.Pieces.{written};
ghost use Rattle.mathml_rules.specs.Mathml.{arguments};
ghost use Rattle.mathml_rules.specs.Parts.{begin_script, finish_script};
ghost use Rattle.mathml_heads.specs.Spans.{script_of};

use mathml_tags::elements::Element;
use mathml_tags::tags::{put_end, put_start};

pub(crate) fn put_begin_script(out: &mut [u8], at: usize, script: u32) -> usize
    ensures { Put out.old at out.new result (written (begin_script (script_of script))) }
{
    match script {
        1 => put_start(out, at, Element::Msub),
        2 => put_start(out, at, Element::Msup),
        3 => put_start(out, at, Element::Msubsup),
        _ => at,
    }
}

pub(crate) fn put_finish_script(out: &mut [u8], at: usize, script: u32) -> usize
    ensures { Put out.old at out.new result (written (finish_script (script_of script))) }
{
    match script {
        1 => put_end(out, at, Element::Msub),
        2 => put_end(out, at, Element::Msup),
        3 => put_end(out, at, Element::Msubsup),
        _ => at,
    }
}

// How many arguments it has.
pub(crate) fn arguments_of(script: u32) -> usize
    ensures { result ≡ arguments (script_of script) }
{
    match script {
        1 | 2 => 1,
        3 => 2,
        _ => 0,
    }
}
