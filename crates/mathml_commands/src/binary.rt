// The element of a binary command.
ghost use Rattle.std.specs.Prelude.{◌≡◌};
ghost use Rattle.mathml_rules.specs.Commands.{exchanging};
ghost use Rattle.mathml_rules.specs.Parts.{binary_element, exchanges};
ghost use Rattle.mathml_tags.specs.Element.{element_number};

use mathml_forms::key::key_of;
use mathml_tags::elements::Element;

const ROOT: u64 = 513538034;

const STACKREL: u64 = 133304337647041139;

const OVERSET: u64 = 1076624793107311;

const UNDERSET: u64 = 137807973517440885;

pub fn binary_element(s: &[u8]) -> Element
    ensures { element_number result ≡ binary_element exchanging s.now }
{
    match key_of(s) {
        ROOT => Element::Mroot,
        STACKREL | OVERSET => Element::Mover,
        UNDERSET => Element::Munder,
        _ => Element::MfracCommand,
    }
}

// Whether a command puts its second child first: all but frac do.
pub fn is_exchanging(s: &[u8]) -> bool
    ensures { result ≡ exchanges exchanging s.now }
{
    !matches!(binary_element(s), Element::MfracCommand)
}
