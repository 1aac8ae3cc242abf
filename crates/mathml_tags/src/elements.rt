// The elements, in the order of their numbers in crates/mathml_rules/specs/Elements.antt. Several have one name.
ghost use Rattle.std.specs.Prelude.{◌≡◌};
ghost use Rattle.mathml_rules.specs.Elements.{element_of};
ghost use Rattle.mathml_tags.specs.Element.{element_number, number_in_table};

#[derive(Clone, Copy, PartialEq, Eq)]
pub enum Element {
    MrowMissing,
    Mn,
    Mtext,
    Mi,
    Mo,
    MoSign,
    Mspace,
    MoSymbol,
    MrowSigned,
    MrowSsigned,
    MrowFenced,
    MrowSfunc,
    MfracCommand,
    Msub,
    MrowFunc,
    MrowGroup,
    MrowMatrix,
    Mtd,
    Mfrac,
    Math,
    Msup,
    Msubsup,
    // without the space around it that an operator has, and with a thin one behind it
    MoTight,
    MoSpaced,
    Msqrt,
    Menclose,
    MoverAccent,
    MunderAccent,
    Mover,
    Munder,
    Mroot,
    Mtable,
    Mtr,
}

// The element of a number, for any number: past the table all are an mrow.
impl From<usize> for Element {
    ghost from_gives = { λ n e. (element_of (element_number e) ≡ element_of n) × (element_number e ≡ number_in_table n) };

    fn from(n: usize) -> Element {
        match n {
            0 => Element::MrowMissing,
            1 => Element::Mn,
            2 => Element::Mtext,
            3 => Element::Mi,
            4 => Element::Mo,
            5 => Element::MoSign,
            6 => Element::Mspace,
            7 => Element::MoSymbol,
            8 => Element::MrowSigned,
            9 => Element::MrowSsigned,
            10 => Element::MrowFenced,
            11 => Element::MrowSfunc,
            12 => Element::MfracCommand,
            13 => Element::Msub,
            14 => Element::MrowFunc,
            15 => Element::MrowGroup,
            16 => Element::MrowMatrix,
            17 => Element::Mtd,
            18 => Element::Mfrac,
            19 => Element::Math,
            20 => Element::Msup,
            21 => Element::Msubsup,
            22 => Element::MoTight,
            23 => Element::MoSpaced,
            24 => Element::Msqrt,
            25 => Element::Menclose,
            26 => Element::MoverAccent,
            27 => Element::MunderAccent,
            28 => Element::Mover,
            29 => Element::Munder,
            30 => Element::Mroot,
            31 => Element::Mtable,
            32 => Element::Mtr,
            33.. => Element::MrowMissing,
        }
    }
}

// The number of an element.
impl From<Element> for usize {
    ghost from_gives = { λ e n. n ≡ element_number e };

    fn from(e: Element) -> usize {
        match e {
            Element::MrowMissing => 0,
            Element::Mn => 1,
            Element::Mtext => 2,
            Element::Mi => 3,
            Element::Mo => 4,
            Element::MoSign => 5,
            Element::Mspace => 6,
            Element::MoSymbol => 7,
            Element::MrowSigned => 8,
            Element::MrowSsigned => 9,
            Element::MrowFenced => 10,
            Element::MrowSfunc => 11,
            Element::MfracCommand => 12,
            Element::Msub => 13,
            Element::MrowFunc => 14,
            Element::MrowGroup => 15,
            Element::MrowMatrix => 16,
            Element::Mtd => 17,
            Element::Mfrac => 18,
            Element::Math => 19,
            Element::Msup => 20,
            Element::Msubsup => 21,
            Element::MoTight => 22,
            Element::MoSpaced => 23,
            Element::Msqrt => 24,
            Element::Menclose => 25,
            Element::MoverAccent => 26,
            Element::MunderAccent => 27,
            Element::Mover => 28,
            Element::Munder => 29,
            Element::Mroot => 30,
            Element::Mtable => 31,
            Element::Mtr => 32,
        }
    }
}
