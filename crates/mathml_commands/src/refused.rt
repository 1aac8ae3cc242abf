// What a tree may not hold for its MathML (refusal 11), node by node.
ghost use Rattle.std.specs.Prelude.{◌≡◌};
ghost use Rattle.mathml_rules.specs.Mathml.{has};
ghost use Rattle.mathml_rules.specs.Refusal.{one_of, fonts, refused_binaries, control, controls, refused_lines};

use mathml_forms::key::key_of;

const BB: u64 = 29026;

const MATHBF: u64 = 7929266516205;

const SF: u64 = 29555;

const MATHSF: u64 = 7933829918957;

const BBB: u64 = 3715426;

const MATHBB: u64 = 7791827562733;

const CC: u64 = 29155;

const MATHCAL: u64 = 1041298666369261;

const TT: u64 = 31348;

const MATHTT: u64 = 8415134691565;

const FR: u64 = 31078;

const MATHFRAK: u64 = 132723794176192749;

const IT: u64 = 31337;

const MATHIT: u64 = 8412181901549;

const BBIT: u64 = 513438050;

const BBSF: u64 = 484241762;

const SFIT: u64 = 513438579;

const BBSFIT: u64 = 8412177690978;

const BBCC: u64 = 477688162;

const BBFR: u64 = 509194594;

const ID: u64 = 29289;

const CLASS: u64 = 65472591459;

const COLOR: u64 = 65195948003;

// The commands that choose a font.
pub fn is_refused_unary(s: &[u8]) -> bool
    ensures { result ≡ one_of fonts s.now }
{
    matches!(
        key_of(s),
        BB | MATHBF
            | SF
            | MATHSF
            | BBB
            | MATHBB
            | CC
            | MATHCAL
            | TT
            | MATHTT
            | FR
            | MATHFRAK
            | IT
            | MATHIT
            | BBIT
            | BBSF
            | SFIT
            | BBSFIT
            | BBCC
            | BBFR
    )
}

pub fn is_refused_binary(s: &[u8]) -> bool
    ensures { result ≡ one_of refused_binaries s.now }
{
    matches!(key_of(s), ID | CLASS | COLOR)
}

// XML has no byte below 32 but tab, line feed and carriage return.
fn is_control(c: u8) -> bool
    ensures { result ≡ control c }
{
    match c {
        9 | 10 | 13 => false,
        _ => c < 32,
    }
}

pub fn has_control(s: &[u8]) -> bool
    ensures { result ≡ controls s.now }
{
    s.iter().any(|&b| is_control(b))
}

fn has_line(lines: &[u32], b: u32) -> bool
    ensures { result ≡ has b lines.now }
{
    lines.contains(&b)
}

// Whether a line is at boundary 0 or `cols`, or two are at one boundary. A line past all before it is at no boundary of theirs, so lines
// in order are looked at once.
pub fn refuses_lines(cols: usize, lines: &[u32]) -> bool
    ensures { result ≡ refused_lines cols lines.now }
{
    let mut highest = 0;
    for (i, &line) in lines.iter().enumerate() {
        if line == 0 {
            return true;
        }
        if line as usize == cols {
            return true;
        }
        if line > highest {
            highest = line;
        } else if has_line(&lines[..i], line) {
            return true;
        }
    }
    false
}
