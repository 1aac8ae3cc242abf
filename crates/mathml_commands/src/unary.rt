// What a unary command puts before its argument and behind it.
ghost use Rattle.std.specs.Prelude.{◌≡◌, ◌||◌, option_map};
ghost use Rattle.tokens.specs.Bytes.{bytes, same};
ghost use Rattle.writer.specs.Put.{Put};
ghost use Rattle.mathml_rules.specs.Pieces.{written};
ghost use Rattle.mathml_rules.specs.Commands.{unaries, mark};
ghost use Rattle.mathml_rules.specs.Parts.{begin_unary, finish_unary};
ghost use Rattle.mathml_tags.specs.Element.{element_number};
ghost use Rattle.mathml_commands.specs.Spelled.{command_of, element_for, number_if, left_mark, right_mark};

use mathml_forms::equal::same_bytes;
use mathml_forms::key::key_of;
use mathml_tags::elements::Element;
use mathml_tags::leaf::put_leaf;
use mathml_tags::tags::{put_end, put_start};

const SQRT: u64 = 513587443;

const CANCEL: u64 = 8136219668707;

const ABS: u64 = 3993953;

const LARGE_ABS: u64 = 3993921;

const NORM: u64 = 498907118;

const FLOOR: u64 = 65195996774;

const CEIL: u64 = 496661219;

const HAT: u64 = 4010216;

const BAR: u64 = 3977442;

const OVERLINE: u64 = 129402961454005103;

const VEC: u64 = 3732214;

const DOT: u64 = 4012004;

const DDOT: u64 = 513536612;

const TILDE: u64 = 61683217652;

const OVERARC: u64 = 1002299847179119;

const OVERPAREN: u64 = 17207070066824805231;

const UL: u64 = 30325;

const UNDERLINE: u64 = 16563579066112358261;

const UBRACE: u64 = 7895160500597;

const OBRACE: u64 = 7895160500591;

const OVERBRACE: u64 = 16557351634143378287;

const TEXT: u64 = 513684212;

const MBOX: u64 = 521924973;

// Commands with the same element and the same marks are one.
#[derive(Clone, Copy)]
enum Command {
    Unknown,
    Sqrt,
    Cancel,
    Abs,
    Norm,
    Floor,
    Ceil,
    Hat,
    Bar,
    Vec,
    Dot,
    Ddot,
    Tilde,
    Arc,
    Underline,
    Ubrace,
    Obrace,
}

fn command_of(s: &[u8]) -> Command
    ensures { result ≡ command_of s.now }
{
    if same_bytes(s, b"underbrace") {
        return Command::Ubrace;
    }
    match key_of(s) {
        SQRT => Command::Sqrt,
        CANCEL => Command::Cancel,
        ABS | LARGE_ABS => Command::Abs,
        NORM => Command::Norm,
        FLOOR => Command::Floor,
        CEIL => Command::Ceil,
        HAT => Command::Hat,
        BAR | OVERLINE => Command::Bar,
        VEC => Command::Vec,
        DOT => Command::Dot,
        DDOT => Command::Ddot,
        TILDE => Command::Tilde,
        OVERARC | OVERPAREN => Command::Arc,
        UL | UNDERLINE => Command::Underline,
        UBRACE => Command::Ubrace,
        OBRACE | OVERBRACE => Command::Obrace,
        _ => Command::Unknown,
    }
}

fn element_of(c: Command) -> Option<Element>
    ensures { option_map element_number result ≡ number_if (element_for c) }
{
    match c {
        Command::Unknown => None,
        Command::Sqrt => Some(Element::Msqrt),
        Command::Cancel => Some(Element::Menclose),
        Command::Abs | Command::Norm | Command::Floor | Command::Ceil => Some(Element::MrowFenced),
        Command::Hat
        | Command::Bar
        | Command::Vec
        | Command::Dot
        | Command::Ddot
        | Command::Tilde
        | Command::Arc => Some(Element::MoverAccent),
        Command::Underline => Some(Element::MunderAccent),
        Command::Ubrace => Some(Element::Munder),
        Command::Obrace => Some(Element::Mover),
    }
}

// The mark before the argument.
fn put_left(out: &mut [u8], at: usize, c: Command) -> usize
    ensures { Put out.old at out.new result (written (mark (left_mark c))) }
{
    match c {
        Command::Abs => put_leaf(out, at, Element::Mo, b"|"),
        Command::Norm => put_leaf(out, at, Element::Mo, &[226, 128, 150]), // ‖
        Command::Floor => put_leaf(out, at, Element::Mo, &[226, 140, 138]), // ⌊
        Command::Ceil => put_leaf(out, at, Element::Mo, &[226, 140, 136]), // ⌈
        _ => at,
    }
}

// The mark behind it.
fn put_right(out: &mut [u8], at: usize, c: Command) -> usize
    ensures { Put out.old at out.new result (written (mark (right_mark c))) }
{
    match c {
        Command::Abs => put_leaf(out, at, Element::Mo, b"|"),
        Command::Norm => put_leaf(out, at, Element::Mo, &[226, 128, 150]), // ‖
        Command::Floor => put_leaf(out, at, Element::Mo, &[226, 140, 139]), // ⌋
        Command::Ceil => put_leaf(out, at, Element::Mo, &[226, 140, 137]), // ⌉
        Command::Hat => put_leaf(out, at, Element::Mo, b"^"),
        Command::Bar => put_leaf(out, at, Element::Mo, &[226, 128, 190]), // ‾
        Command::Vec => put_leaf(out, at, Element::Mo, &[226, 134, 146]), // →
        Command::Dot => put_leaf(out, at, Element::Mo, &[203, 153]), // ˙
        Command::Ddot => put_leaf(out, at, Element::Mo, &[194, 168]), // ¨
        Command::Tilde => put_leaf(out, at, Element::Mo, b"~"),
        Command::Arc => put_leaf(out, at, Element::Mo, &[226, 143, 156]), // ⏜
        Command::Underline => put_leaf(out, at, Element::Mo, b"_"),
        Command::Ubrace => put_leaf(out, at, Element::Mo, &[226, 143, 159]), // ⏟
        Command::Obrace => put_leaf(out, at, Element::Mo, &[226, 143, 158]), // ⏞
        _ => at,
    }
}

// An unknown command puts nothing.
pub fn put_begin_unary(out: &mut [u8], at: usize, s: &[u8]) -> usize
    ensures { Put out.old at out.new result (written (begin_unary unaries s.now)) }
{
    let c = command_of(s);
    let Some(e) = element_of(c) else {
        return at;
    };
    let end = put_start(out, at, e);
    put_left(out, end, c)
}

pub fn put_finish_unary(out: &mut [u8], at: usize, s: &[u8]) -> usize
    ensures { Put out.old at out.new result (written (finish_unary unaries s.now)) }
{
    let c = command_of(s);
    let Some(e) = element_of(c) else {
        return at;
    };
    let end = put_right(out, at, c);
    put_end(out, end, e)
}

// The commands whose argument is text.
pub fn is_text(s: &[u8]) -> bool
    ensures { result ≡ (same s.now (bytes "text") || same s.now (bytes "mbox")) }
{
    matches!(key_of(s), TEXT | MBOX)
}
