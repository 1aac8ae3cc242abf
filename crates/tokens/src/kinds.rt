// The kinds of tokens as numbers of the token table: docs/LAYOUT.md. A symbol's kind is SYMBOL and its class. Tests use the order: what
// joins on to an item (Frac, Super, Sub) is below SEP, and a leaf by its kind is from NUMBER up to, not with, SIGN.
// kept: the words of the token table are the C interface (docs/LAYOUT.md)
pub const FRAC: u32 = 0;

pub const SUPER: u32 = 1;

pub const SUB: u32 = 2;

pub const SEP: u32 = 3;

pub const NUMBER: u32 = 4;

pub const TEXT: u32 = 5;

pub const IDENT: u32 = 6;

pub const OPERATOR: u32 = 7;

pub const SYMBOL: u32 = 8;

pub const SIGN: u32 = 16;

pub const FUNCTION: u32 = 17;

pub const UNARY: u32 = 18;

pub const BINARY: u32 = 19;

pub const OPEN_BRACKET: u32 = 20;

pub const CLOSE_BRACKET: u32 = 21;

pub const OPEN_CLOSE_BRACKET: u32 = 22;

pub const SPACE: u32 = 23;
