// The kinds of nodes in the words of a tree.
// kept: numbers and no enum, since they are the words that C reads (docs/LAYOUT.md)
pub const NODE_MISSING: u32 = 0;

pub const NODE_NUMBER: u32 = 1;

pub const NODE_TEXT: u32 = 2;

pub const NODE_IDENT: u32 = 3;

pub const NODE_OPERATOR: u32 = 4;

pub const NODE_SIGN: u32 = 5;

pub const NODE_SPACE: u32 = 6;

pub const NODE_SYMBOL: u32 = 7;

pub const NODE_SIGNED: u32 = 8;

pub const NODE_SSIGNED: u32 = 9;

pub const NODE_UNARY: u32 = 10;

pub const NODE_SFUNC: u32 = 11;

pub const NODE_BINARY: u32 = 12;

pub const NODE_SIMPLE: u32 = 13;

pub const NODE_FUNC: u32 = 14;

pub const NODE_GROUP: u32 = 15;

pub const NODE_MATRIX: u32 = 16;

pub const NODE_CELL: u32 = 17;

pub const NODE_FRAC: u32 = 18;
