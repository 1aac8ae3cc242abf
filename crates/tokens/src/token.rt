// The kinds of tokens, as in the Rust's tokenizer.rs, and their numbers in the token table.
ghost use Rattle.std.specs.Prelude.{◌≡◌};
ghost use Rattle.tokens.specs.Kinds.{class_number, number_of, token_of};

use crate::kinds::{
    BINARY, CLOSE_BRACKET, FRAC, FUNCTION, IDENT, NUMBER, OPEN_BRACKET, OPEN_CLOSE_BRACKET,
    OPERATOR, SEP, SIGN, SPACE, SUB, SUPER, SYMBOL, TEXT, UNARY,
};

// What a defined symbol is, which decides the space around it.
#[derive(Clone, Copy, PartialEq, Eq)]
pub enum SymbolClass {
    Glyph,
    Name,
    Joining,
    JoiningName,
    Leading,
    LeadingName,
    Space,
    Separator,
}

#[derive(Clone, Copy, PartialEq, Eq)]
pub enum Token {
    Frac,
    Super,
    Sub,
    Sep,
    Number,
    Text,
    Ident,
    Operator,
    Symbol(SymbolClass),
    Sign,
    Function,
    Unary,
    Binary,
    OpenBracket,
    CloseBracket,
    OpenCloseBracket,
    Space,
}

// The class's number, from 0 in SymbolClass's order.
impl From<SymbolClass> for u32 {
    ghost from_gives = { λ class n. n ≡ class_number class };

    fn from(class: SymbolClass) -> u32 {
        match class {
            SymbolClass::Glyph => 0,
            SymbolClass::Name => 1,
            SymbolClass::Joining => 2,
            SymbolClass::JoiningName => 3,
            SymbolClass::Leading => 4,
            SymbolClass::LeadingName => 5,
            SymbolClass::Space => 6,
            SymbolClass::Separator => 7,
        }
    }
}

// The token's number in the token table.
impl From<Token> for u32 {
    ghost from_gives = { λ token n. n ≡ number_of token };

    fn from(token: Token) -> u32 {
        match token {
            Token::Frac => FRAC,
            Token::Super => SUPER,
            Token::Sub => SUB,
            Token::Sep => SEP,
            Token::Number => NUMBER,
            Token::Text => TEXT,
            Token::Ident => IDENT,
            Token::Operator => OPERATOR,
            Token::Symbol(class) => SYMBOL + u32::from(class),
            Token::Sign => SIGN,
            Token::Function => FUNCTION,
            Token::Unary => UNARY,
            Token::Binary => BINARY,
            Token::OpenBracket => OPEN_BRACKET,
            Token::CloseBracket => CLOSE_BRACKET,
            Token::OpenCloseBracket => OPEN_CLOSE_BRACKET,
            Token::Space => SPACE,
        }
    }
}

// The token of a number; Space for a number above 23, which no accepted list has.
impl From<u32> for Token {
    ghost from_gives = { λ n token. token ≡ token_of n };

    fn from(n: u32) -> Token {
        match n {
            FRAC => Token::Frac,
            SUPER => Token::Super,
            SUB => Token::Sub,
            SEP => Token::Sep,
            NUMBER => Token::Number,
            TEXT => Token::Text,
            IDENT => Token::Ident,
            OPERATOR => Token::Operator,
            8 => Token::Symbol(SymbolClass::Glyph),
            9 => Token::Symbol(SymbolClass::Name),
            10 => Token::Symbol(SymbolClass::Joining),
            11 => Token::Symbol(SymbolClass::JoiningName),
            12 => Token::Symbol(SymbolClass::Leading),
            13 => Token::Symbol(SymbolClass::LeadingName),
            14 => Token::Symbol(SymbolClass::Space),
            15 => Token::Symbol(SymbolClass::Separator),
            SIGN => Token::Sign,
            FUNCTION => Token::Function,
            UNARY => Token::Unary,
            BINARY => Token::Binary,
            OPEN_BRACKET => Token::OpenBracket,
            CLOSE_BRACKET => Token::CloseBracket,
            OPEN_CLOSE_BRACKET => Token::OpenCloseBracket,
            SPACE => Token::Space,
            _ => Token::Space,
        }
    }
}
