// Tokens held against the words of a list.
use lex::Spanned;
use tokens::token::Token;

// The i-th token of the list, if it has one and its kind is that of a token.
pub(crate) fn listed(list: &[u32], i: usize) -> Option<Spanned> {
    if list.len() / 3 <= i {
        return None;
    }
    let kind = list[3 * i + 2];
    let token = Token::from(kind);
    if u32::from(token) != kind {
        return None;
    }
    Some(Spanned {
        token,
        start: list[3 * i] as usize,
        len: list[3 * i + 1] as usize,
    })
}
