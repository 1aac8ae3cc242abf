// Small choices of the readers.
ghost use Rattle.std.specs.Prelude.{◌≡◌, false, cond};
ghost use Rattle.parse.specs.Choices.{prefix_node};

use crate::cursor::{Part, Scripted};
use tokens::kinds::{FUNCTION, SIGN, UNARY};
use tree::kinds::{NODE_FUNC, NODE_SFUNC, NODE_SIGNED, NODE_SSIGNED, NODE_UNARY};

// The kind of node that a function heads, or else a sign.
pub(crate) fn head_kind(func: bool) -> u32
    ensures { result ≡ cond func 14 8 }
{
    if func { NODE_FUNC } else { NODE_SIGNED }
}

// Whether its argument ends at a separator: a sign's does where the sign's own reader does.
pub(crate) fn head_stop(func: bool, stop: bool) -> bool
    ensures { result ≡ cond func false stop }
{
    !func && stop
}

// The kind of node that a token of kind k makes of one argument, if it takes one. `sign`: a sign here prefixes.
pub(crate) fn prefix_kind(k: u32, sign: bool) -> Option<u32>
    ensures { result ≡ prefix_node k sign }
{
    match k {
        UNARY => Some(NODE_UNARY),
        FUNCTION => Some(NODE_SFUNC),
        SIGN if sign => Some(NODE_SSIGNED),
        _ => None,
    }
}

// The script of that number whose last argument was read.
pub(crate) fn scripted(g: Part, script: u32) -> Scripted
    ensures { result ≡ record { cur = g.cur; end = g.end; script = script } }
{
    Scripted {
        cur: g.cur,
        end: g.end,
        script,
    }
}
