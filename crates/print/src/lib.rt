// The printed tree of document 01: the call that reads a text and prints its tree.
#![tactic(auto)]

ghost use Rattle.std.specs.Prelude.{◌≡◌};
ghost use Rattle.print.specs.Call.{answer_of, printed_text};

use parse::{Parsed, parse};
use printer::print_tree;
use refusals::refusal::Refusal;

// What the call answers: how many bytes the print has, takes, and whether the root has no items.
#[derive(Clone, Copy, PartialEq, Eq)]
pub struct Printed {
    pub len: usize,
    pub takes: u64,
    pub blank: bool,
}

// Reads a text and prints its tree: the print's bytes first in `out`, or a refusal by 1, 2, 7, 8, 9 or 10.
pub fn print(
    text: &[u8],
    table: &mut [u32],
    work: &mut [u32],
    tree: &mut [u32],
    out: &mut [u8],
) -> Result<Printed, Refusal>
    ensures { (answer_of result, table.new, work.new, tree.new, out.new)
        ≡ printed_text text.now table.old work.old tree.old out.old }
{
    let Parsed {
        tokens,
        takes,
        items,
        blank,
    } = parse(text, table, work, tree)?;
    // kept: an arm for its refusal, which a must-fail edit answers otherwise
    match print_tree(tree, out, text.len(), tokens, takes, items as usize) {
        Ok(len) => Ok(Printed { len, takes, blank }),
        Err(refusal) => Err(refusal),
    }
}
