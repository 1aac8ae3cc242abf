// The tokens of a text, read one after the other.
ghost use Rattle.std.specs.Prelude.{◌≡◌, true, ◌≤◌, length};
ghost use Rattle.tokens.specs.Refusals.{ascii};
ghost use Rattle.lexer.specs.Listing.{listed_to};

use crate::Listing;
use crate::found::row_in;
use crate::rules::read_token;
use crate::table::Listed;

// Lists the reads from a place on that begin before another. This is the one place that reads, so that the compiler keeps the rules in
// the loop's body.
pub(crate) fn list_from(text: &[u8], from: usize, stop: usize, table: &mut [u32]) -> Listing
    requires { (ascii text.now ≡ true) × (length text.now ≤ 4096) × (stop ≤ length text.now) }
    ensures { (result, table.new) ≡ listed_to stop text.now from table.old }
{
    let mut p = Listed {
        all: 0,
        spaces: 0,
        next: from,
        found: 0,
    };
    while p.next < stop {
        p = read_token(text, table, p);
    }
    Listing {
        all: p.all,
        others: p.all - p.spaces,
        next: p.next,
        row: row_in(p.found),
    }
}
