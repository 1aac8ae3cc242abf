// How deep the readers may call one another.
ghost use Rattle.std.specs.Prelude.{◌≡◌};
ghost use Rattle.lookahead.specs.Depth.{too_deep};

const MAX_DEPTH: u16 = 256;

// An item at depth d is read by next_simple at d + 1.
pub(crate) const MAX_ITEM_DEPTH: usize = MAX_DEPTH as usize - 1;

// A closing bracket that nothing opened closes all before it so many times at most.
pub const MOST_WRAPS: usize = 256;

// A reader of this depth finds nothing.
pub fn too_deep(depth: u16) -> bool
    ensures { result ≡ too_deep depth }
{
    depth >= MAX_DEPTH
}
