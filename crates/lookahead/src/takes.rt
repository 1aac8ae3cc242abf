// How takes are counted: round 2^32.
ghost use Rattle.std.specs.Prelude.{◌≡◌};
ghost use Rattle.lookahead.specs.Takes.{taken, looked};

// One take more.
pub fn count_take(takes: u32) -> u32
    ensures { result ≡ taken takes }
{
    std::num::wrapping_add_u32(takes, 1)
}

// A look at the entry at i: a take, if there is one.
#[tactic(auto, unfolding(crate::specs::Takes::looked))]
pub fn count_look(takes: u32, n: usize, i: usize) -> u32
    ensures { result ≡ looked n i takes }
{
    if i < n { count_take(takes) } else { takes }
}
