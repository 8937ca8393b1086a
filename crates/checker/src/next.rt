// Where an instruction may go next: a place in 0 to n - 1, or none. Any place may be asked about, for a sum that would be
// too large is none.
ghost use Rattle.std.specs.Prelude.{◌≡◌, [], ◌∷◌, ◌+◌, pos, cond};
ghost use Rattle.checker.specs.Operations.{target_of};
ghost use Rattle.checker.specs.Rules.{all_inside};
ghost use Rattle.checker.specs.Steps.{place_in};

use crate::{Site, operands};

// d places after p.
#[tactic(auto, unfolding(crate::specs::Steps::place_in))]
pub(crate) fn ahead(p: usize, d: usize, n: usize) -> Option<usize>
    ensures { result ≡ place_in n (pos (p + d)) }
{
    p.checked_add(d).filter(|k| *k < n)
}

// p + 1 alone.
#[tactic(auto, using(crate::proofs::Places::placed), unfolding(crate::specs::Rules::all_inside))]
pub(crate) fn next_inside(s: Site) -> bool
    ensures { result ≡ all_inside s.limits.instructions (pos (s.place + 1) ∷ []) }
{
    ahead(s.place, 1, s.limits.instructions).is_some()
}

// p + 1 and p + 2.
#[tactic(auto, using(crate::proofs::Places::placed), unfolding(crate::specs::Rules::all_inside))]
pub(crate) fn skip_inside(s: Site) -> bool
    ensures { result ≡ all_inside s.limits.instructions (pos (s.place + 1) ∷ pos (s.place + 2) ∷ []) }
{
    let next = ahead(s.place, 1, s.limits.instructions);
    let skip = ahead(s.place, 2, s.limits.instructions);
    next.is_some() & skip.is_some()
}

// p + 1, or p + 2 where it skips.
pub(crate) fn next_or_skip(s: Site, goes_on: bool) -> Option<usize>
    ensures { result ≡ place_in s.limits.instructions (pos (cond goes_on (s.place + 1) (s.place + 2))) }
{
    ahead(s.place, if goes_on { 1 } else { 2 }, s.limits.instructions)
}

// From 32,768 on an offset is negative: -1, 65,535, leads to the instruction itself, -32,768 back by 32,767.
#[tactic(auto, unfolding(crate::specs::Steps::place_in, crate::specs::Operations::target_of))]
pub(crate) fn target_of(s: Site) -> Option<usize>
    ensures { result ≡ place_in s.limits.instructions (target_of s.place s.word) }
{
    let bc = operands::bc_of(s.word);
    if bc < 32768 {
        ahead(s.place, 1 + bc, s.limits.instructions)
    } else {
        s.place
            .checked_sub(65535 - bc)
            .filter(|k| *k < s.limits.instructions)
    }
}
