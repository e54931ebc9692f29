//! Two spans made one.
ghost use Rattle.std.specs.Prelude.{◌≡◌, ℕ, ◌+◌, ◌-◌, ◌<◌, ◌≤◌, ◌^◌, length};
ghost use Rattle.node_pool.specs.Chain.{HasTail, IsJoined, occurs, one_below, places};

use crate::span::Span;

// The places of one span, and then those of another that has none of them.
pub fn join(next: &mut [usize], front: Span, back: Span) -> Span
    requires front { HasTail next.old front }
    requires back { HasTail next.old back }
    requires apart { (i : ℕ) → occurs i (places next.old front) + occurs i (places next.old back)
        ≤ one_below (length next.old) i }
    requires fits { front.len + back.len < 2 ^ 64 }
    ensures { IsJoined next.old next.new front back result }
{
    if front.len == 0 {
        return back;
    }
    if back.len == 0 {
        return front;
    }
    next[front.tail] = back.head;
    Span {
        head: front.head,
        tail: back.tail,
        len: front.len + back.len,
    }
}
