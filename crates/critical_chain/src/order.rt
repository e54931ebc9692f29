//! Where rows stand in issue order, found by going back in it from a place above them.
ghost use Rattle.std.specs.Prelude.{◌≡◌, ◌<◌, ◌≤◌, length, nat_lt};
ghost use Rattle.critical_chain.specs.Graph.{place, IsOrder};

/// The place in an order of a row that stands below place `high`.
pub fn place_below(order: &[u32], high: usize, v: u32) -> usize
    requires order { IsOrder (length order.now) order.now }
    requires high { high ≤ length order.now }
    requires below { place order.now v < high }
    ensures { result ≡ place order.now v }
{
    for i in (0..high).rev() {
        if order[i] == v {
            return i;
        }
    }
    0
}

/// Whether of two rows that stand in an order below place `high` the first stands before the
/// second. It takes as many steps as the later of them stands below that place.
pub fn is_earlier(order: &[u32], high: usize, a: u32, b: u32) -> bool
    requires order { IsOrder (length order.now) order.now }
    requires high { high ≤ length order.now }
    requires a { place order.now a < high }
    requires b { place order.now b < high }
    ensures { result ≡ nat_lt (place order.now a) (place order.now b) }
{
    for i in (0..high).rev() {
        if order[i] == a {
            return false;
        }
        if order[i] == b {
            return true;
        }
    }
    false
}
