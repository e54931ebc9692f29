//! What is read at the fronts of lists in program order.
ghost use Rattle.std.specs.Prelude.{◌≡◌, ◌<◌, length, not, ◌&&◌, nat_le};
ghost use Rattle.node_pool.specs.Pool.{list_of};
ghost use Rattle.mem_queues.specs.Firsts.{fenced_first, is_free, starts_at, starts_below};

use node_pool::NodePool;

// The first row of a list is below a number.
pub fn starts_below(rows: &NodePool, list: usize, row: u32) -> bool
    requires { list < length rows.now.lists }
    ensures { result ≡ starts_below row (list_of rows.now list) }
{
    match rows.first(list) {
        None => false,
        Some(x) => x.key < row as u64,
    }
}

// The first row of a list is this one.
pub fn starts_at(rows: &NodePool, list: usize, row: u32) -> bool
    requires { list < length rows.now.lists }
    ensures { result ≡ starts_at row (list_of rows.now list) }
{
    match rows.first(list) {
        None => false,
        Some(x) => x.key == row as u64,
    }
}

// No row of a list of rows that have not issued is below a number, and those that have issued have
// completed by cycle c, `done` being the last of their completions.
pub fn is_done(rows: &NodePool, list: usize, done: u64, row: u32, c: u64) -> bool
    requires { list < length rows.now.lists }
    ensures { result ≡ (not (starts_below row (list_of rows.now list)) && nat_le done c) }
{
    !starts_below(rows, list, row) && done <= c
}

// The first of the loads is at most a number, and no store stands behind it and is at most the number.
pub fn is_free(rows: &NodePool, loads: usize, stores: usize, row: u32) -> bool
    requires loads { loads < length rows.now.lists }
    requires stores { stores < length rows.now.lists }
    ensures { result ≡ is_free row (list_of rows.now loads) (list_of rows.now stores) }
{
    match rows.first(loads) {
        None => false,
        Some(u) => {
            u.key <= row as u64
                && match rows.first_at(stores, u.key) {
                    None => true,
                    Some(x) => x.key > row as u64,
                }
        }
    }
}

// There is a first load, and a store stands behind it.
pub fn fenced_first(rows: &NodePool, loads: usize, stores: usize) -> bool
    requires loads { loads < length rows.now.lists }
    requires stores { stores < length rows.now.lists }
    ensures { result ≡ fenced_first (list_of rows.now loads) (list_of rows.now stores) }
{
    match rows.first(loads) {
        None => false,
        Some(u) => rows.first_at(stores, u.key).is_some(),
    }
}
