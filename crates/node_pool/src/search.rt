//! The tests by which a list is searched.
ghost use Rattle.std.specs.Prelude.{◌≡◌, Bool, nat_le, nat_lt, nat_eq};

use crate::node::Node;

// What a node is searched by.
pub trait NodeTest {
    ghost use Rattle.node_pool.specs.declared.node.Node.{Node as NodeOf};

    ghost passes: { Self → NodeOf → Bool };

    // Whether a node is one that is looked for.
    fn is_it(&self, node: &Node) -> bool
        ensures { result ≡ passes self.now node.now };
}

// A key, or more.
#[derive(Clone, Copy)]
pub struct AtLeast {
    pub key: u64,
}

impl NodeTest for AtLeast {
    ghost passes = { λ t x. nat_le t.key x.key };

    fn is_it(&self, node: &Node) -> bool {
        self.key <= node.key
    }
}

// More than a key.
#[derive(Clone, Copy)]
pub struct MoreThan {
    pub key: u64,
}

impl NodeTest for MoreThan {
    ghost passes = { λ t x. nat_lt t.key x.key };

    fn is_it(&self, node: &Node) -> bool {
        self.key < node.key
    }
}

// A value.
#[derive(Clone, Copy)]
pub struct HasValue {
    pub value: u32,
}

impl NodeTest for HasValue {
    ghost passes = { λ t x. nat_eq x.value t.value };

    fn is_it(&self, node: &Node) -> bool {
        node.value == self.value
    }
}
