// The forest: the normal forms of a sheet, as trees in one table of nodes.
ghost use Rattle.std.specs.Prelude.{◌≡◌, ℕ, ◌≤◌, true, length, take, is_some};
ghost use Rattle.concept.specs.Forests.{roots, parents, children_lower};

use crate::normal::Normal;

// Room for this many nodes.
pub const MOST_NODES: usize = 256;

// Trees of normal nodes. A node's children are the newest trees that no earlier node has taken, so every node has its
// children at lower places and at most one parent. Forests are changed by value and use no heap: hence an array with a length.
#[derive(Clone, Copy)]
pub struct Forest {
    pub(crate) nodes: [Normal; 256],
    pub(crate) len: usize,
    ghost few: { len ≤ 256 },
    ghost filled: { length (take len nodes) ≡ len },
    ghost ordered: { is_some (roots (take len nodes)) ≡ true },
    ghost lower: { children_lower 0 (take len nodes) ≡ true },
    ghost single: { (c : ℕ) → parents (take len nodes) c ≤ 1 },
}
