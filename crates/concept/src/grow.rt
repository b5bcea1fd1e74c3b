// Forests: making one, reading it, adding a node and cutting back.
ghost use Rattle.std.specs.Prelude.{◌≡◌, ℕ, ◌<◌, ◌≤◌, true, [], length, take, is_some};
ghost use Rattle.std.specs.List.{slice_get};
ghost use Rattle.concept.specs.Forests.{Pushed, rooted, roots};
ghost use Rattle.concept.specs.Held.{items};

use crate::forest::Forest;
use crate::normal::Normal;

impl Forest {
    pub fn new() -> Forest
        ensures { items result ≡ [] }
    {
        Forest {
            nodes: [Normal::Atom(0); 256],
            len: 0,
        }
    }

    pub fn len(&self) -> usize
        ensures value { result ≡ length (items self.now) }
        ensures bound { result ≤ 256 }
    {
        self.len
    }

    // The nodes, by their places.
    pub fn as_slice(&self) -> &[Normal]
        ensures { result.now ≡ items self.now }
    {
        &self.nodes[..self.len]
    }

    // The node at a place, if there is one.
    pub fn get(&self, place: usize) -> Option<Normal>
        ensures { result ≡ slice_get (items self.now) place }
    {
        self.as_slice().get(place).copied()
    }

    // The forest as it was when it had this many nodes; one that has fewer stays as it is.
    pub fn cut(self, len: usize) -> Forest
        ensures { items result ≡ take len (items self) }
    {
        if self.len() <= len {
            return self;
        }
        self.first(len)
    }

    fn first(self, len: usize) -> Forest
        requires { len ≤ length (items self) }
        ensures { items result ≡ take len (items self) }
    {
        let Forest { nodes, .. } = self;
        Forest { nodes, len }
    }

    // Adds a node that takes the newest roots for its children, and says its place.
    pub(crate) fn push(self, node: Normal) -> (Forest, u32)
        requires room { length (items self) < 256 }
        requires takes { is_some (rooted (length (items self)) node (roots (items self))) ≡ true }
        ensures { Pushed (items self) (items result.0) result.1 node }
    {
        let Forest { mut nodes, len } = self;
        nodes[len] = node;
        (
            Forest {
                nodes,
                len: len + 1,
            },
            len as u32,
        )
    }
}
