// The nodes of normal forms.
use crate::node::Chain;
use domain::Predicate;

// A node of a normal form. Children are places in the forest; a negated name is one node.
#[derive(Clone, Copy, PartialEq, Eq, Debug)]
pub enum Normal {
    Atom(u32),
    NotAtom(u32),
    And(u32, u32),
    Or(u32, u32),
    // a relation, and the child
    Exists(u32, u32),
    Forall(u32, u32),
    Has(u32),
    Lacks(u32),
    Holds(Predicate, Chain, Chain),
    Meets(Chain, Chain),
    Parts(Chain, Chain),
}
