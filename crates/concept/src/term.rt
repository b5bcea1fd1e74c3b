// The nodes of a checked table.
use crate::node::Chain;
use domain::Predicate;

// A predicate with its complement and its arity, as the domain told them, and the chains to what it is asked of.
#[derive(Clone, Copy)]
pub struct Constraint {
    pub predicate: Predicate,
    pub complement: Predicate,
    pub arity: u32,
    pub u: Chain,
    pub v: Chain,
}

// A node whose fields are in range. Children are places in the table.
#[derive(Clone, Copy)]
pub enum Term {
    Atom(u32),
    Not(u32),
    And(u32, u32),
    Or(u32, u32),
    // a relation, and the child
    Exists(u32, u32),
    Forall(u32, u32),
    Has(u32),
    Lacks(u32),
    Holds(Constraint),
    Meets(Chain, Chain),
    Parts(Chain, Chain),
}

// Whether a table's concept is meant, or its negation.
#[derive(Clone, Copy)]
pub enum Sign {
    Plain,
    Negated,
}
