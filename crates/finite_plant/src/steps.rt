// Where relations and chains lead in a plant.
ghost use Rattle.std.specs.Prelude.{◌≡◌, ℕ, Some, nat_eq};
ghost use Rattle.concept.specs.Chains.{steps};
ghost use Rattle.concept.specs.Plants.{related as is-related, defined as is-defined, walk as walked, reading as read, measured as measures, onward};
ghost use Rattle.finite_plant.specs.Data.{plant_of};

use crate::plant::FinitePlant;
use concept::node::Chain;
use domain::{Domain, Predicate};

impl FinitePlant {
    // The second thing is a neighbour of the first.
    pub(crate) fn related(&self, relation: u32, from: u32, to: u32) -> bool
        ensures { result ≡ is-related (plant_of self.now) relation from to }
    {
        match relation {
            256.. => self.is_joined(relation, from, to),
            _ => self.linked(relation, from) == Some(to),
        }
    }

    pub(crate) fn defined(&self, feature: u32, thing: u32) -> bool
        ensures { result ≡ is-defined (plant_of self.now) feature thing }
    {
        match feature {
            0..=127 => self.linked(feature, thing).is_some(),
            _ => self.valued(feature, thing).is_some(),
        }
    }

    // Where a chain of link features leads.
    pub(crate) fn walk(&self, chain: Chain, from: u32) -> Option<u32>
        ensures { result ≡ walked (plant_of self.now) (steps chain) from }
    {
        match (chain.first, chain.second, chain.third) {
            (0, _, _) => Some(from),
            (f, 0, _) => self.linked(f, from),
            (f, g, 0) => self.linked(g, self.linked(f, from)?),
            (f, g, h) => self.linked(h, self.linked(g, self.linked(f, from)?)?),
        }
    }

    // Whether two chains lead to the same thing; no answer where one leads nowhere.
    pub(crate) fn meet(&self, u: Chain, v: Chain, from: u32) -> Option<bool>
        ensures { result ≡ onward (walked (plant_of self.now) (steps u) from) (λ a. onward (walked (plant_of self.now) (steps v) from) (λ b. Some (nat_eq a b))) }
    {
        Some(self.walk(u, from)? == self.walk(v, from)?)
    }

    // The value at the end of a chain.
    pub(crate) fn reading(&self, chain: Chain, from: u32) -> Option<i32>
        ensures { result ≡ read (plant_of self.now) (steps chain) from }
    {
        match (chain.first, chain.second, chain.third) {
            (0, _, _) => None,
            (f, 0, _) => self.valued(f, from),
            (f, g, 0) => self.valued(g, self.linked(f, from)?),
            (f, g, h) => self.valued(h, self.linked(g, self.linked(f, from)?)?),
        }
    }
}

// The predicate holds of what was read: of one value at arity 1, of two at arity 2.
pub(crate) fn measured<D: Domain>(
    domain: &D,
    predicate: Predicate,
    first: Option<i32>,
    second: Option<i32>,
) -> bool
    ensures { result ≡ measures (D.meaning domain.now) predicate first second }
{
    match (domain.arity(predicate), first, second) {
        (1, Some(x), _) => domain.test(predicate, x, x),
        (_, Some(x), Some(y)) => domain.test(predicate, x, y),
        _ => false,
    }
}
