// Counting what a checked table stands for. A table shares its terms and a normal form does not, so a form can have more nodes
// than anything could hold: it is counted place by place, and never written out.
ghost use Rattle.std.specs.Prelude.{◌≡◌, ℕ, ◌<◌, true, List, map, length};
ghost use Rattle.concept.specs.Chains.{steps};
ghost use Rattle.concept.specs.Concepts.{Concept};
ghost use Rattle.concept.specs.Concepts.Concept.{disj, all};
ghost use Rattle.concept.specs.Counts.{counted, counted_forms};
ghost use Rattle.concept.specs.Held.{root_forms};
ghost use Rattle.concept.specs.Normal.{undefined};
ghost use Rattle.concept.specs.Terms.{Forms, signed, term_forms, lower as names-lower, nowhere};

use crate::checked::Checked;
use crate::node::Chain;
use crate::term::{Sign, Term};
use arrayvec::ArrayVec;

// What is counted of a normal form, each up to 2^32 - 1.
#[derive(Clone, Copy, PartialEq, Eq, Debug)]
pub struct Counts {
    pub nodes: u32,
    // the nodes that ask for a feature or a value
    pub valued: u32,
    // the most role nodes on one path
    pub depth: u32,
}

// The counts of a form and of its negation.
#[derive(Clone, Copy)]
struct SignedCounts {
    plain: Counts,
    turned: Counts,
}

// What stands in the unused places of a vector.
impl Default for SignedCounts {
    fn default() -> SignedCounts {
        SignedCounts {
            plain: LEAF,
            turned: LEAF,
        }
    }
}

const LEAF: Counts = Counts {
    nodes: 1,
    valued: 0,
    depth: 0,
};

const VALUED_LEAF: Counts = Counts {
    nodes: 1,
    valued: 1,
    depth: 0,
};

impl Counts {
    // The counts of an "and" or an "or" of two forms.
    fn joined(self, other: Counts) -> Counts
        ensures { (c d : Concept) → self ≡ counted c → other ≡ counted d → result ≡ counted (disj c d) }
    {
        Counts {
            nodes: self.nodes.saturating_add(other.nodes).saturating_add(1),
            valued: self.valued.saturating_add(other.valued),
            depth: self.depth.max(other.depth),
        }
    }

    // The counts of a leaf, and of: another such leaf, or that a chain leads nowhere.
    fn or_nowhere(self, nowhere: Counts) -> SignedCounts
        ensures plain { result.plain ≡ self }
        ensures turned { (c d : Concept) → self ≡ counted c → nowhere ≡ counted d → result.turned ≡ counted (disj c d) }
    {
        SignedCounts {
            plain: self,
            turned: self.joined(nowhere),
        }
    }

    // The counts of a "some" or an "all" over a form.
    fn over(self, relation: u32) -> Counts
        ensures { (c : Concept) → self ≡ counted c → result ≡ counted (all relation c) }
    {
        let step = match relation {
            256.. => 1,
            _ => 0,
        };
        Counts {
            nodes: self.nodes.saturating_add(1),
            valued: self.valued,
            depth: self.depth.saturating_add(step),
        }
    }
}

// The counts of: the chain leads nowhere.
fn undefined_counts(chain: Chain) -> Counts
    ensures { result ≡ counted (undefined (steps chain)) }
{
    match (chain.first, chain.second, chain.third) {
        (0, _, _) | (_, 0, _) => LEAF,
        (f, _, 0) => LEAF.over(f),
        (f, g, _) => LEAF.over(g).over(f),
    }
}

// The counts of: one of the chains leads nowhere.
fn nowhere_counts(u: Chain, v: Chain) -> Counts
    ensures { result ≡ counted (nowhere u v) }
{
    undefined_counts(u).joined(undefined_counts(v))
}

// The counts of a term, from those of the places below it.
fn term_counts(term: Term, below: &[SignedCounts]) -> SignedCounts
    requires { names-lower (length below.now) term ≡ true }
    ensures { (fs : List Forms) → below.now ≡ map counted_forms fs → result ≡ counted_forms (term_forms fs term) }
{
    match term {
        Term::Atom(_) => SignedCounts {
            plain: LEAF,
            turned: LEAF,
        },
        Term::Not(child) => {
            let child = below[child as usize];
            SignedCounts {
                plain: child.turned,
                turned: child.plain,
            }
        }
        Term::And(left, right) | Term::Or(left, right) => {
            let left = below[left as usize];
            let right = below[right as usize];
            SignedCounts {
                plain: left.plain.joined(right.plain),
                turned: left.turned.joined(right.turned),
            }
        }
        Term::Exists(relation, child) | Term::Forall(relation, child) => {
            let child = below[child as usize];
            SignedCounts {
                plain: child.plain.over(relation),
                turned: child.turned.over(relation),
            }
        }
        Term::Has(_) => SignedCounts {
            plain: VALUED_LEAF,
            turned: LEAF,
        },
        Term::Lacks(_) => SignedCounts {
            plain: LEAF,
            turned: VALUED_LEAF,
        },
        Term::Holds(k) => match k.arity {
            1 => VALUED_LEAF.or_nowhere(undefined_counts(k.u)),
            _ => VALUED_LEAF.or_nowhere(nowhere_counts(k.u, k.v)),
        },
        Term::Meets(u, v) | Term::Parts(u, v) => LEAF.or_nowhere(nowhere_counts(u, v)),
    }
}

impl Checked {
    // The counts of what the table stands for, or of its negation.
    pub fn count(&self, sign: Sign) -> Counts
        ensures { result ≡ counted (signed sign (root_forms self.now)) }
    {
        let mut counts = ArrayVec::<SignedCounts, 64>::new();
        for term in self.as_slice() {
            let more = term_counts(*term, counts.as_slice());
            counts.push(more);
        }
        let root = counts.as_slice()[self.len - 1];
        match sign {
            Sign::Plain => root.plain,
            Sign::Negated => root.turned,
        }
    }
}
