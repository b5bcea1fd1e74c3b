// Writing the normal form of a checked table into a forest. A form is written from its leaves up, so that every node finds its
// children among the newest trees.
ghost use Rattle.std.specs.Prelude.{◌≡◌, ℕ, ◌+◌, ◌<◌, ◌≤◌, [], length, nat_le};
ghost use Rattle.concept.specs.Chains.{steps};
ghost use Rattle.concept.specs.Concepts.Concept.{disj};
ghost use Rattle.concept.specs.Forests.{Grown, children, tree};
ghost use Rattle.concept.specs.Held.{Added, Says, items, forms_of, root_forms};
ghost use Rattle.concept.specs.Normal.{nodes, undefined};
ghost use Rattle.concept.specs.Terms.{nowhere, signed};

use crate::checked::Checked;
use crate::forest::{Forest, MOST_NODES};
use crate::node::Chain;
use crate::normal::Normal;
use crate::term::{Sign, Term};

impl Checked {
    fn term(&self, place: usize) -> Term
        requires { place < self.now.len }
        ensures { Says self.now place result }
    {
        self.terms[place]
    }
}

impl Forest {
    // Writes that a chain leads nowhere.
    fn write_undefined(self, chain: Chain) -> (Forest, u32)
        requires { length (items self) + nodes (undefined (steps chain)) ≤ 256 }
        ensures { Grown (items self) (items result.0) result.1 (undefined (steps chain)) }
    {
        match (chain.first, chain.second, chain.third) {
            (0, _, _) => self.push(Normal::Lacks(0)),
            (f, 0, _) => self.push(Normal::Lacks(f)),
            (f, g, 0) => {
                let (forest, end) = self.push(Normal::Lacks(g));
                forest.push(Normal::Forall(f, end))
            }
            (f, g, h) => {
                let (forest, end) = self.push(Normal::Lacks(h));
                let (forest, rest) = forest.push(Normal::Forall(g, end));
                forest.push(Normal::Forall(f, rest))
            }
        }
    }

    // Writes a leaf, or that the chain leads nowhere.
    fn write_or_undefined(self, leaf: Normal, chain: Chain) -> (Forest, u32)
        requires alone { children leaf ≡ [] }
        requires room { length (items self) + (2 + nodes (undefined (steps chain))) ≤ 256 }
        ensures { Grown (items self) (items result.0) result.1 (disj (tree [] leaf) (undefined (steps chain))) }
    {
        let (forest, leaf) = self.push(leaf);
        let (forest, nowhere) = forest.write_undefined(chain);
        forest.push(Normal::Or(leaf, nowhere))
    }

    // Writes a leaf, or that one of the chains leads nowhere.
    fn write_or_nowhere(self, leaf: Normal, u: Chain, v: Chain) -> (Forest, u32)
        requires alone { children leaf ≡ [] }
        requires room { length (items self) + (2 + nodes (nowhere u v)) ≤ 256 }
        ensures { Grown (items self) (items result.0) result.1 (disj (tree [] leaf) (nowhere u v)) }
    {
        let (forest, leaf) = self.push(leaf);
        let (forest, left) = forest.write_undefined(u);
        let (forest, right) = forest.write_undefined(v);
        let (forest, nowhere) = forest.push(Normal::Or(left, right));
        forest.push(Normal::Or(leaf, nowhere))
    }

    // Writes what a place stands for. This function and the next call each other; the place falls at each call.
    #[cycle(write_plain_write_turned)]
    fn write_plain(self, table: &Checked, place: usize) -> (Forest, u32)
        requires within { place < table.now.len }
        requires room { length (items self) + nodes (forms_of table.now place).plain ≤ 256 }
        ensures { Grown (items self) (items result.0) result.1 (forms_of table.now place).plain }
    {
        match table.term(place) {
            Term::Atom(name) => self.push(Normal::Atom(name)),
            Term::Not(child) => self.write_turned(table, child as usize),
            Term::And(left, right) => {
                let (forest, first) = self.write_plain(table, left as usize);
                let (forest, second) = forest.write_plain(table, right as usize);
                forest.push(Normal::And(first, second))
            }
            Term::Or(left, right) => {
                let (forest, first) = self.write_plain(table, left as usize);
                let (forest, second) = forest.write_plain(table, right as usize);
                forest.push(Normal::Or(first, second))
            }
            Term::Exists(relation, child) => {
                let (forest, inner) = self.write_plain(table, child as usize);
                forest.push(Normal::Exists(relation, inner))
            }
            Term::Forall(relation, child) => {
                let (forest, inner) = self.write_plain(table, child as usize);
                forest.push(Normal::Forall(relation, inner))
            }
            Term::Has(feature) => self.push(Normal::Has(feature)),
            Term::Lacks(feature) => self.push(Normal::Lacks(feature)),
            Term::Holds(k) => self.push(Normal::Holds(k.predicate, k.u, k.v)),
            Term::Meets(u, v) => self.push(Normal::Meets(u, v)),
            Term::Parts(u, v) => self.push(Normal::Parts(u, v)),
        }
    }

    // Writes the negation of what a place stands for.
    #[cycle(write_plain_write_turned)]
    fn write_turned(self, table: &Checked, place: usize) -> (Forest, u32)
        requires within { place < table.now.len }
        requires room { length (items self) + nodes (forms_of table.now place).turned ≤ 256 }
        ensures { Grown (items self) (items result.0) result.1 (forms_of table.now place).turned }
    {
        match table.term(place) {
            Term::Atom(name) => self.push(Normal::NotAtom(name)),
            Term::Not(child) => self.write_plain(table, child as usize),
            Term::And(left, right) => {
                let (forest, not_left) = self.write_turned(table, left as usize);
                let (forest, not_right) = forest.write_turned(table, right as usize);
                forest.push(Normal::Or(not_left, not_right))
            }
            Term::Or(left, right) => {
                let (forest, not_left) = self.write_turned(table, left as usize);
                let (forest, not_right) = forest.write_turned(table, right as usize);
                forest.push(Normal::And(not_left, not_right))
            }
            Term::Exists(relation, child) => {
                let (forest, not_child) = self.write_turned(table, child as usize);
                forest.push(Normal::Forall(relation, not_child))
            }
            Term::Forall(relation, child) => {
                let (forest, not_child) = self.write_turned(table, child as usize);
                forest.push(Normal::Exists(relation, not_child))
            }
            Term::Has(feature) => self.push(Normal::Lacks(feature)),
            Term::Lacks(feature) => self.push(Normal::Has(feature)),
            Term::Holds(k) if k.arity == 1 => {
                self.write_or_undefined(Normal::Holds(k.complement, k.u, k.v), k.u)
            }
            Term::Holds(k) => {
                self.write_or_nowhere(Normal::Holds(k.complement, k.u, k.v), k.u, k.v)
            }
            Term::Meets(u, v) => self.write_or_nowhere(Normal::Parts(u, v), u, v),
            Term::Parts(u, v) => self.write_or_nowhere(Normal::Meets(u, v), u, v),
        }
    }

    // Whether the tree of what the table stands for, or of its negation, can be added. It is counted, not written.
    fn has_room(&self, table: &Checked, sign: Sign) -> bool
        ensures { result ≡ nat_le (length (items self.now) + nodes (signed sign (root_forms table.now))) 256 }
    {
        let wanted = table.count(sign).nodes as usize;
        wanted <= MOST_NODES - self.len()
    }

    // Adds the tree of what the table stands for, or of its negation, and says the place of its root. A forest without the
    // room is handed back as it was.
    pub fn add(self, table: &Checked, sign: Sign) -> Result<(Forest, usize), Forest>
        ensures { Added self (signed sign (root_forms table.now)) result }
    {
        if !self.has_room(table, sign) {
            return Err(self);
        }
        let last = table.len - 1;
        let (forest, root) = match sign {
            Sign::Plain => self.write_plain(table, last),
            Sign::Negated => self.write_turned(table, last),
        };
        Ok((forest, root as usize))
    }
}

#[cfg(test)]
mod tests {
    use super::*;
    use crate::count::Counts;
    use std::test::Fail;

    // Not (1 and some 300 of 2) is: not 1, or all 300 of not 2. It is written from its leaves up.
    #[test]
    fn a_negation_is_written(rt: HostRuntime) -> Result<(), Fail> {
        let mut terms = [Term::Atom(1); 64];
        terms[1] = Term::Atom(2);
        terms[2] = Term::Exists(300, 1);
        terms[3] = Term::And(0, 2);
        let table = Checked { terms, len: 4 };
        let expected = Counts {
            nodes: 4,
            valued: 0,
            depth: 1,
        };
        assert_eq!(rt; table.count(Sign::Negated), expected);
        let Ok(added) = Forest::new().add(&table, Sign::Negated) else {
            return Err(Fail::new("no room"));
        };
        let (forest, root) = added;
        assert_eq!(rt; root, 3);
        let written = [
            Normal::NotAtom(1),
            Normal::NotAtom(2),
            Normal::Forall(300, 1),
            Normal::Or(0, 2),
        ];
        assert_eq!(rt; forest.as_slice(), &written[..]);
        let forest = forest.cut(2);
        assert_eq!(rt; forest.len(), 2);
        assert_eq!(rt; forest.get(2), None);
        Ok(())
    }
}
