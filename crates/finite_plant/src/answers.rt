// Whether a thing lies in what a node says, from the answers for the places below it.
ghost use Rattle.std.specs.Prelude.{◌≡◌, ℕ, ◌<◌, ◌≤◌, List, [], ◌∷◌, ◌++◌};
ghost use Rattle.concept.specs.Chains.{steps};
ghost use Rattle.concept.specs.Concepts.{Concept};
ghost use Rattle.concept.specs.Concepts.Concept.{some, all, holds};
ghost use Rattle.concept.specs.Plants.{inside};
ghost use Rattle.concept.specs.Tables.{below_at, predicate_at, reads};
ghost use Rattle.finite_plant.specs.Answers.{told_at, Told, Members};
ghost use Rattle.arrayvec.specs.ArrayVec.{array_vec_len};
ghost use Rattle.finite_plant.specs.Data.{plant_of};

use crate::answering::MOST_THINGS;
use crate::plant::FinitePlant;
use crate::steps::measured;
use arrayvec::ArrayVec;
use concept::check::MOST_TERMS;
use concept::fit::predicate_at;
use concept::node::Node;
use domain::Domain;

// What is asked of a plant, with a row of answers for each place that is read: whether each thing lies in what the place says.
// Which concepts the places stand for is known to the contracts only, so that the rows are right stands in each of them.
#[derive(Drop)]
pub(crate) struct Answers<'a, D> {
    domain: &'a D,
    kinds: &'a [u32],
    plant: &'a FinitePlant,
    pub(crate) rows: ArrayVec<[bool; MOST_THINGS], MOST_TERMS>,
    ghost few: { plant.now.count ≤ 64 },
}

impl<'a, D: Domain> Answers<'a, D> {
    // No place is read yet.
    pub(crate) fn new(domain: &'a D, kinds: &'a [u32], plant: &'a FinitePlant) -> Answers<'a, D>
        requires { plant.now.count ≤ 64 }
        ensures asked { (result.domain.now ≡ domain.now) × (result.kinds.now ≡ kinds.now) × (result.plant.now ≡ plant.now) }
        ensures none { result.rows.items ≡ [] }
    {
        Answers {
            domain,
            kinds,
            plant,
            rows: ArrayVec::new(),
        }
    }

    // The answer for a thing at a place. A place that is not read stands for the name 0: no checked table has one.
    fn told(&self, place: u32, thing: u32) -> bool
        ensures value { result ≡ told_at (plant_of self.now.plant.now) self.now.rows.items place thing }
        ensures right { (cs : List Concept) → thing < self.now.plant.now.count → Told (D.meaning self.now.domain.now) (plant_of self.now.plant.now) cs self.now.rows.items → result ≡ inside (D.meaning self.now.domain.now) (plant_of self.now.plant.now) (below_at cs place) thing }
    {
        match self.rows.as_slice().get(place as usize) {
            Some(row) => row.get(thing as usize).copied().unwrap_or(false),
            None => self.plant.is_named(0, thing),
        }
    }

    // Some neighbour of the thing lies in what the place says.
    fn some_neighbour(&self, relation: u32, place: u32, thing: u32) -> bool
        ensures { (cs : List Concept) → Told (D.meaning self.now.domain.now) (plant_of self.now.plant.now) cs self.now.rows.items → result ≡ inside (D.meaning self.now.domain.now) (plant_of self.now.plant.now) (some relation (below_at cs place)) thing }
    {
        (0..self.plant.count).any(|other| self.plant.related(relation, thing, other)
            && self.told(place, other))
    }

    // Every neighbour of the thing lies in what the place says.
    fn all_neighbours(&self, relation: u32, place: u32, thing: u32) -> bool
        ensures { (cs : List Concept) → Told (D.meaning self.now.domain.now) (plant_of self.now.plant.now) cs self.now.rows.items → result ≡ inside (D.meaning self.now.domain.now) (plant_of self.now.plant.now) (all relation (below_at cs place)) thing }
    {
        (0..self.plant.count).all(|other| !self.plant.related(relation, thing, other)
            || self.told(place, other))
    }

    // The predicate of a holds node holds of what its chains lead to.
    fn holds(&self, node: Node, thing: u32) -> bool
        ensures { result ≡ inside (D.meaning self.now.domain.now) (plant_of self.now.plant.now) (holds (predicate_at self.now.kinds.now node) (steps node.u) (steps node.v)) thing }
    {
        measured(
            self.domain,
            predicate_at(self.kinds, node),
            self.plant.reading(node.u, thing),
            self.plant.reading(node.v, thing),
        )
    }

    // The thing lies in what the node says.
    fn lies(&self, node: Node, thing: u32) -> bool
        ensures { (cs : List Concept) → thing < self.now.plant.now.count → Told (D.meaning self.now.domain.now) (plant_of self.now.plant.now) cs self.now.rows.items → result ≡ inside (D.meaning self.now.domain.now) (plant_of self.now.plant.now) (reads self.now.kinds.now cs node) thing }
    {
        let plant = self.plant;
        match node.form {
            1 => plant.is_named(node.name, thing),
            2 => !self.told(node.left, thing),
            3 => self.told(node.left, thing) && self.told(node.right, thing),
            4 => self.told(node.left, thing) || self.told(node.right, thing),
            5 => self.some_neighbour(node.relation, node.left, thing),
            6 => self.all_neighbours(node.relation, node.left, thing),
            7 => plant.defined(node.relation, thing),
            8 => !plant.defined(node.relation, thing),
            9 => self.holds(node, thing),
            10 => plant.meet(node.u, node.v, thing) == Some(true),
            _ => plant.meet(node.u, node.v, thing) == Some(false),
        }
    }

    // For each thing, whether it lies in what the node says.
    fn row(&self, node: Node) -> [bool; MOST_THINGS]
        ensures { (cs : List Concept) → Told (D.meaning self.now.domain.now) (plant_of self.now.plant.now) cs self.now.rows.items → Members (D.meaning self.now.domain.now) (plant_of self.now.plant.now) (reads self.now.kinds.now cs node) result }
    {
        let mut row = [false; MOST_THINGS];
        for thing in 0..self.plant.count {
            row[thing as usize] = self.lies(node, thing);
        }
        row
    }

    // Reads the next place: its row comes after the others.
    pub(crate) fn push(&mut self, node: Node)
        requires { array_vec_len self.old.rows < 64 }
        ensures asked { (self.new.domain ≡ self.old.domain) × (self.new.kinds ≡ self.old.kinds) × (self.new.plant ≡ self.old.plant) }
        ensures told { (cs : List Concept) → Told (D.meaning self.old.domain.now) (plant_of self.old.plant.now) cs self.old.rows.items → Told (D.meaning self.old.domain.now) (plant_of self.old.plant.now) (cs ++ (reads self.old.kinds.now cs node ∷ [])) self.new.rows.items }
    {
        let row = self.row(node);
        self.rows.push(row);
    }
}
