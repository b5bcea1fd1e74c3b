// Which things of a plant lie in the concept of a table.
ghost use Rattle.std.specs.Prelude.{◌≡◌, ℕ, ◌≤◌, length, MatchOption};
ghost use Rattle.concept.specs.Tables.{concept_of};
ghost use Rattle.finite_plant.specs.Answers.{Unfit, Members};
ghost use Rattle.finite_plant.specs.Data.{plant_of};

use crate::answers::Answers;
use crate::plant::FinitePlant;
use concept::check::MOST_TERMS;
use concept::node::Node;
use domain::Domain;

// Answers are given for plants of at most this many things.
pub const MOST_THINGS: usize = 64;

// The row of the last node; there is none where there are no nodes.
fn root_row<'a, D: Domain>(
    domain: &'a D,
    kinds: &'a [u32],
    table: &[Node],
    plant: &'a FinitePlant,
) -> Option<[bool; MOST_THINGS]>
    requires short { length table.now ≤ 64 }
    requires few { plant.now.count ≤ 64 }
    ensures { MatchOption result (length table.now ≡ 0) (Members (D.meaning domain.now) (plant_of plant.now) (concept_of kinds.now table.now)) }
{
    let mut answers = Answers::new(domain, kinds, plant);
    for node in table {
        answers.push(*node);
    }
    answers.rows.as_slice().last().copied()
}

// The things that lie in the concept of a table of nodes, one answer for each thing. There is no answer for a table without
// nodes, for one of more than 64, and for a plant of more than 64 things.
pub fn members<D: Domain>(
    domain: &D,
    kinds: &[u32],
    table: &[Node],
    plant: &FinitePlant,
) -> Option<[bool; 64]>
    ensures { MatchOption result (Unfit (length table.now) plant.now.count) (Members (D.meaning domain.now) (plant_of plant.now) (concept_of kinds.now table.now)) }
{
    if table.len() > MOST_TERMS || plant.count as usize > MOST_THINGS {
        return None;
    }
    root_row(domain, kinds, table, plant)
}
