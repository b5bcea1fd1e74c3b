// What a text says.
ghost use Rattle.std.specs.Prelude.{◌≡◌, []};

use concept::node::Node;
use finite_plant::FinitePlant;
use std::alloc::Global;

// The nodes of a table in the order of their lines, and a plant. Without a plant the plant has no thing.
#[derive(Drop)]
pub struct Sheet {
    pub table: Vec<Node>,
    pub plant: FinitePlant,
}

impl Sheet {
    // What an empty text says.
    pub fn new(heap: Global) -> Sheet
        ensures table { result.table.items ≡ [] }
        ensures things { result.plant.count ≡ 0 }
    {
        Sheet {
            table: Vec::new(heap),
            plant: FinitePlant {
                count: 0,
                names: Vec::new(heap),
                links: Vec::new(heap),
                readings: Vec::new(heap),
                pairs: Vec::new(heap),
            },
        }
    }
}
