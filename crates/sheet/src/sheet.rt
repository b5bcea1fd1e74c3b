// The sheet.
ghost use Rattle.std.specs.Prelude.{◌≡◌, ℕ, ◌*◌, ◌≤◌, true};
ghost use Rattle.sheet.specs.Layout.{sound, rising};
ghost use Rattle.sheet.specs.Stacks.{height};

use crate::stack::Stack;
use crate::statement::Stored;
use crate::trial::Trial;
use crate::trials::MOST_OPEN;
use concept::forest::Forest;

// A sheet (an ABox with a history of trials): what a technician has written down of a plant.
#[derive(Drop)]
pub struct Sheet<D> {
    pub(crate) domain: D,
    // M; 0 until setting up, which by itself rules every object out: with an Option each call would have to ask first
    pub(crate) objects: u32,
    // the kinds of the value features 128 to 255, once set up
    pub(crate) kinds: [u32; 128],
    pub(crate) forest: Forest,
    // those in force, oldest first: each concept has one of the 256 nodes, and 64 are no concepts
    pub(crate) statements: Stack<Stored, 320>,
    // the open ones, oldest first
    pub(crate) trials: Stack<Trial, MOST_OPEN>,
    pub(crate) opened: u32,
    ghost few_objects: { objects ≤ 16 },
    ghost few_opened: { opened ≤ 65535 },
    ghost few_open: { height trials ≤ 8 },
    ghost few: { height statements ≤ 320 },
    // nothing is stated before setting up
    ghost ready: { height statements ≤ 320 * objects },
    ghost held: { sound forest objects statements.items ≡ true },
    ghost marked: { rising 0 (height statements) trials.items ≡ true },
}
