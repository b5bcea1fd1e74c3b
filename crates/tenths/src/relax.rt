// Lower bounds for the spots, raised link by link in rounds until every link is kept.
ghost use Rattle.std.specs.Prelude.{◌≡◌, ◌+◌, ◌-◌, ◌<◌, ◌≤◌, length, Decides};
ghost use Rattle.std.specs.List.{All, Contains};
ghost use Rattle.tenths.specs.Differences.{at, Fair, Under};
ghost use Rattle.tenths.specs.Relaxing.{Low, Relaxes, Sweep, Rounds, Lowest, started};

use crate::MOST_SPOTS;
use crate::links::Link;
use arrayvec::ArrayVec;
use domain::lists::MOST_VARIABLES;

// A weight is stored this much higher than it is.
const SHIFT: u32 = 131_072;

// Bounds end here, above every value of a spot.
const CEILING: u32 = 65_536;

// What stands for the number 0.
const ZERO: u32 = 32_768;

// The first bounds of the variables.
static FIRST: [u32; MOST_VARIABLES] = [0; MOST_VARIABLES];

// A lower bound for each spot, and the links that raise them. The last spot stands for the number 0.
#[derive(Drop)]
pub struct Relaxation<'a> {
    links: &'a [Link],
    pub bounds: ArrayVec<u32, MOST_SPOTS>,
    ghost low: { Low bounds.items },
    ghost some: { 0 < length bounds.items },
    ghost fair: { All (Fair (length bounds.items)) links.now },
    ghost under: { Under links.now (length bounds.items - 1) bounds.items },
}

impl<'a> Relaxation<'a> {
    // The bounds that the rounds start from.
    pub fn start(links: &'a [Link], variables: usize) -> Relaxation<'a>
        requires few { variables ≤ 512 }
        requires fair { All (Fair (variables + 1)) links.now }
        ensures links { result.links.now ≡ links.now }
        ensures bounds { result.bounds.items ≡ started variables }
    {
        let mut bounds = ArrayVec::new();
        // The table is empty, so there is room for them.
        let _ = bounds.try_extend_from_slice(&FIRST[..variables]);
        bounds.push(ZERO);
        Relaxation { links, bounds }
    }

    // Relaxes one of the links, and tells whether it was not kept.
    fn relax(&mut self, link: Link) -> bool
        requires { Contains self.old.links.now link }
        ensures links { self.new.links ≡ self.old.links }
        ensures bounds { Relaxes self.old.bounds.items link self.new.bounds.items result }
    {
        let least = self.bounds[link.tail] + link.weight;
        if least <= self.bounds[link.head] + SHIFT {
            return false;
        }
        self.bounds[link.head] = (least - SHIFT).min(CEILING);
        true
    }

    // Relaxes every link once, in order, and tells whether one was not kept.
    fn round(&mut self) -> bool
        ensures links { self.new.links ≡ self.old.links }
        ensures bounds { Sweep self.old.links.now self.old.bounds.items self.new.bounds.items (length self.old.links.now) result }
    {
        let mut raised = false;
        for link in self.links {
            raised |= self.relax(*link);
        }
        raised
    }

    // Sweeps until a round raises nothing. With a potential that is after at most as many rounds as there are spots; else
    // there is none.
    fn settle(&mut self) -> bool
        ensures links { self.new.links ≡ self.old.links }
        ensures spots { length self.new.bounds.items ≡ length self.old.bounds.items }
        ensures bounds { Rounds (length self.old.bounds.items - 1) self.old.links.now self.old.bounds.items self.new.bounds.items result }
    {
        for _turn in 0..self.bounds.len() {
            if !self.round() {
                return true;
            }
        }
        false
    }

    // Raises the first bounds to the lowest potential of the links, and tells whether there is one.
    pub fn lowest(&mut self) -> bool
        requires { self.old.bounds.items ≡ started (length self.old.bounds.items - 1) }
        ensures spots { length self.new.bounds.items ≡ length self.old.bounds.items }
        ensures lowest { Lowest (length self.old.bounds.items - 1) self.old.links.now self.new.bounds.items result }
    {
        self.settle() && in_range(&self.bounds)
    }
}

// Whether the bounds are values of their spots: the last is the number 0, and none reaches the ceiling.
fn in_range(bounds: &[u32]) -> bool
    requires { 0 < length bounds.now }
    ensures { Decides result ((at bounds.now (length bounds.now - 1) ≡ 32768) × All (λ b. b < 65536) bounds.now) }
{
    bounds[bounds.len() - 1] == ZERO && bounds.iter().all(|bound| *bound < CEILING)
}
