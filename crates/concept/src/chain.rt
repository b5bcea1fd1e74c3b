// Which chains are written properly, and where they end.
ghost use Rattle.std.specs.Prelude.{◌≡◌, ℕ};
ghost use Rattle.concept.specs.Concepts.{end_kind};
ghost use Rattle.concept.specs.Chains.{steps, no_chain, to_thing, to_value};

use crate::features::{is_link, is_value, kind_at};
use crate::node::Chain;

impl Chain {
    // No step at all.
    pub(crate) fn is_empty(self) -> bool
        ensures { result ≡ no_chain self }
    {
        self.first == 0 && self.second == 0 && self.third == 0
    }

    // Link features only, one at least.
    pub(crate) fn leads_to_thing(self) -> bool
        ensures { result ≡ to_thing self }
    {
        match (self.first, self.second, self.third) {
            (f, 0, 0) => is_link(f),
            (f, g, 0) => is_link(f) && is_link(g),
            (f, g, h) => is_link(f) && is_link(g) && is_link(h),
        }
    }

    // Link features, possibly none, and then one value feature.
    pub(crate) fn leads_to_value(self) -> bool
        ensures { result ≡ to_value self }
    {
        match (self.first, self.second, self.third) {
            (f, 0, 0) => is_value(f),
            (f, g, 0) => is_link(f) && is_value(g),
            (f, g, h) => is_link(f) && is_link(g) && is_value(h),
        }
    }

    // The kind of the last step; 0 where there is none.
    pub fn end_kind(self, kinds: &[u32]) -> u32
        ensures { result ≡ end_kind kinds.now (steps self) }
    {
        match (self.first, self.second, self.third) {
            (0, _, _) => 0,
            (f, 0, _) => kind_at(kinds, f),
            (_, g, 0) => kind_at(kinds, g),
            (_, _, h) => kind_at(kinds, h),
        }
    }
}
