// Setting up a sheet.
ghost use Rattle.std.specs.Prelude.{◌≡◌, ℕ};
ghost use Rattle.domain.specs.Solving.{first_failing};
ghost use Rattle.sheet.specs.Views.{set_up, set_up_refusal};
ghost use Rattle.sheet.specs.Showing.{view, Acts};

use crate::refusal::Refusal;
use crate::sheet::Sheet;
use domain::Domain;

pub const MOST_OBJECTS: u32 = 16;

// There are this many value features, each with a kind.
pub const VALUE_FEATURES: usize = 128;

fn is_known<D: Domain>(domain: &D, kind: u32) -> bool
    ensures { result ≡ (D.meaning domain.now).knows kind }
{
    domain.sample(kind).is_some()
}

fn first_unknown<D: Domain>(domain: &D, kinds: &[u32]) -> Option<usize>
    ensures { result ≡ first_failing (D.meaning domain.now).knows kinds.now }
{
    kinds.iter().position(|kind| !is_known(domain, *kind))
}

impl<D: Domain> Sheet<D> {
    // Fixes how many objects there are, and the kinds of the value features from 128 on.
    #[tactic(auto, unfolding(crate::specs::Views::set_up_refusal))]
    pub fn set_up(&mut self, objects: u32, kinds: &[u32]) -> Result<(), Refusal>
        ensures { Acts self.old self.new (set_up_refusal (D.meaning self.old.domain) (view self.old) objects kinds.now) (set_up (view self.old) objects kinds.now) result }
    {
        if self.objects != 0 {
            return Err(Refusal::SetUpBefore);
        }
        if objects < 1 || objects > MOST_OBJECTS {
            return Err(Refusal::Objects);
        }
        if kinds.len() != VALUE_FEATURES {
            return Err(Refusal::Kinds(VALUE_FEATURES));
        }
        if let Some(place) = first_unknown(&self.domain, kinds) {
            return Err(Refusal::Kinds(place));
        }
        self.kinds.copy_from_slice(kinds);
        self.objects = objects;
        Ok(())
    }
}
