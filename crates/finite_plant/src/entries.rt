// What the entries of a plant say.
ghost use Rattle.std.specs.Prelude.{◌≡◌, ℕ};
ghost use Rattle.finite_plant.specs.Data.{plant_of};

use crate::plant::{FinitePlant, Named, Pair};

impl FinitePlant {
    pub(crate) fn is_named(&self, name: u32, thing: u32) -> bool
        ensures { result ≡ (plant_of self.now).named name thing }
    {
        self.names.contains(&Named { name, thing })
    }

    pub(crate) fn is_joined(&self, role: u32, from: u32, to: u32) -> bool
        ensures { result ≡ (plant_of self.now).joined role from to }
    {
        self.pairs.contains(&Pair { role, from, to })
    }

    pub(crate) fn linked(&self, feature: u32, from: u32) -> Option<u32>
        ensures { result ≡ (plant_of self.now).linked feature from }
    {
        self.links
            .iter()
            .find(|link| link.feature == feature && link.from == from)
            .map(|link| link.to)
    }

    pub(crate) fn valued(&self, feature: u32, thing: u32) -> Option<i32>
        ensures { result ≡ (plant_of self.now).valued feature thing }
    {
        self.readings
            .iter()
            .find(|reading| reading.feature == feature && reading.thing == thing)
            .map(|reading| reading.value)
    }
}
