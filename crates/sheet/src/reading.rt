// Reading a sheet.
ghost use Rattle.std.specs.Prelude.{◌≡◌, length};
ghost use Rattle.std.specs.List.{slice_get};
ghost use Rattle.sheet.specs.Views.{is_object};
ghost use Rattle.sheet.specs.Showing.{view};

use crate::sheet::Sheet;
use crate::statement::Stored;

impl<D> Sheet<D> {
    // M, 0 before setting up.
    pub fn objects(&self) -> u32
        ensures { result ≡ (view self.now).objects }
    {
        self.objects
    }

    // Objects are 1 to M.
    pub(crate) fn is_object(&self, object: u32) -> bool
        ensures { result ≡ is_object (view self.now) object }
    {
        1 <= object && object <= self.objects
    }

    // How many statements are in force.
    pub fn len(&self) -> usize
        ensures { result ≡ length (view self.now).statements }
    {
        self.statements.len()
    }

    // The statement at a place, oldest first, as it is stored.
    pub fn get(&self, place: usize) -> Option<Stored>
        ensures { result ≡ slice_get self.now.statements.items place }
    {
        self.statements.as_slice().get(place).copied()
    }
}
