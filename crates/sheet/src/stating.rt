// Stating that an object lies in a concept.
ghost use Rattle.std.specs.Prelude.{◌≡◌, ℕ};
ghost use Rattle.sheet.specs.Views.{state_refusal, stated, with_statement};
ghost use Rattle.sheet.specs.Showing.{view, Acts};

use crate::comparing::MOST_VALUES;
use crate::refusal::Refusal;
use crate::sheet::Sheet;
use crate::statement::Stored;
use concept::check::check;
use concept::node::Node;
use concept::term::Sign;
use domain::Domain;

impl<D: Domain> Sheet<D> {
    // States that the object lies in the concept of the table.
    pub fn state(&mut self, object: u32, table: &[Node]) -> Result<(), Refusal>
        ensures { Acts self.old self.new (state_refusal (D.meaning self.old.domain) (view self.old) object table.now) (with_statement (view self.old) (stated (D.meaning self.old.domain) (view self.old) object table.now)) result }
    {
        if !self.is_object(object) {
            return Err(Refusal::Object);
        }
        // a copy, since the borrow checker covers no call that lends two fields of a sheet
        let kinds = self.kinds;
        let checked = check(&self.domain, &kinds, table)?;
        let Ok(grown) = self.forest.add(&checked, Sign::Plain) else {
            return Err(Refusal::Nodes);
        };
        let counts = checked.count(Sign::Plain);
        let totals = self.totals();
        if totals.comparisons + self.objects * (totals.valued + counts.valued) > MOST_VALUES {
            return Err(Refusal::Values);
        }
        let (forest, root) = grown;
        self.forest = forest;
        self.statements.push(Stored::Concept(object, root, counts));
        Ok(())
    }
}
