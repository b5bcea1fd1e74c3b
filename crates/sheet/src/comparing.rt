// Comparing the values of two readings.
ghost use Rattle.std.specs.Prelude.{◌≡◌, ℕ, ◌&&◌, ◌==◌};
ghost use Rattle.concept.specs.Concepts.{is_value, kind_at};
ghost use Rattle.sheet.specs.Statements.Statement.{compares};
ghost use Rattle.sheet.specs.Views.{compare_refusal, compared_by, with_statement};
ghost use Rattle.sheet.specs.Showing.{view, Acts};

use crate::others::MOST_OTHERS;
use crate::refusal::Refusal;
use crate::sheet::Sheet;
use crate::statement::{Reading, Stored};
use concept::features::{is_value, kind_at};
use concept::fit::fit;
use domain::{Domain, Predicate};

// Comparisons, and for each object the nodes that ask for values, may together be this many.
pub const MOST_VALUES: u32 = 256;

// Whether both are value features, of one kind.
fn are_alike(kinds: &[u32], g: u32, h: u32) -> bool
    ensures { result ≡ (is_value g && (is_value h && kind_at kinds.now g == kind_at kinds.now h)) }
{
    is_value(g) && is_value(h) && kind_at(kinds, g) == kind_at(kinds, h)
}

impl<D: Domain> Sheet<D> {
    // States that two readings are defined and that the predicate of this form and constant, over their kind, holds of their
    // values in this order.
    pub fn compare(
        &mut self,
        form: u32,
        constant: i32,
        left: Reading,
        right: Reading,
    ) -> Result<(), Refusal>
        ensures { Acts self.old self.new (compare_refusal (D.meaning self.old.domain) (view self.old) (compared_by (view self.old) left.feature form constant) left.object left.feature right.object right.feature) (with_statement (view self.old) (compares (compared_by (view self.old) left.feature form constant) left.object left.feature right.object right.feature)) result }
    {
        if !self.are_objects(left.object, right.object) {
            return Err(Refusal::Object);
        }
        if !are_alike(&self.kinds, left.feature, right.feature) {
            return Err(Refusal::Feature);
        }
        let predicate = Predicate::new(kind_at(&self.kinds, left.feature), form, constant);
        // two readings ask for a predicate that fits beside two chains
        fit(&self.domain, predicate, false)?;
        let totals = self.totals();
        if totals.comparisons + 1 + self.objects * totals.valued > MOST_VALUES {
            return Err(Refusal::Values);
        }
        if totals.others >= MOST_OTHERS {
            return Err(Refusal::Others);
        }
        self.push_other(Stored::Compare(predicate, left, right));
        Ok(())
    }
}
