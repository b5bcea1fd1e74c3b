// Counting statements.
ghost use Rattle.std.specs.Prelude.{◌≡◌, ℕ, ◌+◌, ◌*◌, ◌≤◌};
ghost use Rattle.sheet.specs.Showing.{view};
ghost use Rattle.sheet.specs.Totals.{Small, plus, tally, totals_of, weight_of};

use crate::sheet::Sheet;
use crate::statement::Stored;
use crate::totals::Totals;

impl Totals {
    fn add(self, more: Totals) -> Totals
        requires { Small (plus self more) }
        ensures { result ≡ plus self more }
    {
        Totals {
            nodes: self.nodes + more.nodes,
            valued: self.valued + more.valued,
            comparisons: self.comparisons + more.comparisons,
            others: self.others + more.others,
            depth: self.depth.max(more.depth),
        }
    }
}

// What one statement adds.
fn weight(statement: Stored) -> Totals
    ensures { result ≡ weight_of statement }
{
    match statement {
        Stored::Concept(_, _, counts) => Totals {
            nodes: counts.nodes,
            valued: counts.valued,
            depth: counts.depth,
            ..Totals::default()
        },
        Stored::Apart(_, _) | Stored::Link(_, _, _) => Totals {
            others: 1,
            ..Totals::default()
        },
        Stored::Compare(_, _, _) => Totals {
            comparisons: 1,
            others: 1,
            ..Totals::default()
        },
    }
}

pub(crate) fn sum_up(statements: &[Stored]) -> Totals
    requires { Small (tally statements.now) }
    ensures { result ≡ tally statements.now }
{
    let mut totals = Totals::default();
    for statement in statements {
        totals = totals.add(weight(*statement));
    }
    totals
}

impl<D> Sheet<D> {
    // N, V, K, X and R of what is in force. K, and V for each object, are together at most 256.
    pub fn totals(&self) -> Totals
        ensures counted { result ≡ totals_of (view self.now).statements }
        ensures within { result.comparisons + (view self.now).objects * result.valued ≤ 256 }
    {
        sum_up(self.statements.as_slice())
    }
}
