// The table check.
ghost use Rattle.std.specs.Prelude.{◌≡◌, ℕ, IfOk};
ghost use Rattle.std.specs.Result.{result_err};
ghost use Rattle.concept.specs.Tables.{length_fits, node_fault, table_fault};
ghost use Rattle.concept.specs.Checking.{Passes};
ghost use Rattle.concept.specs.Translating.{term_of};

use crate::checked::Checked;
use crate::fault::TableFault;
use crate::node::Node;
use crate::term::Term;
use crate::translate::term_of;
use crate::whole::is_whole;
use domain::Domain;

// A table has 1 to this many nodes.
pub const MOST_TERMS: usize = 64;

fn length_fits(len: usize) -> bool
    ensures { result ≡ length_fits len }
{
    1 <= len && len <= MOST_TERMS
}

// The term of the node at this place. A broken node is refused before an unfit predicate. The domain and the kinds stay two
// parameters, here and in what is called: behind a struct's fields every clause would be longer.
fn check_node<D: Domain>(
    domain: &D,
    kinds: &[u32],
    place: usize,
    node: Node,
) -> Result<Term, TableFault>
    ensures fault { result_err result ≡ node_fault (D.meaning domain.now) kinds.now place node }
    ensures told { IfOk result (λ t. t ≡ term_of (D.meaning domain.now) kinds.now node) }
{
    if !is_whole(kinds, place, node) {
        return Err(TableFault::Broken(place));
    }
    term_of(domain, kinds, node).map_err(|fault| TableFault::Unfit(place, fault))
}

// Checks a table of nodes over a domain, where `kinds` are the kinds of the value features from 128 on. The first fault is
// told: the length of the table, then node by node from place 0.
pub fn check<D: Domain>(domain: &D, kinds: &[u32], table: &[Node]) -> Result<Checked, TableFault>
    ensures fault { result_err result ≡ table_fault (D.meaning domain.now) kinds.now table.now }
    ensures passed { IfOk result (Passes (D.meaning domain.now) kinds.now table.now) }
{
    if !length_fits(table.len()) {
        return Err(TableFault::Length);
    }
    let mut terms = [Term::Atom(0); MOST_TERMS];
    for (place, node) in table.iter().enumerate() {
        terms[place] = check_node(domain, kinds, place, *node)?;
    }
    Ok(Checked {
        terms,
        len: table.len(),
    })
}
