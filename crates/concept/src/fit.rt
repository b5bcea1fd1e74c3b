// The predicates of nodes: which fit beside one chain, and which beside two.
ghost use Rattle.std.specs.Prelude.{◌≡◌, ℕ, IfOk};
ghost use Rattle.std.specs.Result.{result_err};
ghost use Rattle.concept.specs.Tables.{predicate_at, misfit};

use crate::fault::PredicateFault;
use crate::node::Node;
use domain::{Domain, Predicate};

// The predicate of a holds node: its kind is that of the end of u.
pub fn predicate_at(kinds: &[u32], node: Node) -> Predicate
    ensures { result ≡ predicate_at kinds.now node }
{
    Predicate {
        kind: node.u.end_kind(kinds),
        form: node.predicate,
        constant: node.constant,
    }
}

// The complement and the arity of a predicate that fits: the domain knows it, and it stands beside a lone chain with arity 1,
// or beside two chains with another arity.
pub(crate) fn fit_with_arity<D: Domain>(
    domain: &D,
    predicate: Predicate,
    lone: bool,
) -> Result<(Predicate, u32), PredicateFault>
    ensures fault { result_err result ≡ misfit (D.meaning domain.now) predicate lone }
    ensures told { IfOk result (λ p. (p.0 ≡ (D.meaning domain.now).complement predicate) × (p.1 ≡ (D.meaning domain.now).arity predicate)) }
{
    let complement = domain.complement(predicate)?;
    let arity = domain.arity(predicate);
    if (arity == 1) != lone {
        return Err(PredicateFault::Arity(predicate, arity));
    }
    Ok((complement, arity))
}

// The complement of a predicate that fits.
pub fn fit<D: Domain>(
    domain: &D,
    predicate: Predicate,
    lone: bool,
) -> Result<Predicate, PredicateFault>
    ensures fault { result_err result ≡ misfit (D.meaning domain.now) predicate lone }
    ensures told { IfOk result (λ c. c ≡ (D.meaning domain.now).complement predicate) }
{
    let (complement, _) = fit_with_arity(domain, predicate, lone)?;
    Ok(complement)
}
