// The terms of nodes that are not broken. A predicate is looked up in the domain here, with its complement.
ghost use Rattle.std.specs.Prelude.{◌≡◌, ℕ, IfOk};
ghost use Rattle.std.specs.Result.{result_err};
ghost use Rattle.concept.specs.Tables.{predicate_at, misfit, unfit};
ghost use Rattle.concept.specs.Concepts.{is_empty};
ghost use Rattle.concept.specs.Chains.{steps};
ghost use Rattle.concept.specs.Translating.{constraint_of, term_of};

use crate::fault::PredicateFault;
use crate::fit::{fit_with_arity, predicate_at};
use crate::node::Node;
use crate::term::{Constraint, Term};
use domain::Domain;

// The predicate of a holds node with its complement and its arity, where it fits beside the chains.
fn constraint_of<D: Domain>(
    domain: &D,
    kinds: &[u32],
    node: Node,
) -> Result<Constraint, PredicateFault>
    ensures fits { result_err result ≡ misfit (D.meaning domain.now) (predicate_at kinds.now node) (is_empty (steps node.v)) }
    ensures told { IfOk result (λ k. k ≡ constraint_of (D.meaning domain.now) kinds.now node) }
{
    let predicate = predicate_at(kinds, node);
    let (complement, arity) = fit_with_arity(domain, predicate, node.v.first == 0)?;
    Ok(Constraint {
        predicate,
        complement,
        arity,
        u: node.u,
        v: node.v,
    })
}

// The term of a node that is not broken.
pub(crate) fn term_of<D: Domain>(
    domain: &D,
    kinds: &[u32],
    node: Node,
) -> Result<Term, PredicateFault>
    ensures fits { result_err result ≡ unfit (D.meaning domain.now) kinds.now node }
    ensures told { IfOk result (λ t. t ≡ term_of (D.meaning domain.now) kinds.now node) }
{
    match node.form {
        1 => Ok(Term::Atom(node.name)),
        2 => Ok(Term::Not(node.left)),
        3 => Ok(Term::And(node.left, node.right)),
        4 => Ok(Term::Or(node.left, node.right)),
        5 => Ok(Term::Exists(node.relation, node.left)),
        6 => Ok(Term::Forall(node.relation, node.left)),
        7 => Ok(Term::Has(node.relation)),
        8 => Ok(Term::Lacks(node.relation)),
        9 => Ok(Term::Holds(constraint_of(domain, kinds, node)?)),
        10 => Ok(Term::Meets(node.u, node.v)),
        _ => Ok(Term::Parts(node.u, node.v)),
    }
}
