// Which nodes are not broken: their form, and the fields that it uses, are in range.
ghost use Rattle.std.specs.Prelude.{◌≡◌, ℕ, ◌&&◌, ◌||◌, ◌==◌, nat_lt};
ghost use Rattle.concept.specs.Concepts.{end_kind};
ghost use Rattle.concept.specs.Chains.{steps, no_chain, to_value};
ghost use Rattle.concept.specs.Tables.{whole};

use crate::features::{is_feature, is_name, is_relation};
use crate::node::{Chain, Node};

// A place that a node may name: a lower one than its own.
fn is_lower(child: u32, place: usize) -> bool
    ensures { result ≡ nat_lt child place }
{
    (child as usize) < place
}

// One chain to a value, or two to values of one kind.
fn leads_to_like_values(kinds: &[u32], u: Chain, v: Chain) -> bool
    ensures { result ≡ (to_value u && (no_chain v || (to_value v && end_kind kinds.now (steps u) == end_kind kinds.now (steps v)))) }
{
    u.leads_to_value()
        && (v.is_empty() || (v.leads_to_value() && u.end_kind(kinds) == v.end_kind(kinds)))
}

// The node at this place is not broken.
pub(crate) fn is_whole(kinds: &[u32], place: usize, node: Node) -> bool
    ensures { result ≡ whole kinds.now place node }
{
    match node.form {
        1 => is_name(node.name),
        2 => is_lower(node.left, place),
        3 | 4 => is_lower(node.left, place) && is_lower(node.right, place),
        5 | 6 => is_relation(node.relation) && is_lower(node.left, place),
        7 | 8 => is_feature(node.relation),
        9 => leads_to_like_values(kinds, node.u, node.v),
        10 | 11 => node.u.leads_to_thing() && node.v.leads_to_thing(),
        _ => false,
    }
}
