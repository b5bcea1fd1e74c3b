// Every refusal with its place, the fields that are ignored, chains of each length, and tables that share their nodes.
use crate::nodes::{chain, chains, feature, form, holds, join, name, not, over};
use concept::check::check;
use concept::count::Counts;
use concept::fault::{PredicateFault, TableFault};
use concept::node::Node;
use concept::term::Sign;
use domain::{Predicate, Refusal};
use std::alloc::{AllocError, Global};
use std::test::Fail;
use tenths::Tenths;

const MOST: u32 = 4_294_967_295;

// The counts of a table and of its negation, or its refusal.
fn counts_of(table: &[Node]) -> Result<(Counts, Counts), TableFault> {
    let checked = check(&Tenths, &[0; 128], table)?;
    Ok((checked.count(Sign::Plain), checked.count(Sign::Negated)))
}

// The number and the place of a table's refusal, if it is refused.
fn refusal_of(table: &[Node]) -> Option<(u32, usize)> {
    let fault = counts_of(table).err()?;
    Some((fault.number(), fault.place()))
}

fn counts(nodes: u32, valued: u32, depth: u32) -> Counts {
    Counts {
        nodes,
        valued,
        depth,
    }
}

// A table of this many nodes, each of this form over the one below it, from a bottom node up.
fn tower(heap: Global, bottom: Node, form: u32, len: u32) -> Result<Vec<Node>, AllocError> {
    let mut table = Vec::new(heap);
    table.push(bottom)?;
    for place in 1..len {
        let below = place - 1;
        let node = match form {
            3 | 4 => join(form, below, below),
            _ => over(form, 256, below),
        };
        table.push(node)?;
    }
    Ok(table)
}

// Above the name 1 at place 0 each of these nodes is broken.
#[test]
fn broken_nodes(rt: HostRuntime) {
    let value = chain(128, 0, 0);
    let link = chain(1, 0, 0);
    let none = chain(0, 0, 0);
    let broken = [
        form(0),
        form(12),
        name(0),
        name(256),
        not(1),
        join(3, 1, 0),
        join(4, 0, 1),
        over(5, 0, 0),
        over(5, 128, 0),
        over(6, 255, 0),
        over(6, 512, 0),
        over(6, 256, 1),
        feature(7, 0),
        feature(8, 256),
        holds(none, none, 1, 0),
        holds(link, none, 1, 0),
        holds(chain(1, 0, 128), none, 1, 0),
        holds(chain(128, 128, 0), none, 1, 0),
        holds(chain(1, 256, 128), none, 1, 0),
        holds(value, chain(0, 128, 0), 3, 0),
        holds(value, link, 3, 0),
        chains(10, none, link),
        chains(10, link, none),
        chains(10, link, value),
        chains(11, chain(1, 0, 5), link),
        chains(11, chain(1, 2, 128), link),
        chains(11, link, chain(0, 0, 1)),
    ];
    for node in broken {
        assert_eq!(rt; refusal_of(&[name(1), node]), Some((6, 1)));
    }
}

// Unknown predicates, and arities that ask for other chains.
#[test]
fn unfit_predicates(rt: HostRuntime) {
    let value = chain(128, 0, 0);
    let none = chain(0, 0, 0);
    let cases = [
        (none, 0, 0, 0),
        (none, 5, 0, 0),
        (none, 1, 65_537, 0),
        (none, 2, -65_537, 0),
        (value, 3, 65_537, 0),
        (value, 1, 0, 1),
        (value, 2, 65_536, 1),
        (none, 3, 0, 2),
        (none, 4, -65_536, 2),
    ];
    for (v, form, constant, arity) in cases {
        let predicate = Predicate {
            kind: 0,
            form,
            constant,
        };
        let fault = match arity {
            0 => PredicateFault::Unknown(Refusal::Unknown(predicate)),
            _ => PredicateFault::Arity(predicate, arity),
        };
        let found = counts_of(&[name(1), holds(value, v, form, constant)]);
        assert_eq!(rt; found, Err(TableFault::Unfit(1, fault)));
    }
}

// The length comes first, then node by node, each first for a broken field; nodes that the root does not reach count too.
#[test]
fn first_refusal(rt: HostRuntime) -> Result<(), Fail> {
    let unfit = holds(chain(128, 0, 0), chain(0, 0, 0), 9, 0);
    let both = holds(chain(1, 0, 0), chain(0, 0, 0), 9, 0);
    assert_eq!(rt; refusal_of(&[]), Some((5, 0)));
    assert_eq!(rt; refusal_of(&[name(0)]), Some((6, 0)));
    assert_eq!(rt; refusal_of(&[not(0)]), Some((6, 0)));
    assert_eq!(rt; refusal_of(&[unfit, name(0)]), Some((7, 0)));
    assert_eq!(rt; refusal_of(&[name(1), name(0), unfit]), Some((6, 1)));
    assert_eq!(rt; refusal_of(&[both, name(1)]), Some((6, 0)));
    let longest = tower(rt.alloc(), name(0), 3, 65)?;
    assert_eq!(rt; refusal_of(longest.as_slice()), Some((5, 0)));
    let long = tower(rt.alloc(), name(0), 3, 64)?;
    assert_eq!(rt; refusal_of(long.as_slice()), Some((6, 0)));
    Ok(())
}

// One node over "has 128" at place 0, with the counts of its normal form and of that of its negation.
#[test]
fn counts_by_form(rt: HostRuntime) {
    let value = chain(255, 0, 0);
    let far = chain(1, 128, 0);
    let farther = chain(127, 2, 128);
    let link = chain(1, 0, 0);
    let links = chain(1, 2, 0);
    let most_links = chain(3, 2, 1);
    let none = chain(0, 0, 0);
    let cases = [
        (name(1), counts(1, 0, 0), counts(1, 0, 0)),
        (name(255), counts(1, 0, 0), counts(1, 0, 0)),
        (not(0), counts(1, 0, 0), counts(1, 1, 0)),
        (join(3, 0, 0), counts(3, 2, 0), counts(3, 0, 0)),
        (join(4, 0, 0), counts(3, 2, 0), counts(3, 0, 0)),
        (over(5, 127, 0), counts(2, 1, 0), counts(2, 0, 0)),
        (over(6, 1, 0), counts(2, 1, 0), counts(2, 0, 0)),
        (over(5, 256, 0), counts(2, 1, 1), counts(2, 0, 1)),
        (over(6, 511, 0), counts(2, 1, 1), counts(2, 0, 1)),
        (feature(7, 1), counts(1, 1, 0), counts(1, 0, 0)),
        (feature(8, 255), counts(1, 0, 0), counts(1, 1, 0)),
        (
            holds(value, none, 1, 65_536),
            counts(1, 1, 0),
            counts(3, 1, 0),
        ),
        (holds(far, none, 2, -90), counts(1, 1, 0), counts(4, 1, 0)),
        (
            holds(farther, none, 1, -65_536),
            counts(1, 1, 0),
            counts(5, 1, 0),
        ),
        (holds(value, value, 3, 0), counts(1, 1, 0), counts(5, 1, 0)),
        (holds(far, value, 4, 0), counts(1, 1, 0), counts(6, 1, 0)),
        (
            holds(farther, farther, 3, 0),
            counts(1, 1, 0),
            counts(9, 1, 0),
        ),
        (chains(10, link, link), counts(1, 0, 0), counts(5, 0, 0)),
        (chains(10, links, link), counts(1, 0, 0), counts(6, 0, 0)),
        (
            chains(11, link, most_links),
            counts(1, 0, 0),
            counts(7, 0, 0),
        ),
        (
            chains(11, most_links, most_links),
            counts(1, 0, 0),
            counts(9, 0, 0),
        ),
    ];
    for (node, plain, negated) in cases {
        assert_eq!(rt; counts_of(&[feature(7, 128), node]), Ok((plain, negated)));
    }
}

// Towers of nodes that name the one below twice: place i has 2^(i+1) - 1 nodes, 2^i of them at the bottom.
#[test]
fn shared_nodes(rt: HostRuntime) -> Result<(), Fail> {
    let cases = [
        (31, 2_147_483_647, 1_073_741_824),
        (32, MOST, 2_147_483_648),
        (33, MOST, MOST),
        (64, MOST, MOST),
    ];
    for (len, nodes, valued) in cases {
        let table = tower(rt.alloc(), feature(7, 128), 3, len)?;
        let expected = (counts(nodes, valued, 0), counts(nodes, 0, 0));
        assert_eq!(rt; counts_of(table.as_slice()), Ok(expected));
    }
    let deep = tower(rt.alloc(), name(1), 5, 64)?;
    let expected = (counts(64, 0, 63), counts(64, 0, 63));
    assert_eq!(rt; counts_of(deep.as_slice()), Ok(expected));
    Ok(())
}
