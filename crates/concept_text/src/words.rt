// Faults and normal forms in words.
use crate::fault::Expected;
use concept::node::Chain;
use concept::normal::Normal;
use domain::Predicate;
use std::fmt;

impl fmt::Display for Expected {
    fn fmt<W: fmt::Write>(&self, f: &mut fmt::Formatter<W>) -> fmt::Result {
        match self {
            Expected::Start => write!(f, "a place, plant, named, link, value or role"),
            Expected::Form => write!(
                f,
                "name, not, and, or, some, all, has, lacks, holds, meets or parts"
            ),
            Expected::Comparison => write!(f, "<=, > or form"),
            Expected::Sign(byte) => write!(f, "{}", *byte as char),
            Expected::Number(low, high) => write!(f, "a whole number from {low} to {high}"),
            Expected::Constant(low, high) => write!(f, "a whole number from {low} to {high}"),
            Expected::Plant => write!(f, "a line above that says how many things the plant has"),
            Expected::EndOfLine => write!(f, "the end of the line"),
        }
    }
}

// A chain as it is written.
#[derive(Clone, Copy)]
struct Steps(Chain);

impl fmt::Display for Steps {
    fn fmt<W: fmt::Write>(&self, f: &mut fmt::Formatter<W>) -> fmt::Result {
        let Chain {
            first,
            second,
            third,
        } = self.0;
        match (second, third) {
            (0, _) => write!(f, "{first}"),
            (_, 0) => write!(f, "{first} {second}"),
            _ => write!(f, "{first} {second} {third}"),
        }
    }
}

fn write_holds<W: fmt::Write>(
    predicate: Predicate,
    u: Chain,
    v: Chain,
    f: &mut fmt::Formatter<W>,
) -> fmt::Result {
    let Predicate { form, constant, .. } = predicate;
    let first = Steps(u);
    let second = Steps(v);
    match form {
        1 => write!(f, "holds {first} <= {constant}"),
        2 => write!(f, "holds {first} > {constant}"),
        3 => write!(f, "holds {first} | {second} <= {constant}"),
        4 => write!(f, "holds {first} | {second} > {constant}"),
        _ => write!(f, "holds {first} | {second} form {form} {constant}"),
    }
}

// A node of a normal form, as a node of a table is written; a negated name is `not name`.
#[derive(Clone, Copy)]
pub struct Written(pub Normal);

impl fmt::Display for Written {
    fn fmt<W: fmt::Write>(&self, f: &mut fmt::Formatter<W>) -> fmt::Result {
        match self.0 {
            Normal::Atom(name) => write!(f, "name {name}"),
            Normal::NotAtom(name) => write!(f, "not name {name}"),
            Normal::And(left, right) => write!(f, "and {left} {right}"),
            Normal::Or(left, right) => write!(f, "or {left} {right}"),
            Normal::Exists(relation, child) => write!(f, "some {relation} {child}"),
            Normal::Forall(relation, child) => write!(f, "all {relation} {child}"),
            Normal::Has(feature) => write!(f, "has {feature}"),
            Normal::Lacks(feature) => write!(f, "lacks {feature}"),
            Normal::Holds(predicate, u, v) => write_holds(predicate, u, v, f),
            Normal::Meets(u, v) => write!(f, "meets {} | {}", Steps(u), Steps(v)),
            Normal::Parts(u, v) => write!(f, "parts {} | {}", Steps(u), Steps(v)),
        }
    }
}
