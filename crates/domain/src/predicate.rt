// The words that a concrete domain is addressed in: predicates, rows, and what a kind is known by.
ghost use Rattle.std.specs.Prelude.{◌≡◌};

// A predicate over the values of one kind: which one, by its form and its constant.
#[derive(Clone, Copy, PartialEq, Eq, Debug, Default)]
pub struct Predicate {
    pub kind: u32,
    pub form: u32,
    pub constant: i32,
}

impl Predicate {
    pub fn new(kind: u32, form: u32, constant: i32) -> Predicate
        ensures kind { result.kind ≡ kind }
        ensures form { result.form ≡ form }
        ensures constant { result.constant ≡ constant }
    {
        Predicate {
            kind,
            form,
            constant,
        }
    }
}

// A constraint on a list of variables: the predicate, and the places of its one or two variables in that list.
// At arity 1 the second place names nothing.
#[derive(Clone, Copy, PartialEq, Eq, Debug, Default)]
pub struct Row {
    pub predicate: Predicate,
    pub first: usize,
    pub second: usize,
}

impl Row {
    pub fn new(predicate: Predicate, first: usize, second: usize) -> Row
        ensures predicate { result.predicate ≡ predicate }
        ensures first { result.first ≡ first }
        ensures second { result.second ≡ second }
    {
        Row {
            predicate,
            first,
            second,
        }
    }
}

// What is told of a kind: one of its values, and a number that none of them exceeds.
#[derive(Clone, Copy, PartialEq, Eq, Debug)]
pub struct Sample {
    pub value: i32,
    pub top: i32,
}

// What `solve` answers when it does not refuse.
#[derive(Clone, Copy, PartialEq, Eq, Debug)]
pub enum Outcome {
    Unsolvable,
    Solved,
}
