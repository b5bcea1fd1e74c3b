// The nodes of a concept table as they are handed in.

// Up to three features, followed one after the other. 0 ends a chain.
#[derive(Clone, Copy, PartialEq, Eq, Debug)]
pub struct Chain {
    pub first: u32,
    pub second: u32,
    pub third: u32,
}

// One node of a concept table. Its form says which of the other fields it uses:
// 1 name; 2 not left; 3 left and right; 4 left or right; 5 some and 6 all, of the relation's neighbours in left; 7 has and
// 8 lacks, of the feature in the relation field; 9 holds, the predicate of what u and v lead to; 10 meets and 11 parts, of
// what u and v lead to. Left and right are places in the table.
#[derive(Clone, Copy, PartialEq, Eq, Debug)]
pub struct Node {
    pub form: u32,
    pub name: u32,
    pub left: u32,
    pub right: u32,
    pub relation: u32,
    pub u: Chain,
    pub v: Chain,
    pub predicate: u32,
    pub constant: i32,
}
