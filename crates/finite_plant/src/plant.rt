// Plants written out as data.

// The thing has the name.
#[derive(Clone, Copy, PartialEq, Eq)]
pub struct Named {
    pub name: u32,
    pub thing: u32,
}

// The link feature leads from one thing to another.
#[derive(Clone, Copy)]
pub struct Link {
    pub feature: u32,
    pub from: u32,
    pub to: u32,
}

// The thing has the value at the value feature.
#[derive(Clone, Copy)]
pub struct Reading {
    pub feature: u32,
    pub thing: u32,
    pub value: i32,
}

// The role joins one thing to another.
#[derive(Clone, Copy, PartialEq, Eq)]
pub struct Pair {
    pub role: u32,
    pub from: u32,
    pub to: u32,
}

// A plant whose things are the numbers below `count`. Where several links or values are given for one thing and feature, the
// first stands.
#[derive(Drop)]
pub struct FinitePlant {
    pub count: u32,
    pub names: Vec<Named>,
    pub links: Vec<Link>,
    pub readings: Vec<Reading>,
    pub pairs: Vec<Pair>,
}
