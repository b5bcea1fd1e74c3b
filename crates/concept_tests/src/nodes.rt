// Nodes of each form in short. The fields that a form does not use hold numbers that no form could use.
use concept::node::{Chain, Node};

const OUT: u32 = 4_294_967_295;

const ODD: Chain = Chain {
    first: 0,
    second: OUT,
    third: 0,
};

const UNUSED: Node = Node {
    form: 0,
    name: OUT,
    left: OUT,
    right: OUT,
    relation: OUT,
    u: ODD,
    v: ODD,
    predicate: OUT,
    constant: -2_147_483_648,
};

pub fn form(form: u32) -> Node {
    Node { form, ..UNUSED }
}

pub fn name(name: u32) -> Node {
    Node {
        form: 1,
        name,
        ..UNUSED
    }
}

pub fn not(left: u32) -> Node {
    Node {
        form: 2,
        left,
        ..UNUSED
    }
}

// Forms 3 and 4.
pub fn join(form: u32, left: u32, right: u32) -> Node {
    Node {
        form,
        left,
        right,
        ..UNUSED
    }
}

// Forms 5 and 6.
pub fn over(form: u32, relation: u32, left: u32) -> Node {
    Node {
        form,
        relation,
        left,
        ..UNUSED
    }
}

// Forms 7 and 8.
pub fn feature(form: u32, relation: u32) -> Node {
    Node {
        form,
        relation,
        ..UNUSED
    }
}

pub fn holds(u: Chain, v: Chain, predicate: u32, constant: i32) -> Node {
    Node {
        form: 9,
        u,
        v,
        predicate,
        constant,
        ..UNUSED
    }
}

// Forms 10 and 11.
pub fn chains(form: u32, u: Chain, v: Chain) -> Node {
    Node {
        form,
        u,
        v,
        ..UNUSED
    }
}

pub fn chain(first: u32, second: u32, third: u32) -> Chain {
    Chain {
        first,
        second,
        third,
    }
}
