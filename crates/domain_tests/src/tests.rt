// Pairs on examples: both sides in one list, a pair in a pair, and the refusals of a pair's own lists.
use domain::{Domain, Outcome, Predicate, Refusal, Row};
use marks::Marks;
use pair::Pair;
use std::process::Abort;
use tenths::Tenths;

fn row(kind: u32, form: u32, constant: i32, first: usize, second: usize) -> Row {
    Row::new(Predicate::new(kind, form, constant), first, second)
}

// A reading in tenths and a mark, interleaved with one more of each: the values, or that there are none.
fn both(rt: &impl Abort, rows: &[Row], expected: Option<[i32; 4]>) {
    let mut values = [7; 5];
    let mut domain = Pair::new(Tenths, Marks);
    let outcome = domain.solve(&[0, 1, 0, 1], rows, &mut values);
    let (answer, after) = match expected {
        Some(found) => (Outcome::Solved, [found[0], found[1], found[2], found[3], 7]),
        None => (Outcome::Unsolvable, [7; 5]),
    };
    assert_eq!(rt; outcome, Ok(answer));
    assert_eq!(rt; values, after);
}

// Tenths between -90 and -89 and one apart from each other; marks from {5} and {5, 6} that differ, or the same mark.
#[test]
fn either_side_decides(rt: HostRuntime) {
    let cold = row(0, 1, -90, 0, 99);
    let not_colder = row(0, 2, -91, 0, 99);
    let warmer = row(0, 4, 0, 2, 0);
    let not_warm = row(0, 1, -89, 2, 0);
    let five = row(1, 1, 32, 1, 0);
    let five_or_six = row(1, 1, 96, 3, 0);
    let differ = row(1, 4, 0, 3, 1);
    both(
        &rt,
        &[
            cold,
            five,
            not_colder,
            five_or_six,
            warmer,
            differ,
            not_warm,
        ],
        Some([-90, 5, -89, 6]),
    );
    let unlike = row(1, 4, 0, 1, 1);
    both(&rt, &[cold, five, not_colder, unlike], None);
    let colder = row(0, 1, -91, 0, 0);
    both(&rt, &[colder, five, not_colder, five_or_six], None);
}

// Tenths beside a pair of marks and tenths: kinds 0, 1 and 3.
#[test]
fn a_pair_in_a_pair(rt: HostRuntime) {
    let mut domain = Pair::new(Tenths, Pair::new(Marks, Tenths));
    let mut values = [7; 4];
    let rows = [
        row(3, 1, 12, 2, 0),
        row(0, 2, 39, 0, 0),
        row(3, 2, 11, 2, 0),
        row(1, 1, 256, 1, 0),
        row(0, 1, 40, 0, 0),
    ];
    let outcome = domain.solve(&[0, 1, 3], &rows, &mut values);
    assert_eq!(rt; outcome, Ok(Outcome::Solved));
    assert_eq!(rt; values, [40, 8, 12, 7]);
    let predicates = [
        Predicate::new(3, 4, 0),
        Predicate::new(1, 3, 0),
        Predicate::new(5, 1, 0),
    ];
    assert_eq!(rt;
        predicates.map(|predicate| domain.arity(predicate)),
        [2, 2, 0]
    );
}

fn refused(rt: &impl Abort, kinds: &[u32], rows: &[Row], expected: Refusal) {
    let mut values = [7; 3];
    let mut domain = Pair::new(Tenths, Marks);
    assert_eq!(rt; domain.solve(kinds, rows, &mut values), Err(expected));
    assert_eq!(rt; values, [7; 3]);
}

// A row over both sides is refused, and so are kinds that neither side knows.
#[test]
fn refusals_of_a_pair(rt: HostRuntime) {
    let tenths = row(0, 1, 0, 0, 0);
    let marks = row(1, 1, 1, 1, 0);
    refused(&rt, &[0, 1], &[tenths; 257], Refusal::TooMany);
    refused(&rt, &[0; 513], &[tenths], Refusal::TooMany);
    for unknown in [2, 3, 2_147_483_647, 4_294_967_294, 4_294_967_295] {
        refused(
            &rt,
            &[0, 1, unknown],
            &[tenths, marks],
            Refusal::UnknownKind(2),
        );
    }
    let across = [
        row(0, 3, 0, 0, 1),
        row(1, 3, 0, 1, 0),
        row(1, 1, 1, 0, 0),
        row(1, 3, 1, 1, 1),
        row(2, 1, 0, 0, 0),
        row(0, 1, 0, 2, 0),
    ];
    for bad in across {
        refused(&rt, &[0, 1], &[tenths, marks, bad], Refusal::UnfitRow(2));
    }
    refused(&rt, &[0, 1, 0, 1], &[tenths, marks], Refusal::ShortBuffer);
}
