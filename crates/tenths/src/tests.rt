// Tenths on examples: the lowest choice at each edge, the refusals, and single predicates.
use super::Tenths;
use domain::{Domain, Outcome, Predicate, Refusal, Row};
use std::process::Abort;
use std::test::Fail;

const LOW: i32 = -32_768;

fn form(form: u32, constant: i32) -> Predicate {
    Predicate::new(0, form, constant)
}

fn row(number: u32, constant: i32, first: usize, second: usize) -> Row {
    Row::new(form(number, constant), first, second)
}

// Two variables under three rows: their lowest values, or none, and a third entry of the buffer that stays.
fn choice(rt: &impl Abort, rows: &[Row], expected: Option<(i32, i32)>) -> Result<(), Fail> {
    let mut values = [7; 3];
    let outcome = Tenths.solve(&[0, 0], rows, &mut values);
    match expected {
        Some((x, y)) => {
            assert_eq!(rt; outcome, Ok(Outcome::Solved));
            assert_eq!(rt; values, [x, y, 7]);
            Ok(())
        }
        None => {
            assert_eq!(rt; outcome, Ok(Outcome::Unsolvable));
            assert_eq!(rt; values, [7; 3]);
            Ok(())
        }
    }
}

// One row: x <= c, x > c, x - y <= c, x - y > c, and the same variable twice. The second place of a bound names nothing.
#[test]
fn single_rows(rt: HostRuntime) -> Result<(), Fail> {
    let cases = [
        (row(1, -32_768, 0, 999), Some((LOW, LOW))),
        (row(1, -32_769, 0, 999), None),
        (row(2, 32_766, 0, 999), Some((32_767, LOW))),
        (row(2, 32_767, 0, 999), None),
        (row(1, 65_536, 0, 0), Some((LOW, LOW))),
        (row(2, -65_536, 0, 0), Some((LOW, LOW))),
        (row(3, -65_535, 0, 1), Some((LOW, 32_767))),
        (row(3, -65_536, 0, 1), None),
        (row(4, 65_534, 0, 1), Some((32_767, LOW))),
        (row(4, 65_535, 0, 1), None),
        (row(3, -1, 1, 1), None),
        (row(3, 0, 1, 1), Some((LOW, LOW))),
        (row(4, -1, 1, 1), Some((LOW, LOW))),
        (row(4, 0, 1, 1), None),
    ];
    for (one, expected) in cases {
        choice(&rt, &[one], expected)?;
    }
    Ok(())
}

// Rows that meet: whole numbers between 0 and 1, the edge at -90 and -89, and a chain that needs several rounds.
#[test]
fn joined_rows(rt: HostRuntime) -> Result<(), Fail> {
    let cases = [
        ([row(2, 0, 0, 0), row(4, 0, 1, 0), row(1, 1, 1, 0)], None),
        (
            [row(2, 0, 0, 0), row(4, 0, 1, 0), row(1, 2, 1, 0)],
            Some((1, 2)),
        ),
        (
            [row(1, -90, 0, 0), row(2, -90, 0, 0), row(1, 0, 1, 0)],
            None,
        ),
        (
            [row(1, -89, 0, 0), row(2, -90, 0, 0), row(1, 0, 1, 0)],
            Some((-89, LOW)),
        ),
        (
            [row(4, 4, 0, 1), row(4, -10, 1, 0), row(2, 99, 1, 0)],
            Some((105, 100)),
        ),
        ([row(4, 4, 0, 1), row(4, -5, 1, 0), row(2, 99, 1, 0)], None),
    ];
    for (rows, expected) in cases {
        choice(&rt, &rows, expected)?;
    }
    Ok(())
}

// The refusal comes with its place, and the buffer stays.
fn refused(rt: &impl Abort, kinds: &[u32], rows: &[Row], expected: Refusal) {
    let mut values = [7; 2];
    assert_eq!(rt; Tenths.solve(kinds, rows, &mut values), Err(expected));
    assert_eq!(rt; values, [7; 2]);
}

#[test]
fn refusals(rt: HostRuntime) {
    let free = row(1, 0, 0, 0);
    refused(&rt, &[0], &[free; 257], Refusal::TooMany);
    refused(&rt, &[0; 513], &[free], Refusal::TooMany);
    refused(&rt, &[0, 1], &[free], Refusal::UnknownKind(1));
    refused(&rt, &[0, 0, 0], &[free], Refusal::ShortBuffer);
    let unfit = [
        row(1, 65_537, 0, 0),
        row(2, -65_537, 0, 0),
        row(5, 0, 0, 0),
        row(1, 0, 2, 0),
        row(3, 0, 0, 2),
    ];
    for bad in unfit {
        refused(&rt, &[0, 0], &[free, bad], Refusal::UnfitRow(1));
    }
}

// Arity, test and complement at the edges of the constants and of the values.
#[test]
fn predicates(rt: HostRuntime) {
    assert_eq!(rt;
        [
            Tenths.arity(form(1, 65_536)),
            Tenths.arity(form(4, -65_536)),
            Tenths.arity(form(1, 65_537)),
        ],
        [1, 2, 0]
    );
    assert_eq!(rt;
        [
            Tenths.test(form(1, -90), -90, 0),
            Tenths.test(form(2, -90), -90, 0),
        ],
        [true, false]
    );
    assert_eq!(rt;
        [
            Tenths.test(form(3, -5), 5, 10),
            Tenths.test(form(4, -5), 5, 10),
        ],
        [true, false]
    );
    assert_eq!(rt;
        [
            Tenths.test(form(1, 40_000), 32_767, 0),
            Tenths.test(form(1, 40_000), 32_768, 0),
        ],
        [true, false]
    );
    assert_eq!(rt; Tenths.complement(form(3, 12)), Ok(form(4, 12)));
    assert_eq!(rt;
        Tenths.complement(form(0, 12)),
        Err(Refusal::Unknown(form(0, 12)))
    );
}
