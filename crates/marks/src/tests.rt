// Problems with known answers, and every refusal.
use crate::Marks;
use arrayvec::ArrayVec;
use domain::{Domain, Outcome, Predicate, Row};
use std::process::Abort;
use std::test::Fail;

fn row(form: u32, constant: i32, first: usize, second: usize) -> Row {
    Row::new(Predicate::new(0, form, constant), first, second)
}

// Rows that make every two of the first variables different, as many as there is room for.
fn all_different(count: usize) -> ArrayVec<Row, 136> {
    let mut rows = ArrayVec::new();
    for v in 0..count {
        for w in 0..v {
            let _ = rows.try_push(row(4, 0, w, v));
        }
    }
    rows
}

// What `solve` answers for three variables.
fn answers(rt: &impl Abort, rows: &[Row], expected: Outcome) -> Result<(), Fail> {
    let mut values = [0; 3];
    assert_eq!(rt; Marks.solve(&[0, 0, 0], rows, &mut values)?, expected);
    Ok(())
}

// The number and the place of a refusal, which leaves the buffer as it was.
fn refuses(
    rt: &impl Abort,
    kinds: &[u32],
    rows: &[Row],
    room: usize,
    number: u32,
    place: usize,
) -> Result<(), Fail> {
    let mut values = [7; 4];
    assert!(rt; room <= 4);
    let refusal = Marks
        .solve(kinds, rows, &mut values[0..room])
        .err()
        .ok_or("not refused")?;
    assert_eq!(rt; refusal.number(), number);
    assert_eq!(rt; refusal.place(), place);
    assert_eq!(rt; values, [7; 4]);
    Ok(())
}

#[test]
fn sixteen_differ_and_seventeen_do_not(rt: HostRuntime) -> Result<(), Fail> {
    let mut values = [0; 17];
    assert_eq!(rt;
        Marks.solve(&[0; 16], &all_different(16), &mut values)?,
        Outcome::Solved
    );
    assert_eq!(rt;
        Marks.solve(&[0; 17], &all_different(17), &mut values)?,
        Outcome::Unsolvable
    );
    Ok(())
}

#[test]
fn small_problems(rt: HostRuntime) -> Result<(), Fail> {
    answers(&rt, &[row(1, 0, 2, 9)], Outcome::Unsolvable)?;
    answers(&rt, &[row(2, 65_535, 0, 9)], Outcome::Unsolvable)?;
    answers(
        &rt,
        &[row(1, 65_535, 0, 9), row(2, 0, 0, 9)],
        Outcome::Solved,
    )?;
    answers(&rt, &[row(3, 0, 1, 1)], Outcome::Solved)?;
    answers(&rt, &[row(4, 0, 1, 1)], Outcome::Unsolvable)?;
    answers(
        &rt,
        &[row(3, 0, 0, 1), row(3, 0, 2, 1), row(4, 0, 0, 2)],
        Outcome::Unsolvable,
    )?;
    answers(
        &rt,
        &[
            row(1, 6, 0, 9),
            row(1, 12, 1, 9),
            row(3, 0, 0, 1),
            row(4, 0, 1, 2),
        ],
        Outcome::Solved,
    )
}

#[test]
fn refusals(rt: HostRuntime) -> Result<(), Fail> {
    refuses(&rt, &[0; 513], &[], 4, 17, 0)?;
    refuses(&rt, &[0, 0, 1], &[], 4, 18, 2)?;
    refuses(&rt, &[0, 0], &[row(3, 0, 0, 1), row(4, 0, 0, 2)], 4, 19, 1)?;
    refuses(&rt, &[0, 0], &[row(3, 1, 0, 1)], 4, 19, 0)?;
    refuses(&rt, &[0, 0, 0], &[], 2, 20, 0)
}
