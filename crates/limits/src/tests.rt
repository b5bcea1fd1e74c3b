// Lists as a technician might write them: where a fault is found, and what is answered.
use limit_list::{Trouble, Unanswered, answer, read_list};
use std::alloc::Global;
use std::process::Abort;
use std::test::Fail;
use tenths::Tenths;

fn fault_at(
    rt: &impl Abort,
    heap: Global,
    text: &[u8],
    line: usize,
    column: usize,
) -> Result<(), Fail> {
    match read_list(heap, text) {
        Err(Trouble::Misread(fault)) => {
            assert!(rt; fault.line == line && fault.column == column);
            Ok(())
        },
        _ => Err(Fail::new("no fault")),
    }
}

#[test]
fn faults_are_placed(rt: HostRuntime) -> Result<(), Fail> {
    let heap = rt.alloc();
    fault_at(&rt, heap, b"9a > 1", 1, 1)?;
    fault_at(&rt, heap, b"supply = 3", 1, 8)?;
    fault_at(&rt, heap, b"supply -90", 1, 9)?;
    fault_at(&rt, heap, b"supply < 65537\nsupply <= 65537", 2, 11)?;
    fault_at(&rt, heap, b"\n# note\nsupply <= -90 C", 3, 15)?;
    fault_at(&rt, heap, b"return - supply", 1, 16)
}

// Whether there are values for the readings of a list, or the number with which the list is refused.
fn outcome(heap: Global, text: &[u8]) -> Result<Result<bool, u32>, Fail> {
    let Ok(list) = read_list(heap, text) else {
        return Err(Fail::new("a fault"));
    };
    match answer(heap, &mut Tenths, &list) {
        Ok(values) => Ok(Ok(values.is_some())),
        Err(Unanswered::Refused(refusal)) => Ok(Err(refusal.number())),
        Err(Unanswered::Memory) => Err(Fail::new("not enough memory")),
    }
}

#[test]
fn answers_are_given(rt: HostRuntime) -> Result<(), Fail> {
    let heap = rt.alloc();
    assert_eq!(rt; outcome(heap, b"a - b > 0\nb >= -5\na < -3")?, Ok(true));
    assert_eq!(rt; outcome(heap, b"a - b > 0\nb >= -5\na < -4")?, Ok(false));
    let mut long = Vec::new(heap);
    for _ in 0..256 {
        long.extend_from_slice(b"a > 0\n")?;
    }
    assert_eq!(rt; outcome(heap, long.as_slice())?, Ok(true));
    long.extend_from_slice(b"a > 0\n")?;
    assert_eq!(rt; outcome(heap, long.as_slice())?, Err(17));
    Ok(())
}
