//! What a user sees: age order, classes that are passed over, and rows whose cycles come.

use crate::{Agenda, ReadyRows};
use std::test::Fail;

#[test]
fn the_oldest_row_of_a_class_that_is_not_passed_over_comes_first(
    rt: HostRuntime,
) -> Result<(), Fail> {
    let mut ready = ReadyRows::make(rt.alloc())?;
    assert_eq!(rt; ready.next(0, 64, 4160), 4160);
    for (class, k) in [(3, 4100), (1, 130), (3, 70), (63, 4095)] {
        ready.insert(class, k);
    }
    assert_eq!(rt; ready.next(0, 64, 4160), 70);
    assert_eq!(rt; ready.next(0, 70, 71), 70);
    assert_eq!(rt; ready.next(0, 71, 4160), 130);
    assert_eq!(rt; ready.next(0, 71, 130), 130, "the end");
    assert_eq!(rt; ready.next(1 << 3, 64, 4160), 130);
    assert_eq!(rt; ready.next(1 << 3 | 1 << 1, 64, 4160), 4095);
    assert_eq!(rt; ready.next(1 << 63, 131, 4160), 4100, "the place of row 4");
    ready.remove(3, 70);
    assert_eq!(rt; ready.next(0, 64, 4160), 130);
    Ok(())
}

#[test]
fn rows_are_taken_once_their_cycles_come(rt: HostRuntime) -> Result<(), Fail> {
    let mut agenda = Agenda::make(rt.alloc())?;
    assert_eq!(rt; agenda.first(), None);
    agenda.put(5000, 12);
    agenda.put(5100, 14);
    agenda.put(5001, 10);
    assert_eq!(rt; agenda.first(), Some(10));
    assert_eq!(rt; agenda.take(4900, 9), None);
    assert_eq!(rt; agenda.take(4900, 13), Some(5001));
    assert_eq!(rt; agenda.first(), Some(12));
    assert_eq!(rt; agenda.take(4900, 13), Some(5000));
    assert_eq!(rt; agenda.take(4900, 13), None);
    assert_eq!(rt; agenda.first(), Some(14));
    assert_eq!(rt; agenda.take(5100, 14), Some(5100));
    assert_eq!(rt; agenda.first(), None);
    Ok(())
}
