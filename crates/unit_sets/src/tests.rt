//! What a user sees, at the borders of the words.
ghost use Rattle.std.specs.Prelude.{◌<◌};

use crate::{UnitMask, UnitSet};
use std::test::Fail;

// The set of those of the numbers that it can hold.
fn set_of<M: UnitMask>(numbers: &[usize]) -> M {
    let mut set = M::empty();
    for number in numbers {
        if *number < M::SIZE {
            set.insert(*number);
        }
    }
    set
}

// Takes the number that comes first from `pos` on out of the set.
fn take_first<M: UnitMask>(set: &mut M, pos: usize) -> Option<usize>
    requires { pos < M.SIZE }
{
    let first = set.first_from(pos)?;
    set.remove(first);
    Some(first)
}

#[test]
fn a_word_holds_numbers_below_64(rt: HostRuntime) -> Result<(), Fail> {
    let mut set: u64 = set_of(&[0, 63, 64]);
    assert_eq!(rt; set, 0x8000_0000_0000_0001);
    assert_eq!(rt; set.count(), 2);
    assert!(rt; set.has(0));
    assert!(rt; !set.has(62));
    assert!(rt; set.has(63));
    assert_eq!(rt; set.without(&set_of(&[0, 5])), set_of(&[63]));
    assert_eq!(rt; set.first_from(0), Some(0));
    assert_eq!(rt; set.first_from(1), Some(63));
    assert_eq!(rt; take_first(&mut set, 63), Some(63));
    assert_eq!(rt; take_first(&mut set, 63), Some(0));
    assert_eq!(rt; take_first(&mut set, 63), None);
    assert_eq!(rt; set, u64::empty());
    Ok(())
}

#[test]
fn four_words_hold_numbers_below_256(rt: HostRuntime) -> Result<(), Fail> {
    let mut set: UnitSet = set_of(&[0, 63, 64, 255, 256]);
    assert_eq!(rt; set.count(), 4);
    for number in [0, 63, 64, 255] {
        assert!(rt; set.has(number), "{number}");
    }
    for number in [1, 62, 65, 127, 128, 191, 192, 254] {
        assert!(rt; !set.has(number), "{number}");
    }
    assert_eq!(rt; set.without(&set_of(&[63, 255, 100])), set_of(&[0, 64]));
    assert_eq!(rt; set.first_from(63), Some(63));
    assert_eq!(rt; set.first_from(65), Some(255));
    assert_eq!(rt; take_first(&mut set, 64), Some(64));
    assert_eq!(rt; take_first(&mut set, 64), Some(255));
    assert_eq!(rt; take_first(&mut set, 64), Some(0));
    assert_eq!(rt; take_first(&mut set, 64), Some(63));
    assert_eq!(rt; take_first(&mut set, 64), None);
    assert_eq!(rt; set, UnitSet::empty());
    Ok(())
}
