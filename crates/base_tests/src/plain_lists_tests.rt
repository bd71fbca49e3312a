use crate::facts::holds;
use plain_lists::{Sequence, copied};
use std::alloc::Global;
use std::process::Abort;

fn set_second_of_five(rt: &impl Abort, list: &mut Sequence<u32>, number: u32) {
    assert!(rt; list.len() == 5);
    list.set(1, number);
}

// A number and then two lists join a list, and whether each call went well.
fn joins_both(list: &mut Sequence<u32>, two: &Sequence<u32>, eights: &Sequence<u32>) -> bool {
    list.push(5).is_ok() & list.append(two).is_ok() & list.append(eights).is_ok()
}

// A list of five numbers, made of two others.
fn five(rt: &impl Abort, alloc: Global) -> Sequence<u32> {
    let two = Sequence::new(copied(alloc, &[6, 7]).expect(rt, "memory"));
    let eights = Sequence::filled(alloc, 8, 2).expect(rt, "memory");
    let mut list: Sequence<u32> = Sequence::empty(alloc);
    holds(rt, list.len() == 0 && list.get(0).is_none());
    holds(rt, joins_both(&mut list, &two, &eights));
    drop(eights);
    drop(two);
    list
}

#[test]
fn lists_are_made_changed_and_copied(rt: HostRuntime) {
    let alloc = rt.alloc();
    let mut list = five(&rt, alloc);
    set_second_of_five(&rt, &mut list, 60);
    let copy = list.copy(alloc).expect(&rt, "memory");
    holds(&rt, list.as_slice() == [5, 60, 7, 8, 8].as_slice());
    holds(&rt, copy.get(4) == Some(&8));
    holds(&rt, copy.into_vec().as_slice() == list.as_slice());
    drop(list);
}
