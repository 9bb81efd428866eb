//! How many entries of a heap are moved.

use cam_types::Priority;
use camq_heap::Camq;
use std::process::Abort;
use std::test::Fail;

// Enters an item at a priority, whose number is its generation too.
fn insert(rt: &impl Abort, queue: &mut Camq<u8>, number: u32) {
    let priority = Priority::new(number).expect(rt, "a priority");
    let generation = u64::from(number);
    assert!(rt; !queue.has_generation(generation), "generation {number}");
    assert!(rt; queue.insert(priority, generation, b'a').is_ok());
}

// How many entries were moved before any insert, at each of four, and at a removal.
fn moved(rt: &impl Abort, queue: &mut Camq<u8>) -> [u32; 6] {
    let mut moved = [queue.moved(), 0, 0, 0, 0, 0];
    for (place, number) in [(1usize, 400), (2, 300), (3, 200), (4, 100)] {
        insert(rt, queue, number);
        moved[place] = queue.moved();
    }
    queue.remove_first();
    moved[5] = queue.moved();
    moved
}

#[test]
fn moves_are_counted(rt: HostRuntime) -> Result<(), Fail> {
    let mut queue = Camq::with_capacity(rt.alloc(), 4)?;
    // Each goes to the root: past nothing, past one parent, past one parent, past two. Then the array is 100, 200, 300, 400:
    // the last goes to the root, and from there past one child.
    assert_eq!(rt; moved(&rt, &mut queue), [0, 0, 1, 1, 2, 2]);
    Ok(())
}
