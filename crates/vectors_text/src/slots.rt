//! Slots of names, one of which stands twice.
use crate::rows::holds;
use name_slots::Slots;
use std::alloc::Global;

static NAMES: [&'static [u8]; 3] = [b"a", b"b", b"a"];

/// A name, and its slot, where it has one.
static SLOTS: [(&[u8], Option<usize>); 3] = [(b"a", Some(0)), (b"b", Some(1)), (b"c", None)];

fn are_slots(slots: &Slots<'_>) -> bool {
    let mut are = true;
    for (name, slot) in SLOTS.iter() {
        are &= slots.slot(name) == *slot;
    }
    are
}

fn has_slots(alloc: Global) -> bool {
    let Ok(names) = Vec::from_slice(alloc, &NAMES) else {
        return false;
    };
    match Slots::new(alloc, names) {
        Ok(slots) => are_slots(&slots),
        Err(_) => false,
    }
}

#[test]
fn equal_names(rt: HostRuntime) {
    holds(&rt, 0, has_slots(rt.alloc()));
}
