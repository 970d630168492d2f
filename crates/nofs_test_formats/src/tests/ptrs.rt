//! Worked bytes of a pointer in its cell, and the slots at the edges of each level.
use nofs_disk::Pointer;
use nofs_ptrs::*;

#[test]
fn a_pointer_is_written_as_its_worked_bytes_and_read_from_them(rt: HostRuntime) {
    let mut payload = [7; 1024];
    let it = Pointer {
        block: 5,
        stamp: 1_099_511_627_785,
    };
    write_pointer(&mut payload, 63, it);
    assert_eq!(rt;
        &payload[1007..1024],
        b"\x07\x05\0\0\0\0\0\0\0\x09\0\0\0\0\x01\0\0".as_slice()
    );
    assert_eq!(rt; read_pointer(&payload, 63), it);
}

#[test]
fn a_slot_is_found_in_the_record_the_leaf_or_a_child(rt: HostRuntime) {
    for (slot, path) in [
        (0, Some(SlotPath::Direct(0))),
        (7, Some(SlotPath::Direct(7))),
        (8, Some(SlotPath::Leaf(0))),
        (71, Some(SlotPath::Leaf(63))),
        (72, Some(SlotPath::Child(0, 0))),
        (135, Some(SlotPath::Child(0, 63))),
        (136, Some(SlotPath::Child(1, 0))),
        (4_167, Some(SlotPath::Child(63, 63))),
        (4_168, None),
        (4_294_967_296, None),
        (u64::MAX, None),
    ] {
        assert_eq!(rt; path_of(slot), path, "slot {slot}");
    }
}
