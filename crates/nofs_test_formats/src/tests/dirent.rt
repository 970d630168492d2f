//! Worked bytes of an entry, and which bytes and names are none.
use nofs_dirent::{Name, *};
use nofs_disk::write_bytes_at;

/// The first stamp of the first mount.
const S: u64 = 1_099_511_627_776;

/// Entry `a` of inode 3 with generation S, but for the 47 zeros at its end.
const A_BYTES: [u8; 17] = *b"\x03\0\0\0\x01\0\0\0\0\0\0\0\0\x01\0\0a";

#[test]
fn an_entry_is_written_as_its_worked_bytes_and_cleared_to_zeros(rt: HostRuntime) {
    let mut payload = [7; 1024];
    let name = Name::from_slice(rt.alloc(), b"a").expect(&rt, "memory for a name");
    let entry = Entry {
        inode: 3,
        generation: S,
        name,
    };
    write_entry(&mut payload, 1, &entry);
    assert_eq!(rt; payload[63], 7);
    assert_eq!(rt; &payload[64..81], A_BYTES.as_slice());
    assert!(rt; payload[81..128].iter().all(|&byte| byte == 0));
    assert_eq!(rt; payload[128], 7);
    clear_entry(&mut payload, 1);
    assert_eq!(rt; payload[63], 7);
    assert!(rt; payload[64..128].iter().all(|&byte| byte == 0));
    assert_eq!(rt; payload[128], 7);
}

#[test]
fn the_rules_decide_which_bytes_are_an_entry(rt: HostRuntime) {
    for (at, byte, spelled) in [
        (0, 3, true),
        (0, 0, false),
        (4, 0, false),
        (4, 2, false),
        (4, 49, false),
        (7, 1, false),
        (13, 0, false),
        (15, 1, true),
        (16, 0, false),
        (16, 10, false),
        (16, 13, false),
        (16, 32, false),
        (16, 46, false),
        (16, 47, false),
        (16, 255, true),
        (17, 98, false),
        (63, 1, false),
    ] {
        let mut payload = [0; 1024];
        write_bytes_at(&mut payload, 0, &A_BYTES);
        if let Some(place) = payload.get_mut(at) {
            *place = byte;
        }
        let entry = read_entry(rt.alloc(), &payload, 0).expect(&rt, "memory for an entry");
        assert_eq!(rt; entry.is_some(), spelled, "byte {at} is {byte}");
    }
}

#[test]
fn an_entry_is_read_with_its_numbers_and_its_name(rt: HostRuntime) {
    let mut payload = [0; 1024];
    write_bytes_at(&mut payload, 960, &A_BYTES);
    let read = read_entry(rt.alloc(), &payload, 15).expect(&rt, "memory for an entry");
    match read {
        None => assert!(rt; false),
        Some(entry) => {
            assert_eq!(rt; entry.inode, 3);
            assert_eq!(rt; entry.generation, S);
            assert_eq!(rt; entry.name.as_slice(), b"a".as_slice());
        }
    }
}

#[test]
fn a_name_has_1_to_48_bytes_and_none_of_the_special_ones(rt: HostRuntime) {
    for (name, ok) in [
        (b"".as_slice(), false),
        (b"a".as_slice(), true),
        ([97; 48].as_slice(), true),
        ([97; 49].as_slice(), false),
        (b".".as_slice(), false),
        (b"..".as_slice(), false),
        (b"...".as_slice(), true),
        (b".a".as_slice(), true),
        (b"a\0".as_slice(), false),
        (b"a\n".as_slice(), false),
        (b"a\r".as_slice(), false),
        (b"a b".as_slice(), false),
        (b"a/b".as_slice(), false),
        (b"\x01\xff".as_slice(), true),
    ] {
        assert_eq!(rt; name_ok(name), ok);
    }
}

#[test]
fn a_name_is_found_at_its_first_place_from_a_place_on(rt: HostRuntime) {
    let mut payload = [0; 1024];
    write_bytes_at(&mut payload, 128, &A_BYTES);
    write_bytes_at(&mut payload, 320, &A_BYTES);
    for (from, place) in [
        (0, Some(2)),
        (2, Some(2)),
        (3, Some(5)),
        (6, None),
        (16, None),
        (99, None),
    ] {
        assert_eq!(rt; find_name(&payload, b"a", from), place, "from {from}");
    }
    assert_eq!(rt; find_name(&payload, b"b", 0), None);
}
