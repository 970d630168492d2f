//! Worked bytes of tags, pointers and stamps.
use nofs_disk::*;

/// The first stamp of the first mount.
const S: u64 = 1_099_511_627_776;

/// The tag of slot 0 of inode 2, with the first stamp.
const CONTENT: Tag = Tag {
    kind: Kind::Content,
    inode: 2,
    generation: 2,
    slot: 0,
    stamp: S,
};

const CONTENT_BYTES: [u8; 32] =
    *b"\x01\0\0\0\x02\0\0\0\x02\0\0\0\0\0\0\0\0\0\0\0\0\0\0\0\0\0\0\0\0\x01\0\0";

#[test]
fn tags_are_written_as_their_worked_bytes_and_read_from_them(rt: HostRuntime) {
    let mut bytes = [7; 32];
    write_tag(&CONTENT, &mut bytes);
    assert_eq!(rt; bytes, CONTENT_BYTES);
    assert_eq!(rt; read_tag(&CONTENT_BYTES), Some(CONTENT));
    let leaf = Tag {
        kind: Kind::Leaf,
        slot: 4_294_967_296,
        ..CONTENT
    };
    write_tag(&leaf, &mut bytes);
    assert_eq!(rt; &bytes[16..24], b"\0\0\0\0\x01\0\0\0".as_slice());
    assert_eq!(rt; read_tag(&bytes), Some(leaf));
}

/// Whether zeros with this one byte spell a tag.
fn is_tag_with(at: usize, byte: u8) -> bool {
    let mut bytes = [0; 32];
    if let Some(place) = bytes.get_mut(at) {
        *place = byte;
    }
    read_tag(&bytes).is_some()
}

#[test]
fn a_tag_has_a_kind_from_0_to_5_and_an_unused_one_has_only_zeros(rt: HostRuntime) {
    for (kind, is_kind) in [(0, true), (1, true), (5, true), (6, false), (255, false)] {
        assert_eq!(rt; is_tag_with(0, kind), is_kind, "kind {kind}");
    }
    for at in [1, 3, 4, 7, 8, 15, 16, 23, 24, 31] {
        let is_spelled = (is_tag_with(at, 0), is_tag_with(at, 1));
        assert_eq!(rt; is_spelled, (true, false), "byte {at}");
    }
}

#[test]
fn a_pointer_has_its_worked_bytes_and_only_block_0_with_stamp_0_is_null(rt: HostRuntime) {
    let it = Pointer {
        block: 5,
        stamp: S + 9,
    };
    let mut bytes = [7; 18];
    write_pointer_at(&mut bytes, 1, it);
    assert_eq!(rt; bytes, *b"\x07\x05\0\0\0\0\0\0\0\x09\0\0\0\0\x01\0\0\x07");
    assert_eq!(rt; read_pointer_at(&bytes, 1), it);
    for (block, stamp, is_null) in [
        (0, 1, false),
        (1, 0, false),
        (5, S + 9, false),
        (0, 0, true),
    ] {
        assert_eq!(rt;
            Pointer { block, stamp }.is_null(),
            is_null,
            "({block}, {stamp})"
        );
    }
    assert!(rt; Pointer::NULL.is_null());
}

#[test]
fn a_stamp_has_the_mount_above_the_serial(rt: HostRuntime) {
    for (mount, serial, stamp) in [
        (0, 0, 0),
        (1, 0, S),
        (1, 9, S + 9),
        (3, S - 1, 4_398_046_511_103),
        (16_777_215, S - 1, u64::MAX),
    ] {
        assert_eq!(rt; stamp_of(mount, serial), stamp, "({mount}, {serial})");
    }
}
