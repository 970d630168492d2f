//! Worked bytes of records, and which bytes are none.
ghost use Rattle.std.specs.Prelude.{◌≤◌};

use nofs_disk::{Pointer, write_u32_at, write_u64_at};
use nofs_inode::*;
use std::process::Abort;

/// The first stamp of the first mount.
const S: u64 = 1_099_511_627_776;

const POINTER: Pointer = Pointer {
    block: 5,
    stamp: S + 9,
};

const LINK: BackLink = BackLink {
    directory: 1,
    entry: 0,
    generation: 1,
};

/// The label file after the first session, with a back link and a leaf besides.
const LABEL_FILE: Record = Record {
    generation: 2,
    kind: Some(FileKind::File),
    links: [BackLink::EMPTY, BackLink::EMPTY, BackLink::EMPTY, LINK],
    size: 3,
    direct: [
        POINTER,
        Pointer::NULL,
        Pointer::NULL,
        Pointer::NULL,
        Pointer::NULL,
        Pointer::NULL,
        Pointer::NULL,
        Pointer::NULL,
    ],
    leaf: POINTER,
    top: Pointer::NULL,
};

/// A cell of bytes 7, but for the label file in its second place.
fn label_file_cell() -> [u8; 1024] {
    let mut payload = [7; 1024];
    write_record(&mut payload, 1, &LABEL_FILE);
    payload
}

#[test]
fn a_record_is_written_as_its_worked_bytes_and_read_from_them(rt: HostRuntime) {
    let payload = label_file_cell();
    assert_eq!(rt;
        &payload[255..288],
        b"\x07\x02\0\0\0\0\0\0\0\x01\0\0\0\x01\0\0\0\x03\0\0\0\0\0\0\0\0\0\0\0\0\0\0\0".as_slice()
    );
    assert_eq!(rt;
        &payload[336..368],
        b"\x01\0\0\0\0\0\0\0\x01\0\0\0\0\0\0\0\x05\0\0\0\0\0\0\0\x09\0\0\0\0\x01\0\0".as_slice()
    );
    assert_eq!(rt;
        &payload[480..513],
        b"\x05\0\0\0\0\0\0\0\x09\0\0\0\0\x01\0\0\0\0\0\0\0\0\0\0\0\0\0\0\0\0\0\0\x07".as_slice()
    );
    assert_eq!(rt; read_record(&payload, 1), Some(LABEL_FILE));
}

/// The numbers of a record that the spelling rules speak of.
#[derive(Clone, Copy)]
struct Numbers {
    generation: u64,
    kind: u32,
    count: u32,
    size: u64,
    zero: u64,
    first: BackLink,
    last: BackLink,
    top: u64,
}

const FREE: Numbers = Numbers {
    generation: 0,
    kind: 0,
    count: 0,
    size: 0,
    zero: 0,
    first: BackLink::EMPTY,
    last: BackLink::EMPTY,
    top: 0,
};

const FILE: Numbers = Numbers {
    generation: 1,
    kind: 1,
    ..FREE
};

const DIRECTORY: Numbers = Numbers {
    generation: 1,
    kind: 2,
    ..FREE
};

fn write_link(payload: &mut [u8; 1024], at: usize, link: BackLink)
    requires { at ≤ 1008 }
{
    write_u32_at(payload, at, link.directory);
    write_u32_at(payload, at + 4, link.entry);
    write_u64_at(payload, at + 8, link.generation);
}

fn cell_of(numbers: Numbers) -> [u8; 1024] {
    let mut payload = [0; 1024];
    write_u64_at(&mut payload, 0, numbers.generation);
    write_u32_at(&mut payload, 8, numbers.kind);
    write_u32_at(&mut payload, 12, numbers.count);
    write_u64_at(&mut payload, 16, numbers.size);
    write_u64_at(&mut payload, 24, numbers.zero);
    write_link(&mut payload, 32, numbers.first);
    write_link(&mut payload, 80, numbers.last);
    write_u64_at(&mut payload, 240, numbers.top);
    payload
}

/// The numbers with another size.
fn with_size(numbers: Numbers, size: u64) -> Numbers {
    Numbers { size, ..numbers }
}

/// The numbers with another generation.
fn with_generation(numbers: Numbers, generation: u64) -> Numbers {
    Numbers {
        generation,
        ..numbers
    }
}

/// The numbers with another top.
fn with_top(numbers: Numbers, top: u64) -> Numbers {
    Numbers { top, ..numbers }
}

/// The numbers with a count of links, and the first and the last place of one.
fn with_links(numbers: Numbers, count: u32, first: BackLink, last: BackLink) -> Numbers {
    Numbers {
        count,
        first,
        last,
        ..numbers
    }
}

/// Numbers, whether their bytes are a record, and what the case is about.
type Case = (Numbers, bool, &'static str);

fn check(rt: &impl Abort, cases: &[Case]) {
    for (numbers, spelled, what) in cases {
        assert_eq!(rt;
            read_record(&cell_of(*numbers), 0).is_some(),
            *spelled,
            "{what}"
        );
    }
}

#[test]
fn a_free_record_is_all_zero(rt: HostRuntime) {
    let cases = [
        (FREE, true, "all zero"),
        (with_size(FREE, 1), false, "free with a size"),
        (with_top(FREE, 1), false, "free with a top"),
        (Numbers { kind: 0, ..FILE }, false, "free with a generation"),
    ];
    check(&rt, &cases);
}

#[test]
fn a_used_record_has_a_kind_and_a_generation(rt: HostRuntime) {
    let no_generation = with_generation(FILE, 0);
    let cases = [
        (FILE, true, "an empty file"),
        (DIRECTORY, true, "an empty directory"),
        (Numbers { kind: 3, ..FILE }, false, "kind 3"),
        (no_generation, false, "generation 0"),
        (
            Numbers { zero: 1, ..FILE },
            false,
            "a number where zero stands",
        ),
    ];
    check(&rt, &cases);
}

#[test]
fn only_a_file_has_a_size_and_a_top(rt: HostRuntime) {
    let directory_with_top = with_top(DIRECTORY, 1);
    let cases = [
        (with_size(FILE, 4_268_032), true, "the largest size"),
        (with_size(FILE, 4_268_033), false, "a size too large"),
        (with_size(DIRECTORY, 1), false, "a directory with size 1"),
        (with_top(FILE, 1), true, "a file with a top"),
        (directory_with_top, false, "a directory with a top"),
    ];
    check(&rt, &cases);
}

#[test]
fn the_links_of_a_record_are_counted(rt: HostRuntime) {
    let none = BackLink::EMPTY;
    let entry = BackLink { entry: 1, ..none };
    let generation = BackLink {
        generation: 1,
        ..none
    };
    for (numbers, count, first, last, spelled, what) in [
        (DIRECTORY, 1, LINK, none, true, "a directory with one link"),
        (FILE, 2, LINK, LINK, true, "a file with two links"),
        (DIRECTORY, 2, LINK, LINK, false, "a directory with two"),
        (FILE, 1, none, none, false, "one link too many counted"),
        (FILE, 1, LINK, LINK, false, "one link too few counted"),
        (FILE, 0, entry, none, false, "an empty place with an entry"),
        (FILE, 0, none, generation, false, "one with a generation"),
    ] {
        let numbers = with_links(numbers, count, first, last);
        check(&rt, &[(numbers, spelled, what)]);
    }
}
