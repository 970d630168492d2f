//! Maps of one bit a place: places in several words are found and counted.
ghost use Rattle.std.specs.Prelude.{◌≡◌, ◌<◌, IfOk, length};

use nofs_bits::Bits;
use std::alloc::{AllocError, Global};
use std::process::Abort;
use std::test::Fail;

/// A map whose places 3, 63, 64 and last are set.
fn four_set(alloc: Global, places: u64) -> Result<Bits, AllocError>
    requires { 500 < places }
    ensures { IfOk result (λ bits. length bits ≡ places) }
{
    let mut bits = Bits::new(alloc, places)?;
    bits.set(3, true);
    bits.set(63, true);
    bits.set(64, true);
    bits.set(places - 1, true);
    bits.set(3, true);
    bits.set(500, false);
    Ok(bits)
}

/// A place to begin at, and the first place from there on that is set.
type Place = (u64, Option<u64>);

fn check_places(rt: &impl Abort, bits: &Bits, places: &[Place]) {
    for (from, next) in places {
        assert_eq!(rt; bits.next_set(*from), *next, "from {from}");
    }
}

#[test]
fn places_in_several_words_are_found_and_counted(rt: HostRuntime) -> Result<(), Fail> {
    let mut bits = four_set(rt.alloc(), 1_000_000)?;
    let places = [
        (0, Some(3)),
        (3, Some(3)),
        (4, Some(63)),
        (64, Some(64)),
        (65, Some(999_999)),
        (999_999, Some(999_999)),
        (1_000_000, None),
        (u64::MAX, None),
    ];
    check_places(&rt, &bits, &places);
    assert_eq!(rt;
        (bits.count(), bits.get(63), bits.get(62)),
        (4, true, false)
    );
    bits.set(63, false);
    assert_eq!(rt;
        (bits.count(), bits.get(63), bits.next_set(4)),
        (3, false, Some(64))
    );
    Ok(())
}
