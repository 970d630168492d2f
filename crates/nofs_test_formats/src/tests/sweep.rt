//! Orders of a sweep: the item of each place, and the place of each item.
ghost use Rattle.std.specs.Prelude.{◌≡◌, ◌-◌, ◌<◌};

use nofs_sweep::SweepOrder;

/// The items of the four places of an order, and the places of its four items.
fn shown(order: &SweepOrder) -> ([u64; 4], [u64; 4])
    requires { order.now.count ≡ 4 }
{
    let items = [order.item(0), order.item(1), order.item(2), order.item(3)];
    let places = [
        order.place(0),
        order.place(1),
        order.place(2),
        order.place(3),
    ];
    (items, places)
}

#[test]
fn an_order_goes_upwards_or_downwards(rt: HostRuntime) {
    let upwards = SweepOrder::new(
        4,
        |_count: u64, place: u64| -> u64
            ensures { result ≡ place }
        { place },
        |_count: u64, item: u64| -> u64
            ensures { result ≡ item }
        { item },
    );
    assert_eq!(rt; shown(&upwards), ([0, 1, 2, 3], [0, 1, 2, 3]));
    let downwards = SweepOrder::new(4, downwards, downwards);
    assert_eq!(rt; shown(&downwards), ([3, 2, 1, 0], [3, 2, 1, 0]));
}

/// The place from the other end.
fn downwards(count: u64, at: u64) -> u64
    requires { at < count }
    ensures { result ≡ count - 1 - at }
{
    count - 1 - at
}
