//! How a sweep goes over its order, batch by batch.
//!
//! Promise: one step for each place of the order, in order; fewer only where memory was wanting, and no room for such
//! steps is then left.
ghost use Rattle.std.specs.Prelude.{◌≡◌, ◌+◌, ◌-◌, ◌^◌, ◌<◌, ◌≤◌, length, true, false};
ghost use Rattle.nofs_history.specs.Steps.{is_out_of_memory};
ghost use Rattle.nofs_history.specs.declared.machine.steps.ElementKind.TheVariants.{Inode};
ghost use Rattle.nofs_workers.specs.Sweep.{AreInRange, AreOrdered, MakesFirst, Sweeps, element_number as number_in};

use crate::batches::Batches;
use crate::course::Course;
use crate::gate::Gate;
use nofs_history::ElementKind;

/// The most elements of one batch.
const BATCH: u64 = 64;

/// Examines each element by a step of its own. True where memory was wanting.
fn see_each<S: Batches, T: Gate>(
    steps: &mut S,
    kind: ElementKind,
    elements: &[u64],
    gate: &mut T,
) -> bool
    requires { AreInRange kind elements.now }
    ensures made { MakesFirst kind elements.now result (S.made steps.old) (S.made steps.new) }
    ensures room { result ≡ true → S.lacks_room steps.new }
    ensures goes { S.goes steps.old steps.new }
{
    for element in elements {
        gate.before();
        let reply = steps.see(kind, *element);
        gate.after();
        if reply.is_out_of_memory() {
            return true;
        }
    }
    false
}

/// The element that an item of the order stands for: inodes are counted from 1, blocks from 0.
fn number_of(kind: ElementKind, item: u64) -> u64
    requires { kind ≡ Inode → item + 1 < 2 ^ 32 }
    ensures { result ≡ number_in kind item }
{
    match kind {
        ElementKind::Inode => item + 1,
        ElementKind::Block => item,
    }
}

/// Puts the elements of the places from `place` on into a slice.
fn fill<O: Course>(kind: ElementKind, order: &O, place: u64, into: &mut [u64])
    requires fits { (place + length into.old ≤ O.count_of order.now) × (O.count_of order.now < 2 ^ 64) }
    requires small { kind ≡ Inode → O.count_of order.now < 2 ^ 32 }
    ensures len { length into.new ≡ length into.old }
    ensures ordered { AreOrdered (O.has_item order.now) kind place into.new }
    ensures in_range { AreInRange kind into.new }
{
    for at in 0..into.len() {
        into[at] = number_of(kind, order.item_at(place + at as u64));
    }
}

/// Commits each verdict of a batch. True where memory was wanting.
fn commit_each<S: Batches, T: Gate>(
    steps: &mut S,
    evidence: &S::Evidence,
    count: u32,
    gate: &mut T,
) -> bool
    requires own { S.owns steps.old evidence.now }
    requires count { count ≡ length (S.looked evidence.now).items }
    ensures made { MakesFirst (S.looked evidence.now).kind (S.looked evidence.now).items result (S.made steps.old)
        (S.made steps.new) }
    ensures room { result ≡ true → S.lacks_room steps.new }
    ensures goes { S.goes steps.old steps.new }
{
    for at in 0..count {
        gate.before();
        let used = S::judge(evidence, at);
        let reply = steps.commit(evidence, at, used);
        gate.after();
        if reply.is_out_of_memory() {
            return true;
        }
    }
    false
}

/// Examines the elements of a batch: by one look where that is accepted, and else one by one.
fn examine<S: Batches, T: Gate>(
    steps: &mut S,
    kind: ElementKind,
    elements: &[u64],
    gate: &mut T,
) -> bool
    requires count { (1 ≤ length elements.now) × (length elements.now ≤ 64) }
    requires in_range { AreInRange kind elements.now }
    ensures made { MakesFirst kind elements.now result (S.made steps.old) (S.made steps.new) }
    ensures room { result ≡ true → S.lacks_room steps.new }
    ensures goes { S.goes steps.old steps.new }
{
    match steps.look_batch(kind, elements) {
        Ok(evidence) => commit_each(steps, &evidence, elements.len() as u32, gate),
        Err(_) => see_each(steps, kind, elements, gate),
    }
}

/// Examines the elements of some places of the order. True where memory was wanting.
fn sweep_batch<S: Batches, O: Course, T: Gate>(
    kind: ElementKind,
    steps: &mut S,
    order: &O,
    place: u64,
    count: u64,
    gate: &mut T,
) -> bool
    requires count { (1 ≤ count) × (count ≤ 64) }
    requires fits { (place + count ≤ O.count_of order.now) × (O.count_of order.now < 2 ^ 64) }
    requires small { kind ≡ Inode → O.count_of order.now < 2 ^ 32 }
    ensures swept { Sweeps (O.has_item order.now) kind place count result (S.made steps.old) (S.made steps.new) }
    ensures room { result ≡ true → S.lacks_room steps.new }
    ensures goes { S.goes steps.old steps.new }
{
    let mut elements = [0; BATCH as usize];
    let batch = &mut elements[..count as usize];
    fill(kind, order, place, batch);
    examine(steps, kind, batch, gate)
}

/// Makes one step for each place of the order, in batches. True where memory was wanting.
pub fn sweep<S: Batches, O: Course, T: Gate>(
    kind: ElementKind,
    steps: &mut S,
    order: &O,
    gate: &mut T,
) -> bool
    requires { kind ≡ Inode → O.count_of order.now < 2 ^ 32 }
    ensures swept { Sweeps (O.has_item order.now) kind 0 (O.count_of order.now) result (S.made steps.old)
        (S.made steps.new) }
    ensures room { result ≡ true → S.lacks_room steps.new }
    ensures goes { S.goes steps.old steps.new }
{
    let (end, mut place) = (order.count(), 0);
    while place < end {
        let count = (end - place).min(BATCH);
        if sweep_batch(kind, steps, order, place, count, gate) {
            return true;
        }
        place += count;
    }
    false
}
