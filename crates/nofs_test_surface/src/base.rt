//! Cells and tags, the lock, orders of a sweep, and maps of bits.
ghost use Rattle.nofs_disk.specs.Tag.{HasTagSpelling};
ghost use Rattle.nofs_sweep.specs.Orders.{EachHasPlace};
ghost use Rattle.nofs_turn.specs.Passes.{MayRun};
ghost use Rattle.nofs_turn.specs.Turn.{IsPassOf, view_of};
ghost use Rattle.std.specs.Prelude.{length, ℕ, ◌<◌, ◌^◌, ◌≡◌, ◌≤◌};

use nofs_bits::Bits;
use nofs_disk::{Cell, Failed, Kind, OutFault, Pointer, Tag};
use nofs_sweep::{SweepOrder, ToItem, ToPlace};
use nofs_turn::{Busy, Kept, Pass, PassesOut, Section, Turn, TurnFault};
use std::alloc::{AllocError, Global};
use std::sync::Wait;

/// `nofs_disk::Cell`
pub fn cell_fields(it: Cell) -> ([u8; 1024], [u8; 32]) {
    let Cell { payload, tag } = it;
    (payload, tag)
}

/// `nofs_disk::Tag`
pub fn tag_fields(it: Tag) -> (Kind, u32, u64, u64, u64) {
    let Tag {
        kind,
        inode,
        generation,
        slot,
        stamp,
    } = it;
    (kind, inode, generation, slot, stamp)
}

/// `nofs_disk::Kind`
pub fn kind_variant(it: &Kind) -> u8 {
    match it {
        Kind::Content | Kind::Directory => 0,
        Kind::Leaf | Kind::Table => 1,
        Kind::Nothing | Kind::Super => 2,
    }
}

/// `nofs_disk::Pointer`
pub fn pointer_fields(it: Pointer) -> (u64, u64) {
    let Pointer { block, stamp } = it;
    (block, stamp)
}

/// `nofs_disk::Failed`
pub fn failed_itself(it: Failed) -> Failed {
    it
}

/// `nofs_disk::read_tag`
pub fn disk_read_tag(bytes: &[u8; 32]) -> Option<Tag> {
    nofs_disk::read_tag(bytes)
}

/// `nofs_disk::write_tag`
pub fn disk_write_tag(tag: &Tag, into: &mut [u8; 32])
    requires { HasTagSpelling tag.now }
{
    nofs_disk::write_tag(tag, into);
}

/// `nofs_disk::stamp_of`
pub fn disk_stamp_of(mount: u64, serial: u64) -> u64
    requires mount { mount < 2 ^ 24 }
    requires serial { serial < 2 ^ 40 }
{
    nofs_disk::stamp_of(mount, serial)
}

/// `nofs_disk::OutFault`
pub fn out_fault_variant(it: &OutFault) -> u8 {
    match it {
        OutFault::Failed => 0,
        OutFault::OutOfMemory => 1,
    }
}

/// `nofs_turn::Turn`
pub fn turn_itself<V: Kept>(it: Turn<V>) -> Turn<V> {
    it
}

/// `nofs_turn::Pass`
pub fn pass_itself<V: Kept>(it: Pass<V>) -> Pass<V> {
    it
}

/// `nofs_turn::Busy`
pub fn busy_fields<S>(it: Busy<S>) -> (S, u64) {
    let Busy { section, word } = it;
    (section, word)
}

/// `nofs_turn::TurnFault`
pub fn turn_fault_fields<V>(it: TurnFault<V>) -> V {
    let TurnFault { value } = it;
    value
}

/// `nofs_turn::PassesOut`
pub fn passes_out_fields<V: Kept>(it: PassesOut<V>) -> (Turn<V>, Pass<V>, u64) {
    let PassesOut { turn, pass, out } = it;
    (turn, pass, out)
}

/// `nofs_turn::Turn::count`
pub fn turn_count<V: Kept>(this: &Turn<V>, pass: &mut Pass<V>) -> u64
    requires { IsPassOf this.now pass.old }
{
    this.count(pass)
}

/// `nofs_turn::Turn::try_with`
pub fn turn_try_with<V: Kept, S: Section<V>>(
    this: &Turn<V>,
    pass: &mut Pass<V>,
    section: S,
) -> Result<S::Out, Busy<S>>
    requires of { IsPassOf this.now pass.old }
    requires may { MayRun (S.asks section) (view_of pass.old) }
{
    this.try_with(pass, section)
}

/// `nofs_turn::Turn::with`
pub fn turn_with<V: Kept, R: Wait, S: Section<V>>(
    this: &Turn<V>,
    rt: &R,
    pass: &mut Pass<V>,
    section: S,
) -> S::Out
    requires of { IsPassOf this.now pass.old }
    requires may { MayRun (S.asks section) (view_of pass.old) }
{
    this.with(rt, pass, section)
}

/// `nofs_turn::Turn::join`
pub fn turn_join<V: Kept>(this: &Turn<V>, into: &mut Pass<V>, from: Pass<V>)
    requires of { IsPassOf this.now into.old × IsPassOf this.now from }
{
    this.join(into, from);
}

/// `nofs_turn::Turn::close`
pub fn turn_close<V: Kept>(this: Turn<V>, pass: Pass<V>) -> Result<V, PassesOut<V>>
    requires of { IsPassOf this pass }
{
    this.close(pass)
}

/// A turn, and a pass for each of its seats.
type Seated<V> = (Turn<V>, Vec<Pass<V>>);

/// `nofs_turn::Turn::new`
pub fn turn_new<V: Kept>(alloc: Global, value: V, seats: u32) -> Result<Seated<V>, TurnFault<V>>
    requires { (0 < seats) × (seats ≤ 64) }
{
    Turn::new(alloc, value, seats)
}

/// `nofs_sweep::SweepOrder`
pub fn sweep_order_itself(it: SweepOrder) -> SweepOrder {
    it
}

/// `nofs_sweep::SweepOrder::new`
pub fn sweep_order_new(count: u64, to_item: ToItem, to_place: ToPlace) -> SweepOrder
    requires item_may { (place : ℕ) → place < count → ToItem.pre to_item count place }
    requires item_below { (place item : ℕ) → place < count → ToItem.post to_item count place item
        → item < count }
    requires each { EachHasPlace count (ToItem.post to_item count) }
    requires place_may { (item : ℕ) → item < count → ToPlace.pre to_place count item }
    requires place_below { (item place : ℕ) → item < count → ToPlace.post to_place count item place
        → place < count }
    requires inverse { (item place found : ℕ) → item < count → ToPlace.post to_place count item place
        → ToItem.post to_item count place found → found ≡ item }
{
    SweepOrder::new(count, to_item, to_place)
}

/// `nofs_sweep::SweepOrder::item`
pub fn sweep_order_item(this: &SweepOrder, place: u64) -> u64
    requires { place < this.now.count }
{
    this.item(place)
}

/// `nofs_sweep::SweepOrder::place`
pub fn sweep_order_place(this: &SweepOrder, item: u64) -> u64
    requires { item < this.now.count }
{
    this.place(item)
}

/// `nofs_bits::Bits`
pub fn bits_itself(it: Bits) -> Bits {
    it
}

/// `nofs_bits::Bits::new`
pub fn bits_new(alloc: Global, n: u64) -> Result<Bits, AllocError> {
    Bits::new(alloc, n)
}

/// `nofs_bits::Bits::get`
pub fn bits_get(this: &Bits, at: u64) -> bool
    requires { at < length this.now }
{
    this.get(at)
}

/// `nofs_bits::Bits::set`
pub fn bits_set(this: &mut Bits, at: u64, value: bool)
    requires { at < length this.old }
{
    this.set(at, value);
}

/// `nofs_bits::Bits::count`
pub fn bits_count(this: &Bits) -> u64 {
    this.count()
}

/// `nofs_bits::Bits::next_set`
pub fn bits_next_set(this: &Bits, from: u64) -> Option<u64> {
    this.next_set(from)
}
