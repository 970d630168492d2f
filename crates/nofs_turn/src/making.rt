//! Making a turn with its passes.
//!
//! Promise: all memory is taken before the value is given up, so a refusal hands it back unchanged.
ghost use Rattle.std.specs.Prelude.{◌≡◌, ◌-◌, ◌*◌, ◌<◌, ◌≤◌, All, [], vec_len, vec_capacity, Some, IfOk, IfErr};

use crate::rule::kept::Kept;
use crate::rule::steps::Deal;
use crate::rule::view::{Opening, View};
use crate::turn::{Pass, Turn, TurnFault};
use atomic_table::{Refused, Seat, Table};
use std::alloc::Global;
use std::snapshot::Snapshot;
use std::sync::atomic::{AtomicBool, AtomicU64};

impl<V: Kept> Turn<V> {
    ghost use Rattle.nofs_turn.specs.Rule.Views.{maker, newcomer, Deals};
    ghost use Rattle.nofs_turn.specs.Turn.{view_of, IsPassOf, IsFreshPass, made_over};

    /// A turn over the value, and as many passes as there are seats, 1 to 64. Each pass has seen the value's
    /// list, has no entries of its own, and stands for itself alone. Refused for want of memory alone; the value
    /// then comes back unchanged.
    pub fn new(alloc: Global, value: V, seats: u32) -> Result<(Turn<V>, Vec<Pass<V>>), TurnFault<V>>
        requires { (0 < seats) × (seats ≤ 64) }
        ensures passes { IfOk result
            (λ t. (vec_len t.1 ≡ seats) × All (IsFreshPass V.entries V.fixed t.0 value seats) t.1.items) }
        ensures made { IfOk result (λ t. (made_over t.0 ≡ value) × (t.0.seats ≡ seats)) }
        ensures err { IfErr result (λ e. e.value ≡ value) }
    {
        let count = u64::from(seats);
        let Ok(passes) = Vec::with_capacity(alloc, seats as usize) else {
            return Err(TurnFault { value });
        };
        let Ok(mut slots) = Vec::with_capacity(alloc, 1) else {
            return Err(TurnFault { value });
        };
        let word = 2 * value.kept();
        let opening = Opening {
            value: Snapshot::of(&value),
            seats: count,
        };
        slots.push_reserved(Some(value));
        match Table::new(alloc, &[word], slots, &opening) {
            Ok((table, maker)) => {
                let turn = Turn {
                    table,
                    seats: count,
                    parked: AtomicU64::new(0),
                    waking: AtomicBool::new(false),
                };
                let passes = turn.deal(maker, passes);
                Ok((turn, passes))
            }
            Err(Refused { mut slots }) => {
                let Some(Some(value)) = slots.pop() else {
                    unreachable!()
                };
                slots.destroy_empty();
                Err(TurnFault { value })
            }
        }
    }

    // A pass for each seat.
    fn deal(
        &self,
        mut maker: Seat<Option<V>, View<V::Entry, V::Fixed>>,
        mut passes: Vec<Pass<V>>,
    ) -> Vec<Pass<V>>
        requires of { (maker.table_id ≡ self.now.table.shared.table_id) × (maker.me.1 ≡ []) }
        requires room { (vec_len passes ≡ 0) × (self.now.seats ≤ vec_capacity passes) × (0 < self.now.seats) }
        requires whole { Deals maker.me.0 (self.now.seats - 1) self.now.seats }
        ensures len { vec_len result ≡ self.now.seats }
        ensures each { All (λ p. IsPassOf self.now p × (view_of p ≡ newcomer maker.me.0)) result.items }
    {
        for _ in 1..self.seats {
            let seat = self.table.shared.split_seat::<Deal>(&mut maker);
            passes.push_reserved(Pass { seat, stands: 1 });
        }
        passes.push_reserved(Pass {
            seat: maker,
            stands: 1,
        });
        passes
    }
}
