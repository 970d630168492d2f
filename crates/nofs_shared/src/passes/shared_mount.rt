//! A mount that several callers share.
ghost use Rattle.std.specs.Prelude.{◌≡◌, ◌+◌, ◌<◌, ◌≤◌, [], vec_len, All, IfOk, IfErr};
ghost use mathlib.Core.List.{IsPrefix};
ghost use Rattle.nofs_turn.specs.Turn.{view_of, IsPassOf, IsFreshPass};
ghost use Rattle.nofs_turn.specs.Rule.Views.{joined};
ghost use Rattle.nofs_turn.specs.Passes.{Closes};

use crate::mount::serves::Serves;
use crate::passes::steps::SharedPass;
use nofs_turn::{Pass, PassesOut, Turn, TurnFault};
use std::alloc::Global;
use std::sync::atomic::AtomicBool;

/// There was no memory to share a mount. It comes back unchanged.
#[derive(Drop)]
pub struct ShareFault<V> {
    pub mount: V,
}

/// A mount behind a turn.
#[derive(Drop)]
pub struct SharedMount<V: Serves> {
    turn: Turn<V>,
    // Whether a write-out found no block kept back, and no step has begun since.
    clean: AtomicBool,
}

/// A shared mount was not closed, since passes of it are out. All comes back unchanged.
#[derive(Drop)]
pub struct SharedOut<V: Serves> {
    pub mount: SharedMount<V>,
    pub pass: Pass<V>,
    pub out: u64,
}

impl<V: Serves> SharedMount<V> {
    /// The mount behind a turn, and as many passes as there are seats, 1 to 64.
    pub fn new(
        alloc: Global,
        mount: V,
        seats: u32,
    ) -> Result<(SharedMount<V>, Vec<Pass<V>>), ShareFault<V>>
        requires { (0 < seats) × (seats ≤ 64) }
        ensures passes { IfOk result
            (λ t. (vec_len t.1 ≡ seats) × All (IsFreshPass V.entries V.fixed t.0.turn mount seats) t.1.items) }
        ensures err { IfErr result (λ e. e.mount ≡ mount) }
    {
        match Turn::new(alloc, mount, seats) {
            Ok((turn, passes)) => {
                let clean = AtomicBool::new(false);
                Ok((SharedMount { turn, clean }, passes))
            }
            Err(TurnFault { value }) => Err(ShareFault { mount: value }),
        }
    }

    /// A pass for this caller. The seat has no entries yet.
    pub fn pass<'a, R>(
        &'a self,
        rt: &'a R,
        alloc: Global,
        caller: u32,
        seat: Pass<V>,
    ) -> SharedPass<'a, R, V>
        requires of { IsPassOf self.now.turn seat }
        requires new { (view_of seat).mine ≡ [] }
        ensures { (result.turn.now ≡ self.now.turn) × (result.caller ≡ caller) × (result.pass ≡ seat) }
    {
        SharedPass::new(rt, alloc, &self.turn, &self.clean, caller, seat)
    }

    /// The one pass then knows what both knew, and stands for the passes of both.
    pub fn join(&self, into: &mut Pass<V>, from: Pass<V>)
        requires of { IsPassOf self.now.turn into.old × IsPassOf self.now.turn from }
        ensures of { IsPassOf self.now.turn into.new }
        ensures joined { view_of into.new ≡ joined (view_of into.old) (view_of from) }
        ensures knows { IsPrefix (view_of into.old).seen (view_of into.new).seen
            × IsPrefix (view_of from).seen (view_of into.new).seen }
    {
        self.turn.join(into, from);
    }

    /// The mount, where the pass stands for all passes.
    pub fn close(self, pass: Pass<V>) -> Result<V, SharedOut<V>>
        requires of { IsPassOf self.turn pass }
        ensures closed { IfOk result
            (λ mount. Closes V.entries V.fixed (view_of pass) mount × ((view_of pass).stands ≡ (view_of pass).seats)) }
        ensures out { IfErr result (λ e. (e.mount ≡ self) × (e.pass ≡ pass) × (0 < e.out)
            × (e.out + (view_of pass).stands ≡ (view_of pass).seats)) }
    {
        let SharedMount { turn, clean } = self;
        match turn.close(pass) {
            Ok(mount) => Ok(mount),
            Err(PassesOut { turn, pass, out }) => Err(SharedOut {
                mount: SharedMount { turn, clean },
                pass,
                out,
            }),
        }
    }
}
