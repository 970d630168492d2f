//! Gates that hold a worker before its steps, and hear of each reply.
ghost use Rattle.std.specs.Prelude.{◌≡◌};

use nofs_history::{Reply, Step, Steps};

/// Holds a worker before a step, and hears of each reply.
pub trait Gate {
    /// Called before each step.
    fn before(&mut self);

    /// Called as soon as there is a reply.
    fn after(&mut self);
}

/// The gate of the program: it holds nobody.
#[derive(Drop)]
pub struct OpenGate;

impl Gate for OpenGate {
    fn before(&mut self) {}

    fn after(&mut self) {}
}

/// A way to the mount with a gate before each step. Its steps are those of the way behind it.
#[derive(Drop)]
pub struct Gated<S: Steps, T: Gate> {
    /// The way to the mount.
    pub steps: S,
    gate: T,
}

impl<S: Steps, T: Gate> Gated<S, T> {
    /// A way to the mount through a gate.
    pub fn new(steps: S, gate: T) -> Self
        ensures { result.steps ≡ steps }
    {
        Gated { steps, gate }
    }
}

impl<S: Steps, T: Gate + Drop> Gated<S, T> {
    /// The way behind the gate, handed back.
    pub fn into_inner(self) -> S
        ensures { result ≡ self.steps }
    {
        let Gated { steps, gate: _ } = self;
        steps
    }
}

impl<S: Steps, T: Gate> Steps for Gated<S, T> {
    ghost made = { λ gated. S.made gated.steps };

    ghost goes = { λ old new. S.goes old.steps new.steps };

    fn step(&mut self, step: Step) -> Reply {
        self.gate.before();
        let reply = self.steps.step(step);
        self.gate.after();
        reply
    }

    ghost goes_none = { λ gated. S.goes_none gated.steps };

    ghost goes_on = { λ a b c first second. S.goes_on a.steps b.steps c.steps first second };
}
