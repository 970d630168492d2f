//! Turns and passes on one thread and on several: who waits, who is refused, and what is handed back.

ghost use Rattle.std.specs.Prelude.{◌≡◌, ◌+◌, ◌<◌, IfSome};
ghost use Rattle.nofs_turn.specs.Turn.{IsPassOf};

use nofs_turn::{Busy, Kept, Pass, PassesOut, Section, Turn, TurnFault};
use std::alloc::{AllocError, Global};
use std::sync::Wait;
use std::test::Fail;
use std::thread;
use std::thread::Threads;

// Who added each entry.
#[derive(Drop)]
struct Log {
    entries: Vec<u32>,
}

impl Kept for Log {
    type Entry = u32;

    type Fixed = ();

    ghost entries = { λ log. log.entries.items };

    ghost fixed = { λ _. tt };

    fn kept(&self) -> u64 {
        self.entries.len() as u64
    }
}

// Adds one entry of a caller, where there is memory for it.
#[derive(Drop)]
struct Add(u32);

impl Section<Log> for Add {
    ghost use Rattle.std.specs.Prelude.{◌≡◌, ◌⊎◌, ◌∷◌, ◌++◌, []};

    type Out = ();

    ghost asks = { λ _ _ _. Unit {0} };

    ghost tells = { λ add _ before after _. (after ≡ before) ⊎ (after ≡ before ++ add.0 ∷ []) };

    ghost does = { λ _ _ _ _. Unit {0} };

    ghost lasts = { λ _ _ _ _ _. tt };

    fn run(self, value: &mut Log) {
        let _added = value.entries.push(self.0);
    }
}

// Tries another pass while it has the turn. It answers the word that the try found, or None where the try ran.
#[derive(Drop)]
struct Tries<'a> {
    turn: &'a Turn<Log>,
    pass: Pass<Log>,
    ghost of: { IsPassOf turn.now pass },
}

impl Section<Log> for Tries<'_> {
    ghost use Rattle.std.specs.Prelude.{◌≡◌};
    ghost use Rattle.nofs_turn.specs.Turn.{IsPassOf};

    type Out = (Option<u64>, Pass<Log>);

    ghost asks = { λ _ _ _. Unit {0} };

    ghost tells = { λ tries _ before after out. (after ≡ before) × IsPassOf tries.turn.now out.1 };

    ghost does = { λ _ _ _ _. Unit {0} };

    ghost lasts = { λ _ _ _ _ _. tt };

    fn run(self, _value: &mut Log) -> (Option<u64>, Pass<Log>) {
        let Tries { turn, mut pass } = self;
        let tried = turn.try_with(&mut pass, Add(9));
        (word_of(tried), pass)
    }
}

fn word_of(tried: Result<(), Busy<Add>>) -> Option<u64> {
    match tried {
        Ok(()) => None,
        Err(Busy { section: _, word }) => Some(word),
    }
}

// A turn over a log without entries, with two passes. The log has room for all entries of a test.
fn two_passes(alloc: Global) -> Option<(Turn<Log>, Pass<Log>, Pass<Log>)>
    ensures { IfSome result (λ t. IsPassOf t.0 t.1 × IsPassOf t.0 t.2) }
{
    let log = Log {
        entries: Vec::with_capacity(alloc, 20_000).ok()?,
    };
    let (turn, mut passes) = match Turn::new(alloc, log, 2) {
        Ok(made) => made,
        Err(TurnFault { value: _ }) => return None,
    };
    let second = passes.pop()?;
    let first = passes.pop()?;
    Some((turn, first, second))
}

// The same, after one entry of the first pass.
fn two_passes_and_an_entry<R: Wait>(
    rt: &R,
    alloc: Global,
) -> Option<(Turn<Log>, Pass<Log>, Pass<Log>)>
    ensures { IfSome result (λ t. IsPassOf t.0 t.1 × IsPassOf t.0 t.2) }
{
    let (turn, mut first, second) = two_passes(alloc)?;
    turn.with(rt, &mut first, Add(1));
    Some((turn, first, second))
}

fn add_often<R: Wait>(
    rt: &R,
    turn: &Turn<Log>,
    mut pass: Pass<Log>,
    caller: u32,
    times: u32,
) -> Pass<Log>
    requires { IsPassOf turn.now pass }
    ensures { IsPassOf turn.now result }
{
    for _ in 0..times {
        turn.with(rt, &mut pass, Add(caller));
    }
    pass
}

fn count_of(log: &Log, caller: u32) -> usize {
    log.entries.iter().filter(|by| **by == caller).count()
}

fn both_add<R: Threads + Wait + Sync>(
    rt: &R,
    turn: &Turn<Log>,
    first: Pass<Log>,
    second: Pass<Log>,
) -> Pass<Log>
    requires { IsPassOf turn.now first × IsPassOf turn.now second }
    ensures { IsPassOf turn.now result }
{
    let (mut first, second) = thread::join(
        rt,
        move ||
            requires { IsPassOf turn.now first }
            ensures { IsPassOf turn.entry.now result }
        { add_often(rt, turn, first, 1, 10_000) },
        move ||
            requires { IsPassOf turn.now second }
            ensures { IsPassOf turn.entry.now result }
        { add_often(rt, turn, second, 2, 10_000) },
    );
    turn.join(&mut first, second);
    first
}

// A log with one entry, behind a turn or handed back for want of memory.
fn log_of_a_turn(alloc: Global) -> Result<Option<Log>, AllocError> {
    let mut log = Log {
        entries: Vec::new(alloc),
    };
    log.entries.push(7)?;
    match Turn::new(alloc, log, 1) {
        Ok((turn, mut passes)) => match passes.pop() {
            Some(pass) => Ok(turn.close(pass).ok()),
            None => Ok(None),
        },
        Err(TurnFault { value }) => Ok(Some(value)),
    }
}

// `rt try --test --fail-alloc N` refuses the memory of `new`.
#[test]
fn a_turn_hands_its_value_back_at_the_end_and_for_want_of_memory(
    rt: HostRuntime,
) -> Result<(), Fail> {
    let Some(log) = log_of_a_turn(rt.alloc())? else {
        panic!(rt; "a pass is out")
    };
    assert_eq!(rt; log.entries.as_slice(), [7].as_slice());
    Ok(())
}

#[test]
fn two_threads_make_ten_thousand_sections_each(rt: HostRuntime) -> Result<(), Fail> {
    let Some((turn, first, second)) = two_passes(rt.alloc()) else {
        panic!(rt; "no memory")
    };
    let all = both_add(&rt, &turn, first, second);
    let Ok(log) = turn.close(all) else {
        panic!(rt; "a pass is out")
    };
    assert_eq!(rt; log.entries.len(), 20_000);
    assert_eq!(rt; count_of(&log, 1), 10_000);
    assert_eq!(rt; count_of(&log, 2), 10_000);
    Ok(())
}

#[test]
fn a_try_within_a_section_is_busy_with_an_odd_word(rt: HostRuntime) -> Result<(), Fail> {
    let Some((turn, mut first, second)) = two_passes_and_an_entry(&rt, rt.alloc()) else {
        panic!(rt; "no memory")
    };
    let tries = Tries {
        turn: &turn,
        pass: second,
    };
    let (word, mut second) = turn.with(&rt, &mut first, tries);
    assert_eq!(rt; word, Some(3));
    assert_eq!(rt; word_of(turn.try_with(&mut second, Add(2))), None);
    assert_eq!(rt; turn.count(&mut first), 2);
    Ok(())
}

#[test]
fn a_pass_that_is_not_joined_keeps_the_turn_open(rt: HostRuntime) -> Result<(), Fail> {
    let Some((turn, first, second)) = two_passes_and_an_entry(&rt, rt.alloc()) else {
        panic!(rt; "no memory")
    };
    let Err(
        PassesOut {
            turn,
            mut pass,
            out,
        },
    ) = turn.close(first)
    else {
        panic!(rt; "closed over a pass that is out")
    };
    assert_eq!(rt; out, 1);
    turn.join(&mut pass, second);
    let Ok(log) = turn.close(pass) else {
        panic!(rt; "a pass is out")
    };
    assert_eq!(rt; log.entries.as_slice(), [1].as_slice());
    Ok(())
}
