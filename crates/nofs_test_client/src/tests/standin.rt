//! The stand-in for a mount itself.

use nofs_history::{Refusal, Reply, Step, Steps};
use nofs_test_standin::{Told, Transcript};
use std::alloc::Global;
use std::test::Fail;

/// What is replied to a step, in a word.
fn reply_word(told: &mut Told<Transcript<'_>>, step: Step) -> &'static str {
    let reply = told.step(step);
    match &reply {
        Reply::Seen { used: true } => "used",
        Reply::Flushed => "flushed",
        Reply::Refused(Refusal::Stopped) => "stopped",
        _ => "another",
    }
}

// The words of the replies to four steps.
fn reply_words(told: &mut Told<Transcript<'_>>) -> [&'static str; 4] {
    [
        reply_word(told, Step::SeeBlock { block: 24 }),
        reply_word(told, Step::SeeInode { inode: 3 }),
        reply_word(
            told,
            Step::Flush {
                inode: 4,
                generation: 9,
            },
        ),
        reply_word(told, Step::SeeInode { inode: 5 }),
    ]
}

// The same over a stand-in that replies what these lines tell, and whether it notes those.
fn replied(alloc: Global, told: &str, noted: &str) -> ([&'static str; 4], bool) {
    let mut told = Told::new(Transcript::new(alloc, told));
    let words = reply_words(&mut told);
    (words, told.answers.text.as_str() == noted)
}

#[test]
fn replies_come_in_turn_and_one_that_does_not_fit_is_stopped(rt: HostRuntime) -> Result<(), Fail> {
    let told = "block 24 -> used\ninode 3 -> hole\nflush 4/9 -> flushed\n";
    let noted =
        "block 24 -> used\ninode 3 -> hole\nflush 4/9 -> flushed\ninode 5 -> refused Stopped\n";
    let wanted = ["used", "stopped", "flushed", "stopped"];
    assert_eq!(rt; replied(rt.alloc(), told, noted), (wanted, true));
    Ok(())
}
