//! What only an outcome tells: turns, the first refusal, and the places of words.

use crate::hosts::{ask, disk_with, disk_with_both, holds, host_of, same_bytes};
use crate::images::{FILLS, FORKS_AND_SYNCS, HI, JUMPS, PRINTS, REMOVES, SYNCS};
use jos_cli::{Outcome, Refusal, Turn};
use std::alloc::{AllocError, Global};
use std::process::Abort;
use std::test::Fail;

/// The turns of a run.
fn turns_of(outcome: &Outcome) -> &[Turn] {
    match outcome {
        Outcome::Ran(report, _) => &report.turns,
        _ => &[],
    }
}

/// Ends the test where these are not four turns of slot 0, of three visible steps and then of one.
fn check_budget_turns(rt: &impl Abort, turns: &[Turn]) {
    let turn = |visible| Turn {
        slot: 0,
        visible,
        hidden: 0,
    };
    assert_eq!(rt; turns, [turn(3), turn(3), turn(3), turn(1)].as_slice());
}

#[test]
fn the_last_turn_has_what_is_left_of_the_budget(rt: HostRuntime) -> Result<(), Fail> {
    let mut host = host_of(rt.alloc(), &[("h", &JUMPS), ("s", b"3")], &[])?;
    let words = ["exo", "--steps", "10", "h", "--schedule=s"];
    let outcome = ask(rt.alloc(), &words, &mut host);
    check_budget_turns(&rt, turns_of(&outcome));
    Ok(())
}

/// Ends the test where these are not a turn of the server, with a step that nobody sees and one that is seen, and one of the program.
fn check_first_turns(rt: &impl Abort, turns: &[Turn]) {
    let server = Turn {
        slot: 0,
        visible: 1,
        hidden: 1,
    };
    let program = Turn {
        slot: 1,
        visible: 10,
        hidden: 35,
    };
    assert_eq!(rt; turns, [server, program].as_slice());
}

#[test]
fn the_first_turn_of_a_run_is_the_servers(rt: HostRuntime) -> Result<(), Fail> {
    let disk = disk_with(rt.alloc(), "h", &PRINTS)?;
    let mut host = host_of(rt.alloc(), &[("d", disk.as_slice())], &[])?;
    let outcome = ask(rt.alloc(), &["run", "d", "h"], &mut host);
    check_first_turns(&rt, turns_of(&outcome));
    Ok(())
}

/// A turn of a slot, with so many steps that are seen and so many that are not.
fn turn_of(slot: u16, visible: u32, hidden: u32) -> Turn {
    Turn {
        slot,
        visible,
        hidden,
    }
}

/// Ends the test where these are not the turns of a program that asks for sync and ends: the server makes ready; the program asks and
/// waits; the server looks at 64 regions, acts, replies and makes ready; and the program is answered and ends.
fn check_turns_of_sync(rt: &impl Abort, turns: &[Turn]) {
    let wanted = [
        turn_of(0, 1, 1),
        turn_of(1, 4, 1),
        turn_of(0, 3, 67),
        turn_of(1, 6, 35),
    ];
    assert_eq!(rt; turns, wanted.as_slice());
}

#[test]
fn the_file_server_has_a_turn_for_a_request(rt: HostRuntime) -> Result<(), Fail> {
    let disk = disk_with(rt.alloc(), "h", &SYNCS)?;
    let mut host = host_of(rt.alloc(), &[("d", disk.as_slice())], &[])?;
    let outcome = ask(rt.alloc(), &["run", "d", "h"], &mut host);
    check_turns_of_sync(&rt, turns_of(&outcome));
    Ok(())
}

/// How many steps of a slot are seen in these turns, and how many are not.
fn steps_of(turns: &[Turn], slot: u16) -> (u32, u32) {
    let (mut visible, mut hidden) = (0u32, 0u32);
    for turn in turns {
        if turn.slot == slot {
            visible = visible.saturating_add(turn.visible);
            hidden = hidden.saturating_add(turn.hidden);
        }
    }
    (visible, hidden)
}

/// Ends the test where the server has not made 70 steps for each of two requests, six of them seen, or where the second of the two who
/// ask has not tried in vain 35 times, with a step that gives up the turn behind each.
fn check_steps_of_two(rt: &impl Abort, turns: &[Turn]) {
    assert_eq!(rt; steps_of(turns, 0), (7, 135));
    assert_eq!(rt; steps_of(turns, 1), (14, 4138));
    assert_eq!(rt; steps_of(turns, 2), (10, 36));
}

// Behind the fork each turn has one step.
#[test]
fn two_ask_the_file_server_at_once(rt: HostRuntime) -> Result<(), Fail> {
    let disk = disk_with(rt.alloc(), "h", &FORKS_AND_SYNCS)?;
    let files: [(&str, &[u8]); 2] = [("d", disk.as_slice()), ("s", b"2 4036 1")];
    let mut host = host_of(rt.alloc(), &files, &[])?;
    let outcome = ask(rt.alloc(), &["run", "--schedule=s", "d", "h"], &mut host);
    check_steps_of_two(&rt, turns_of(&outcome));
    Ok(())
}

/// How many steps of the server's a run has behind its turns.
fn closing_of(outcome: &Outcome) -> Option<u32> {
    match outcome {
        Outcome::Ran(report, _) => Some(report.closing),
        _ => None,
    }
}

/// The byte at a place of the disk behind the removal: the file's block is free, and its record is empty and names none.
fn byte_behind(place: usize, byte: u8) -> u8 {
    match place {
        0x2000 => 0xe0,
        0x3100 | 0x3180 | 0x3188 => 0,
        _ => byte,
    }
}

/// What becomes of the disk.
fn disk_behind(alloc: Global, disk: &[u8]) -> Result<Vec<u8>, AllocError> {
    let mut behind = Vec::new(alloc);
    for (place, byte) in disk.iter().enumerate() {
        behind.push(byte_behind(place, *byte))?;
    }
    Ok(behind)
}

/// Ends the test where a run of so many steps at most does not have so many behind its turns, or leaves another disk.
fn check_closing(
    rt: &impl Abort,
    alloc: Global,
    steps: &str,
    disk: &[u8],
    closing: u32,
    left: &[u8],
) -> Result<(), AllocError> {
    let mut host = host_of(alloc, &[("d", disk)], &[])?;
    let outcome = ask(alloc, &["run", "--frames=300", steps, "d", "h"], &mut host);
    holds(rt, closing_of(&outcome) == Some(closing), steps);
    same_bytes(rt, host.file("d").unwrap_or(b""), left, steps);
    Ok(())
}

// Up to the step that asks there are two of the server's, seven of the program's, one that prints the letter, and ten of the service, whose
// path is two bytes that lie in no whole word. From there on the server reads the word and who sent it, looks the file up in 26 steps, looks
// at 1,024 places, removes it in 26 steps, and acts.
#[test]
fn a_file_is_removed_where_it_was_asked_for(rt: HostRuntime) -> Result<(), Fail> {
    let disk = disk_with_both(rt.alloc(), &REMOVES, "f")?;
    let behind = disk_behind(rt.alloc(), &disk)?;
    check_closing(&rt, rt.alloc(), "--steps=19", &disk, 0, &disk)?;
    check_closing(&rt, rt.alloc(), "--steps=20", &disk, 1079, &behind)?;
    check_closing(&rt, rt.alloc(), "--steps=2000", &disk, 0, &behind)?;
    Ok(())
}

/// Whether the outcome tells one refusal, in the turn behind the server's, before anything was printed.
fn is_refused_once(outcome: &Outcome) -> bool {
    match outcome {
        Outcome::Ran(report, _) => {
            report.refused == 1
                && report.first_refused
                    == Some(Refusal {
                        turn: 1,
                        console_len: 0,
                    })
        }
        _ => false,
    }
}

#[test]
fn a_page_that_is_wanted_from_no_frames_is_told(rt: HostRuntime) -> Result<(), Fail> {
    let disk = disk_with(rt.alloc(), "h", &FILLS)?;
    let mut host = host_of(rt.alloc(), &[("d", disk.as_slice()), ("s", b"100000")], &[])?;
    let words = ["run", "--frames=258", "--schedule=s", "d", "h"];
    let outcome = ask(rt.alloc(), &words, &mut host);
    holds(&rt, is_refused_once(&outcome), "fills");
    Ok(())
}

// Words over the image `h`, the file `b`, which is cut off, and the disk `d` with both, and the place of the word that is named.
#[rattlefmt::skip]
static PLACES: [(&[&str], usize); 9] = [
    (&["exo", "b"], 1),
    (&["exo", "h", "b"], 2),
    (&["exo", "--steps=7", "h", "--", "b"], 4),
    (&["exo", "absent"], 1),
    (&["exo", "h", "--schedule", "absent"], 3),
    (&["exo", "h", "--schedule=absent"], 2),
    (&["run", "--", "absent", "b"], 2),
    (&["run", "d", "--", "b", "h"], 3),
    (&["mkfs", "d", "16", "h", "absent"], 4),
];

/// The place of the word that an outcome names.
fn place_of(outcome: &Outcome) -> Option<usize> {
    match outcome {
        Outcome::Absent(place) => Some(*place),
        Outcome::BadImage(place, _) => Some(*place),
        _ => None,
    }
}

fn check_place(
    rt: &impl Abort,
    alloc: Global,
    words: &[&str],
    place: usize,
) -> Result<(), AllocError> {
    let mut host = host_of(alloc, &[("h", &HI), ("b", &HI[..40])], &[])?;
    let _ = ask(alloc, &["mkfs", "d", "16", "h", "b"], &mut host);
    let outcome = ask(alloc, words, &mut host);
    let case = format!(in alloc; "{words:?}")?;
    holds(rt, place_of(&outcome) == Some(place), &case);
    Ok(())
}

#[test]
fn a_file_is_named_by_the_place_of_its_word(rt: HostRuntime) -> Result<(), Fail> {
    for (words, place) in &PLACES {
        check_place(&rt, rt.alloc(), words, *place)?;
    }
    Ok(())
}
