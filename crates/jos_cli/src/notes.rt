//! The notes: the traps that are told, and the line that tells the answer.

ghost use Rattle.std.specs.Prelude.{◌≡◌, ◌≤◌, [], ◌++◌, codes, decimal, length, slice_get, unwrap_or, MatchResult};
ghost use Rattle.jos_host.specs.Told.{Appends};
ghost use Rattle.jos_host.specs.Frames.{around};
ghost use Rattle.jos_host.specs.Gains.{Gains, GainsPart};
ghost use Rattle.jos_words.specs.Arguments.{texts};
ghost use Rattle.jos_cli.specs.Notes.{end_text, report_text, limit_text, bad_schedule_text, bad_image_text, made_text, note_text};
ghost use Rattle.jos_cli.specs.Notes.{bad_disk_text, not_there_text, bad_make_text};
ghost use Rattle.jos_cli.specs.Notes.{word_in_note, trace_text, traps_told, note_of};
ghost use Rattle.jos_cli.specs.FilesAsked.{AsksNote};
ghost use Rattle.jos_cli.specs.Outside.{outside};
ghost use Rattle.jos_cli.specs.Effects.{WritesNotes};

use crate::outcome::{End, Outcome, Report, Trace, Which};
use fs_image::ImageFault;
use fs_make::MakeFault;
use jos_base::{EnvId, Errno, LINE_MAX, LineText, push_decimal, push_text, trace_line};
use jos_elf::ElfFault;
use jos_host::{Failed, Host};
use jos_sched::ScheduleFault;

/// How a run has ended.
fn end_text(end: End) -> &'static [u8]
    ensures { result.now ≡ end_text end }
{
    match end {
        End::Done => b"done",
        End::Stuck => b"stuck",
        End::Budget => b"budget",
        End::TurnsFull => b"turns full",
    }
}

/// The line of a run that is over: its end and its counts.
#[tactic(auto, unfolding(crate::specs::Notes::report_text))]
fn report_text(report: &Report) -> LineText
    ensures { result.items ≡ report_text report.now }
{
    let mut line = LineText::new();
    push_text(&mut line, end_text(report.end));
    push_text(&mut line, b" steps ");
    push_decimal(&mut line, report.steps);
    push_text(&mut line, b" turns ");
    push_decimal(&mut line, report.turns.len() as u64);
    push_text(&mut line, b" refused ");
    push_decimal(&mut line, report.refused);
    push_text(&mut line, b" upcalls ");
    push_decimal(&mut line, report.upcalls);
    push_text(&mut line, b"\n");
    line
}

/// A line of one text.
fn text_line(text: &[u8]) -> LineText
    requires { length text.now ≤ LINE_MAX }
    ensures { result.items ≡ text.now }
{
    let mut line = LineText::new();
    push_text(&mut line, text);
    line
}

fn limit_text(which: Which) -> &'static [u8]
    ensures text { result.now ≡ limit_text which }
    ensures len { length result.now ≤ LINE_MAX }
{
    match which {
        Which::Frames => b"limit: frames\n",
        Which::Steps => b"limit: steps\n",
        Which::Trace => b"limit: trace\n",
        Which::Images => b"limit: images\n",
        Which::Schedule => b"limit: schedule\n",
        Which::Image => b"limit: image\n",
        Which::Input => b"limit: input\n",
        Which::Boot => b"limit: boot\n",
        Which::Blocks => b"limit: blocks\n",
        Which::File => b"limit: file\n",
        Which::Args => b"limit: args\n",
        Which::Seed => b"limit: seed\n",
    }
}

/// A line of a text and a place.
fn place_text(text: &[u8], place: u32) -> LineText
    requires { length text.now ≤ 64 }
    ensures { result.items ≡ text.now ++ decimal place ++ codes "\n" }
{
    let mut line = text_line(text);
    push_decimal(&mut line, place as u64);
    push_text(&mut line, b"\n");
    line
}

fn bad_schedule_text(fault: ScheduleFault) -> LineText
    ensures { result.items ≡ bad_schedule_text fault }
{
    match fault {
        ScheduleFault::NotANumber(place) => place_text(b"schedule: not a number ", place),
        ScheduleFault::Zero(place) => place_text(b"schedule: zero ", place),
        ScheduleFault::TooBig(place) => place_text(b"schedule: too big ", place),
        ScheduleFault::TooMany => text_line(b"schedule: too many\n"),
        ScheduleFault::NoMemory => text_line(b"schedule: out of memory\n"),
    }
}

fn bad_image_text(fault: ElfFault) -> LineText
    ensures { result.items ≡ bad_image_text fault }
{
    let mut line = text_line(b": bad image: ");
    push_text(&mut line, fault.text().as_str().as_bytes());
    push_text(&mut line, b"\n");
    line
}

fn made_text(bytes: u64) -> LineText
    ensures { result.items ≡ made_text bytes }
{
    let mut line = text_line(b"made ");
    push_decimal(&mut line, bytes);
    push_text(&mut line, b"\n");
    line
}

fn bad_disk_text(fault: ImageFault) -> LineText
    ensures { result.items ≡ bad_disk_text fault }
{
    let mut line = text_line(b"bad disk: ");
    push_text(&mut line, fault.text().as_str().as_bytes());
    push_text(&mut line, b"\n");
    line
}

fn not_there_text(errno: Errno) -> LineText
    ensures { result.items ≡ not_there_text errno }
{
    let mut line = text_line(b"not there: ");
    push_decimal(&mut line, errno.code() as u64);
    push_text(&mut line, b"\n");
    line
}

fn bad_make_text(fault: MakeFault) -> LineText
    ensures { result.items ≡ bad_make_text fault }
{
    let mut line = text_line(b"cannot make: ");
    push_text(&mut line, fault.text().as_str().as_bytes());
    push_text(&mut line, b"\n");
    line
}

/// The line, but for the word that begins it.
fn note_text(outcome: &Outcome) -> LineText
    ensures { result.items ≡ note_text outcome.now }
{
    match outcome {
        Outcome::Ran(report, _) => report_text(report),
        Outcome::Usage => text_line(b"usage: jos COMMAND [OPTIONS] WORDS\n"),
        Outcome::Absent(_) => text_line(b": absent\n"),
        Outcome::Limit(which) => text_line(limit_text(*which)),
        Outcome::BadSchedule(fault) => bad_schedule_text(*fault),
        Outcome::BadImage(_, fault) => bad_image_text(*fault),
        Outcome::HostFault(_) => text_line(b"host fault\n"),
        Outcome::NoMemory => text_line(b"out of memory\n"),
        Outcome::Made(bytes) => made_text(*bytes),
        Outcome::BadDisk(fault) => bad_disk_text(*fault),
        Outcome::NotThere(errno) => not_there_text(*errno),
        Outcome::BadMake(fault) => bad_make_text(*fault),
    }
}

/// The word that begins the line, or nothing.
fn word_in_note<'a>(words: &[&'a str], outcome: &Outcome) -> &'a str
    ensures { result.now ≡ word_in_note (texts words.now) outcome.now }
{
    match outcome {
        Outcome::Absent(word) | Outcome::BadImage(word, _) => word_at(words, *word),
        _ => "",
    }
}

/// The word at a place, or nothing where there are fewer.
fn word_at<'a>(words: &[&'a str], place: usize) -> &'a str
    ensures { result.now ≡ unwrap_or (slice_get (texts words.now) place) [] }
{
    match words.get(place) {
        Some(text) => *text,
        None => "",
    }
}

/// Writes some bytes to the notes, by no call where there are none.
fn write_some<H: Host>(host: &mut H, bytes: &[u8]) -> Result<(), Failed>
    ensures told { Appends (H.notes host.old) bytes.now result (H.notes host.new) }
    ensures did { WritesNotes result (outside H.Host host.old host.new) }
{
    if bytes.is_empty() {
        return Ok(());
    }
    host.note_write(bytes)
}

/// Writes a line for each of these traps to the notes.
fn write_trace<H: Host>(trace: &Trace, host: &mut H) -> Result<(), Failed>
    ensures told { MatchResult result
        (λ _. Gains (around H.notes host.old host.new) (trace_text trace.now.items))
        (λ _. GainsPart (around H.notes host.old host.new) (trace_text trace.now.items)) }
    ensures did { WritesNotes result (outside H.Host host.old host.new) }
{
    for place in 0..trace.len() {
        if let Some(trap) = trace.get(place) {
            let line = trace_line(EnvId(trap.id), trap.trap, trap.error, trap.va, trap.ip);
            match host.note_write(line.as_slice()) {
                Ok(()) => {}
                Err(failed) => return Err(failed),
            }
        }
    }
    Ok(())
}

/// Writes the traps that an outcome tells.
fn write_traps<H: Host>(outcome: &Outcome, host: &mut H) -> Result<(), Failed>
    ensures told { MatchResult result
        (λ _. Gains (around H.notes host.old host.new) (traps_told outcome.now))
        (λ _. GainsPart (around H.notes host.old host.new) (traps_told outcome.now)) }
    ensures did { WritesNotes result (outside H.Host host.old host.new) }
{
    match outcome {
        Outcome::Ran(_, trace) => write_trace(trace, host),
        _ => Ok(()),
    }
}

/// Writes the notes of an outcome.
pub(crate) fn write_note<H: Host>(
    outcome: &Outcome,
    words: &[&str],
    host: &mut H,
) -> Result<(), Failed>
    ensures told { MatchResult result
        (λ _. Gains (around H.notes host.old host.new) (note_of (texts words.now) outcome.now))
        (λ _. GainsPart (around H.notes host.old host.new) (note_of (texts words.now) outcome.now)) }
    // One call at least is made for it.
    ensures asked { AsksNote (around H.asked host.old host.new) }
    ensures did { WritesNotes result (outside H.Host host.old host.new) }
{
    match write_some(host, word_in_note(words, outcome).as_bytes()) {
        Ok(()) => {}
        Err(failed) => return Err(failed),
    }
    match write_traps(outcome, host) {
        Ok(()) => host.note_write(note_text(outcome).as_slice()),
        Err(failed) => Err(failed),
    }
}
