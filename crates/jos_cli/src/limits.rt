//! The numbers that the words of commands give, and the limits of these words.

ghost use Rattle.std.specs.Prelude.{◌≡◌, ◌<◌, ◌≤◌, ◌^◌, None, IfSome};
ghost use Rattle.jos_base.specs.declared.numbers.TheConstants.{FRAMES_MIN, FRAMES_MAX};
ghost use Rattle.fs_layout.specs.declared.numbers.TheConstants.{MAXBLOCKS};
ghost use Rattle.jos_words.specs.Arguments.{texts};
ghost use Rattle.jos_words.specs.Commands.{exo_in_bytes, run_in_bytes};
ghost use Rattle.jos_cli.specs.Commands.{texts_of};
ghost use Rattle.jos_cli.specs.Limits.{place_out, out_of, earlier, numbers_of_exo, numbers_of_run, numbers_out, AreWithin};
ghost use Rattle.jos_cli.specs.Limits.{limit_of_words, limit_of_run, limit_of_blocks, limit_of_seed};
ghost use Rattle.jos_cli.specs.Stages.{settings_of, IsOfWords, MayRun};

use crate::outcome::Which;
use fs_layout::{MAXBLOCKS, MINBLOCKS};
use jos_base::{FRAMES, FRAMES_MAX, FRAMES_MIN, IMAGES_MAX, STEPS, STEPS_MAX, TRACE_MAX};
use jos_words::{ExoWords, NumberAt, RunWords};
use lib_spawn::fits_stack;

/// The greatest seed of `gen`; the least is 1.
pub(crate) const SEED_MAX: u32 = 4_294_967_295;

/// The numbers that words give of a run.
#[derive(Clone, Copy)]
pub(crate) struct Numbers {
    frames: Option<NumberAt>,
    steps: Option<NumberAt>,
    trace: Option<NumberAt>,
}

pub(crate) fn numbers_of_exo(words: &ExoWords) -> Numbers
    ensures { result ≡ numbers_of_exo (exo_in_bytes words.now) }
{
    Numbers {
        frames: words.frames,
        steps: words.steps,
        trace: words.trace,
    }
}

pub(crate) fn numbers_of_run(words: &RunWords) -> Numbers
    ensures { result ≡ numbers_of_run (run_in_bytes words.now) }
{
    Numbers {
        frames: words.frames,
        steps: words.steps,
        trace: words.trace,
    }
}

/// The place of a number that is out of its range.
fn place_out(least: u64, most: u64, number: Option<NumberAt>) -> Option<usize>
    ensures { result ≡ place_out least most number }
{
    match number {
        None => None,
        Some(number) => {
            if number.value < least as u128 || number.value > most as u128 {
                Some(number.place)
            } else {
                None
            }
        }
    }
}

/// The number that is out of its range, by its place.
fn out_of(which: Which, least: u64, most: u64, number: Option<NumberAt>) -> Option<(usize, Which)>
    ensures out { result ≡ out_of which least most number }
    ensures which { IfSome result (λ out. out.1 ≡ which) }
{
    match place_out(least, most, number) {
        None => None,
        Some(place) => Some((place, which)),
    }
}

/// Of two numbers that are out of range, the one that stands first.
fn earlier(a: Option<(usize, Which)>, b: Option<(usize, Which)>) -> Option<(usize, Which)>
    ensures earlier { result ≡ earlier a b }
    ensures of_words { IfSome a (λ out. IsOfWords out.1) → IfSome b (λ out. IsOfWords out.1) → IfSome result (λ out. IsOfWords out.1) }
{
    match (a, b) {
        (None, b) => b,
        (Some(a), None) => Some(a),
        (Some(a), Some(b)) => { if b.0 < a.0 { Some(b) } else { Some(a) } }
    }
}

/// The first number that is out of its range, by its place.
fn numbers_out(numbers: Numbers) -> Option<(usize, Which)>
    ensures out { result ≡ numbers_out numbers }
    ensures of_words { IfSome result (λ out. IsOfWords out.1) }
    ensures within { result ≡ None → AreWithin numbers }
{
    let frames = out_of(
        Which::Frames,
        FRAMES_MIN as u64,
        FRAMES_MAX as u64,
        numbers.frames,
    );
    let steps = out_of(Which::Steps, 1, STEPS_MAX, numbers.steps);
    let trace = out_of(Which::Trace, 0, TRACE_MAX as u64, numbers.trace);
    earlier(earlier(frames, steps), trace)
}

/// The first limit that the words of `exo` pass.
#[tactic(auto, unfolding(crate::specs::Limits::limit_of_words))]
pub(crate) fn limit_of_words(words: &ExoWords) -> Option<Which>
    ensures limit { result ≡ limit_of_words (exo_in_bytes words.now) }
    ensures of_words { IfSome result IsOfWords }
    ensures within { result ≡ None → AreWithin (numbers_of_exo (exo_in_bytes words.now)) }
{
    match numbers_out(numbers_of_exo(words)) {
        Some((_, which)) => Some(which),
        None => {
            if words.images.len() > IMAGES_MAX {
                Some(Which::Images)
            } else {
                None
            }
        }
    }
}

/// The first limit that the words of `run` pass, of which these are the texts.
#[tactic(auto, unfolding(crate::specs::Limits::limit_of_run))]
pub(crate) fn limit_of_run(words: &RunWords, arguments: &[&str]) -> Option<Which>
    requires texts { texts arguments.now ≡ texts_of (run_in_bytes words.now) }
    ensures limit { result ≡ limit_of_run (run_in_bytes words.now) }
    ensures of_words { IfSome result IsOfWords }
    ensures within { result ≡ None → MayRun (run_in_bytes words.now) (texts arguments.now) }
{
    match numbers_out(numbers_of_run(words)) {
        Some((_, which)) => Some(which),
        None => {
            if fits_stack(arguments) {
                None
            } else {
                Some(Which::Args)
            }
        }
    }
}

/// The limit that the number of a disk's blocks passes.
pub(crate) fn limit_of_blocks(blocks: NumberAt) -> Option<Which>
    ensures limit { result ≡ limit_of_blocks blocks }
    ensures most { result ≡ None → blocks.value ≤ MAXBLOCKS }
{
    if blocks.value < MINBLOCKS as u128 || blocks.value > MAXBLOCKS as u128 {
        Some(Which::Blocks)
    } else {
        None
    }
}

/// The limit that the seed of `gen` passes.
pub(crate) fn limit_of_seed(seed: NumberAt) -> Option<Which>
    ensures limit { result ≡ limit_of_seed seed }
    ensures kind { IfSome result (λ which. which ≡ Which.Seed) }
    ensures most { result ≡ None → seed.value < 2 ^ 32 }
{
    if seed.value < 1 || seed.value > SEED_MAX as u128 {
        Some(Which::Seed)
    } else {
        None
    }
}

/// The numbers of a run.
#[derive(Clone, Copy)]
pub(crate) struct Settings {
    pub(crate) frames: u32,
    /// The most steps.
    pub(crate) steps: u64,
    /// How many of the last traps are told.
    pub(crate) trace: u32,
}

/// The numbers that words give or leave.
pub(crate) fn settings_of(numbers: Numbers) -> Settings
    requires { AreWithin numbers }
    ensures settings { result ≡ settings_of numbers }
    ensures least { FRAMES_MIN ≤ result.frames }
    ensures most { result.frames ≤ FRAMES_MAX }
{
    Settings {
        frames: match numbers.frames {
            None => FRAMES,
            Some(number) => number.value as u32,
        },
        steps: match numbers.steps {
            None => STEPS,
            Some(number) => number.value as u64,
        },
        trace: match numbers.trace {
            None => 0,
            Some(number) => number.value as u32,
        },
    }
}
