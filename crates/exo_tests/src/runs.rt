//! Runs of the kernel, over a host that is all in memory.

ghost use Rattle.std.specs.Prelude.{◌≡◌, ◌^◌, ◌<◌, length, IfOk};
ghost use Rattle.jos_kernel.specs.Kernel.{Holds};

use crate::codes::code_of;
use anyhow::{Context, bail, ensure};
use jos_base::{FRAMES_MIN, UTEXT};
use jos_elf::{Part, parse, write};
use jos_host::MemHost;
use jos_kernel::{End, ExoEnd, Kernel, Report, Trace, exo_run};
use jos_sched::{Schedule, parse_schedule};
use std::alloc::Global;
use test_cases::{Bench, Shown, number};

/// What is run: two codes, so many steps at most, by a schedule. So many traps are kept.
#[derive(Drop)]
struct TriedRun {
    codes: (&'static [u8], &'static [u8]),
    steps: u32,
    trace: u32,
    schedule: Schedule,
}

impl TriedRun {
    /// What words say: the names of two codes, two numbers, and behind a stroke the schedule.
    fn of(alloc: Global, words: &str) -> anyhow::Result<TriedRun> {
        let (words, schedule) = words.split_once(" | ").context("no schedule")?;
        let mut words = words.split_whitespace();
        let first = words.next().and_then(code_of).context("no first code")?;
        let second = words.next().and_then(code_of).context("no second code")?;
        let steps = words.next().and_then(number).context("no number of steps")?;
        let trace = words.next().and_then(number).context("no number of traps")?;
        let schedule = schedule.as_bytes();
        ensure!(schedule.len() < 1 << 32, "a long schedule");
        match parse_schedule(alloc, schedule) {
            Ok(schedule) => Ok(TriedRun {
                codes: (first, second),
                steps,
                trace,
                schedule,
            }),
            Err(fault) => bail!("{fault}"),
        }
    }
}

/// What a run has come to.
#[derive(Drop)]
struct RunResult {
    report: Report,
    trace: Trace,
    console: Vec<u8>,
}

/// The file of an image with this code.
fn file_of(alloc: Global, code: &[u8]) -> anyhow::Result<Vec<u8>>
    ensures { IfOk result (λ file. length file.items < 2 ^ 32) }
{
    ensure!(0 < code.len() && code.len() < 256, "{} bytes", code.len());
    let part = Part {
        va: UTEXT + 0x20,
        at: 0,
        len: code.len() as u32,
        mem_len: code.len() as u32,
        writable: false,
    };
    match write(alloc, UTEXT + 0x20, &[part], code) {
        Ok(file) => Ok(file),
        Err(_) => bail!("no memory"),
    }
}

/// Boots two images that have the codes, with no input, in 64 frames.
fn boot(alloc: Global, plan: TriedRun) -> anyhow::Result<Kernel>
    ensures holds { IfOk result Holds }
    ensures steps { IfOk result (λ kernel. kernel.book.steps ≡ 0) }
{
    let first = file_of(alloc, plan.codes.0)?;
    let second = file_of(alloc, plan.codes.1)?;
    let image = match parse(&first) {
        Ok(image) => image,
        Err(_) => bail!("no image"),
    };
    let other = match parse(&second) {
        Ok(image) => image,
        Err(_) => bail!("no image"),
    };
    let booted = Kernel::boot(
        alloc,
        &[image, other],
        &[first, second],
        FRAMES_MIN,
        Vec::new(alloc),
        plan.schedule,
        plan.trace,
    );
    match booted {
        Ok(kernel) => Ok(kernel),
        Err(fault) => bail!("{fault:?}"),
    }
}

/// A host without files and input, at which no call fails.
fn silent_host(alloc: Global) -> MemHost {
    MemHost::new(alloc, Vec::new(alloc), Vec::new(alloc), Vec::new(alloc))
}

impl RunResult {
    /// A run that is over, or whose steps are made.
    fn finished(
        alloc: Global,
        kernel: Kernel,
        host: &MemHost,
        end: End,
    ) -> anyhow::Result<RunResult>
        requires { Holds kernel }
    {
        let console = Vec::from_slice(alloc, host.console())?;
        let (report, trace) = kernel.finish(end);
        Ok(RunResult {
            report,
            trace,
            console,
        })
    }

    /// Runs a plan to its end.
    fn whole(alloc: Global, words: &str) -> anyhow::Result<RunResult> {
        let plan = TriedRun::of(alloc, words)?;
        let steps = plan.steps as u64;
        let mut host = silent_host(alloc);
        let mut kernel = boot(alloc, plan)?;
        ensure!(kernel.ended().is_none(), "no first step");
        match exo_run(&mut kernel, &mut host, steps) {
            ExoEnd::HostFault => bail!("the host failed"),
            ExoEnd::Ended(end) => RunResult::finished(alloc, kernel, &host, end),
        }
    }

    /// Makes the first turn of a plan. The number of its steps is told too.
    fn first_turn(alloc: Global, words: &str) -> anyhow::Result<(RunResult, u64)> {
        let plan = TriedRun::of(alloc, words)?;
        let steps = plan.steps as u64;
        let mut host = silent_host(alloc);
        let mut kernel = boot(alloc, plan)?;
        match kernel.ended() {
            None if 0 < steps => match kernel.turn(&mut host, steps) {
                Ok(made) => Ok((
                    RunResult::finished(alloc, kernel, &host, End::Budget)?,
                    made,
                )),
                Err(_) => bail!("the host failed"),
            },
            _ => bail!("no first turn"),
        }
    }

    /// Makes the first step of a plan.
    fn first_step(alloc: Global, words: &str) -> anyhow::Result<RunResult> {
        let plan = TriedRun::of(alloc, words)?;
        let mut host = silent_host(alloc);
        let mut kernel = boot(alloc, plan)?;
        match kernel.ended() {
            None => match kernel.step(&mut host) {
                Ok(()) => RunResult::finished(alloc, kernel, &host, End::Budget),
                Err(_) => bail!("the host failed"),
            },
            Some(end) => bail!("{end:?}"),
        }
    }

    /// The slots of the turns.
    fn slots(&self, alloc: Global) -> anyhow::Result<Shown> {
        let mut slots = Vec::new(alloc);
        for turn in &self.report.turns {
            slots.push(turn.slot as u32)?;
        }
        Ok(Shown::Words(slots))
    }

    /// The steps of the turns that the abstract system makes too.
    fn visible_steps(&self, alloc: Global) -> anyhow::Result<Shown> {
        let mut steps = Vec::new(alloc);
        for turn in &self.report.turns {
            steps.push(turn.visible)?;
        }
        Ok(Shown::Words(steps))
    }

    /// A trap's environment, number, error code, address and instruction.
    fn trap(&self, alloc: Global, place: usize) -> anyhow::Result<Shown> {
        match self.trace.get(place) {
            Some(line) => {
                let words = [line.id, line.trap as u32, line.error, line.va, line.ip];
                Ok(Shown::words(alloc, &words)?)
            }
            None => Ok(Shown::Nothing),
        }
    }

    /// What is asked of a run.
    fn answer(&self, alloc: Global, what: &str) -> anyhow::Result<Shown> {
        match what {
            "steps" => Ok(Shown::Count(self.report.steps)),
            "turns" => Ok(Shown::Count(self.report.turns.len() as u64)),
            "slots" => self.slots(alloc),
            "visible_steps" => self.visible_steps(alloc),
            "upcalls" => Ok(Shown::Count(self.report.upcalls)),
            "traps" => Ok(Shown::Count(self.trace.len() as u64)),
            "first_trap" => self.trap(alloc, 0),
            "second_trap" => self.trap(alloc, 1),
            "console" => Ok(Shown::Text(format!(in alloc; "{:?}", self.console)?)),
            _ => bail!("{what} is not told of a run"),
        }
    }
}

/// The last run, if a plan was run.
#[derive(Drop)]
pub(crate) struct RunBench {
    run: Option<RunResult>,
}

impl Bench for RunBench {
    fn of(_alloc: Global, line: &str) -> anyhow::Result<RunBench> {
        match line {
            "runs" => Ok(RunBench { run: None }),
            _ => bail!("{line} is not tried"),
        }
    }

    fn answer(&mut self, alloc: Global, what: &str, words: &str) -> anyhow::Result<Shown> {
        match what {
            "run" => {
                let run = RunResult::whole(alloc, words)?;
                let end = run.report.end;
                self.run = Some(run);
                Ok(Shown::Text(format!(in alloc; "{end:?}")?))
            }
            "turn" => {
                let (run, made) = RunResult::first_turn(alloc, words)?;
                self.run = Some(run);
                Ok(Shown::Count(made))
            }
            "step" => {
                self.run = Some(RunResult::first_step(alloc, words)?);
                Ok(Shown::Nothing)
            }
            _ => match &self.run {
                Some(run) => run.answer(alloc, what),
                None => bail!("no run"),
            },
        }
    }
}
