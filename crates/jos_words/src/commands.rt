//! The commands, and the words that are one.

ghost use Rattle.std.specs.Prelude.{◌≡◌, ◌<◌, IfOk, IfErr, Some, None, length, map, option_map, drop};
ghost use Rattle.jos_words.specs.declared.words.WordsFault.TheVariants.{Usage};
ghost use Rattle.jos_words.specs.Arguments.{word_in_bytes, arguments_in_bytes, texts};
ghost use Rattle.jos_words.specs.Commands.{number_in, placed_number, exo_of, exo_words, run_of, run_words, demo_of, demo_words};
ghost use Rattle.jos_words.specs.Commands.{mkfs_of, mkfs_words, ls_of, ls_words, cat_of, cat_words, gen_of, gen_words, command_of};
ghost use Rattle.jos_words.specs.Commands.{exo_in_bytes, run_in_bytes, demo_in_bytes, mkfs_in_bytes, ls_in_bytes, cat_in_bytes};
ghost use Rattle.jos_words.specs.Commands.{gen_in_bytes, in_bytes};

use crate::arguments::{ReadArguments, value_of};
use crate::clap_commands::{
    cat_command, demo_command, gen_command, ls_command, mkfs_command, running_command,
    take_arguments,
};
use crate::values::{NumberAt, number_of};
use crate::words::{WordAt, WordsFault};
use std::alloc::Global;

/// A command, with what its words say.
#[derive(Drop)]
pub enum CommandWords<'a> {
    /// `exo [--frames N] [--steps N] [--schedule FILE] [--trace N] IMAGE..`: runs images.
    Exo(ExoWords<'a>),
    /// `run [--frames N] [--steps N] [--schedule FILE] [--trace N] DISK PATH [WORD..]`: runs a program of a disk under the
    /// library.
    Run(RunWords<'a>),
    /// `demo NAME FILE`: writes an example program.
    Demo(DemoWords<'a>),
    /// `mkfs DISK BLOCKS [FILE..]`: makes a disk with files.
    Mkfs(MkfsWords<'a>),
    /// `ls DISK [PATH]`: lists what a disk has at a path.
    Ls(LsWords<'a>),
    /// `cat DISK PATH`: writes a file of a disk.
    Cat(CatWords<'a>),
    /// `gen SEED DISK`: makes a disk with the program of a seed, and runs it.
    Gen(GenWords<'a>),
}

/// The words of `exo`.
#[derive(Drop)]
pub struct ExoWords<'a> {
    pub frames: Option<NumberAt>,
    pub steps: Option<NumberAt>,
    pub schedule: Option<WordAt<'a>>,
    pub trace: Option<NumberAt>,
    /// At least one, in the order of the words.
    pub images: Vec<WordAt<'a>>,
}

/// The words of `run`.
#[derive(Drop)]
pub struct RunWords<'a> {
    pub frames: Option<NumberAt>,
    pub steps: Option<NumberAt>,
    pub schedule: Option<WordAt<'a>>,
    pub trace: Option<NumberAt>,
    pub disk: WordAt<'a>,
    /// At least one, in the order of the words: the first is the program's path on the disk, and all of them are the program's.
    pub words: Vec<WordAt<'a>>,
}

/// The words of `demo`. Whether a program has the name is not tested.
#[derive(Clone, Copy)]
pub struct DemoWords<'a> {
    pub name: WordAt<'a>,
    pub file: WordAt<'a>,
}

/// The words of `mkfs`.
#[derive(Drop)]
pub struct MkfsWords<'a> {
    pub disk: WordAt<'a>,
    pub blocks: NumberAt,
    /// In the order of the words.
    pub files: Vec<WordAt<'a>>,
}

/// The words of `ls`.
#[derive(Clone, Copy)]
pub struct LsWords<'a> {
    pub disk: WordAt<'a>,
    pub path: Option<WordAt<'a>>,
}

/// The words of `cat`.
#[derive(Clone, Copy)]
pub struct CatWords<'a> {
    pub disk: WordAt<'a>,
    pub path: WordAt<'a>,
}

/// The words of `gen`.
#[derive(Clone, Copy)]
pub struct GenWords<'a> {
    pub seed: NumberAt,
    pub disk: WordAt<'a>,
}

/// The names of the options of `exo` and `run`.
pub(crate) const RUNNING_OPTIONS: [&str; 4] = ["frames", "steps", "schedule", "trace"];

/// The number that a word is.
fn placed_number<'a>(word: WordAt<'a>) -> Option<NumberAt>
    ensures { result ≡ placed_number (word_in_bytes word.entry) }
{
    let value = number_of(word.text)?;
    Some(NumberAt {
        place: word.place,
        value,
    })
}

/// The number that a value is, where it is there; `None` where it is no number.
fn number_in<'a>(word: Option<WordAt<'a>>) -> Option<Option<NumberAt>>
    ensures { result ≡ number_in (option_map word_in_bytes word.entry) }
{
    match word {
        None => Some(None),
        Some(word) => match placed_number(word) {
            None => None,
            Some(number) => Some(Some(number)),
        },
    }
}

/// The words of `exo`, if these are.
#[tactic(auto, unfolding(crate::specs::Commands::exo_of))]
fn exo_of<'a>(arguments: ReadArguments<'a>) -> Option<ExoWords<'a>>
    ensures { option_map exo_in_bytes result ≡ exo_of (arguments_in_bytes arguments.entry) }
{
    let frames = number_in(value_of("frames", &arguments.options))?;
    let steps = number_in(value_of("steps", &arguments.options))?;
    let schedule = value_of("schedule", &arguments.options);
    let trace = number_in(value_of("trace", &arguments.options))?;
    if arguments.positionals.is_empty() {
        return None;
    }
    Some(ExoWords {
        frames,
        steps,
        schedule,
        trace,
        images: arguments.positionals,
    })
}

/// The words of `run`, if these are.
#[tactic(auto, unfolding(crate::specs::Commands::run_of))]
fn run_of<'a>(arguments: ReadArguments<'a>) -> Option<RunWords<'a>>
    ensures { option_map run_in_bytes result ≡ run_of (arguments_in_bytes arguments.entry) }
{
    let ExoWords {
        frames,
        steps,
        schedule,
        trace,
        images,
    } = exo_of(arguments)?;
    let mut words = images;
    if words.len() < 2 {
        return None;
    }
    let disk = words.remove(0);
    Some(RunWords {
        frames,
        steps,
        schedule,
        trace,
        disk,
        words,
    })
}

/// The words of `demo`, if these are.
#[tactic(auto, unfolding(crate::specs::Commands::demo_of))]
fn demo_of<'a>(arguments: ReadArguments<'a>) -> Option<DemoWords<'a>>
    ensures { option_map demo_in_bytes result ≡ demo_of (arguments_in_bytes arguments.entry) }
{
    match arguments.positionals.as_slice() {
        [name, file] => Some(DemoWords {
            name: *name,
            file: *file,
        }),
        _ => None,
    }
}

/// The words of `mkfs`, if these are.
#[tactic(auto, unfolding(crate::specs::Commands::mkfs_of))]
fn mkfs_of<'a>(arguments: ReadArguments<'a>) -> Option<MkfsWords<'a>>
    ensures { option_map mkfs_in_bytes result ≡ mkfs_of (arguments_in_bytes arguments.entry) }
{
    let mut files = arguments.positionals;
    if files.len() < 2 {
        return None;
    }
    let disk = files.remove(0);
    let blocks = placed_number(files.remove(0))?;
    Some(MkfsWords {
        disk,
        blocks,
        files,
    })
}

/// The words of `ls`, if these are.
#[tactic(auto, unfolding(crate::specs::Commands::ls_of))]
fn ls_of<'a>(arguments: ReadArguments<'a>) -> Option<LsWords<'a>>
    ensures { option_map ls_in_bytes result ≡ ls_of (arguments_in_bytes arguments.entry) }
{
    match arguments.positionals.as_slice() {
        [disk] => Some(LsWords {
            disk: *disk,
            path: None,
        }),
        [disk, path] => Some(LsWords {
            disk: *disk,
            path: Some(*path),
        }),
        _ => None,
    }
}

/// The words of `cat`, if these are.
#[tactic(auto, unfolding(crate::specs::Commands::cat_of))]
fn cat_of<'a>(arguments: ReadArguments<'a>) -> Option<CatWords<'a>>
    ensures { option_map cat_in_bytes result ≡ cat_of (arguments_in_bytes arguments.entry) }
{
    match arguments.positionals.as_slice() {
        [disk, path] => Some(CatWords {
            disk: *disk,
            path: *path,
        }),
        _ => None,
    }
}

/// The words of `gen`, if these are.
#[tactic(auto, unfolding(crate::specs::Commands::gen_of))]
fn gen_of<'a>(arguments: ReadArguments<'a>) -> Option<GenWords<'a>>
    ensures { option_map gen_in_bytes result ≡ gen_of (arguments_in_bytes arguments.entry) }
{
    match arguments.positionals.as_slice() {
        [seed, disk] => match placed_number(*seed) {
            None => None,
            Some(seed) => Some(GenWords { seed, disk: *disk }),
        },
        _ => None,
    }
}

/// Reads the words of `exo`, the first of which is its name.
fn read_exo<'a>(alloc: Global, words: &'a [&'a str]) -> Result<ExoWords<'a>, WordsFault>
    requires { 0 < length words.now }
    ensures ok { IfOk result (λ read. exo_words (drop 1 (texts words.now)) ≡ Some (exo_in_bytes read)) }
    ensures usage { IfErr result (λ fault. fault ≡ Usage → exo_words (drop 1 (texts words.now)) ≡ None) }
{
    let command = running_command(alloc, "exo")?;
    let arguments = take_arguments(alloc, command, &RUNNING_OPTIONS, words)?;
    exo_of(arguments).ok_or(WordsFault::Usage)
}

/// Reads the words of `run`, the first of which is its name.
fn read_run<'a>(alloc: Global, words: &'a [&'a str]) -> Result<RunWords<'a>, WordsFault>
    requires { 0 < length words.now }
    ensures ok { IfOk result (λ read. run_words (drop 1 (texts words.now)) ≡ Some (run_in_bytes read)) }
    ensures usage { IfErr result (λ fault. fault ≡ Usage → run_words (drop 1 (texts words.now)) ≡ None) }
{
    let command = running_command(alloc, "run")?;
    let arguments = take_arguments(alloc, command, &RUNNING_OPTIONS, words)?;
    run_of(arguments).ok_or(WordsFault::Usage)
}

/// Reads the words of `demo`, the first of which is its name.
fn read_demo<'a>(alloc: Global, words: &'a [&'a str]) -> Result<DemoWords<'a>, WordsFault>
    requires { 0 < length words.now }
    ensures ok { IfOk result (λ read. demo_words (drop 1 (texts words.now)) ≡ Some (demo_in_bytes read)) }
    ensures usage { IfErr result (λ fault. fault ≡ Usage → demo_words (drop 1 (texts words.now)) ≡ None) }
{
    let command = demo_command(alloc)?;
    let arguments = take_arguments(alloc, command, &[], words)?;
    demo_of(arguments).ok_or(WordsFault::Usage)
}

/// Reads the words of `mkfs`, the first of which is its name.
fn read_mkfs<'a>(alloc: Global, words: &'a [&'a str]) -> Result<MkfsWords<'a>, WordsFault>
    requires { 0 < length words.now }
    ensures ok { IfOk result (λ read. mkfs_words (drop 1 (texts words.now)) ≡ Some (mkfs_in_bytes read)) }
    ensures usage { IfErr result (λ fault. fault ≡ Usage → mkfs_words (drop 1 (texts words.now)) ≡ None) }
{
    let command = mkfs_command(alloc)?;
    let arguments = take_arguments(alloc, command, &[], words)?;
    mkfs_of(arguments).ok_or(WordsFault::Usage)
}

/// Reads the words of `ls`, the first of which is its name.
fn read_ls<'a>(alloc: Global, words: &'a [&'a str]) -> Result<LsWords<'a>, WordsFault>
    requires { 0 < length words.now }
    ensures ok { IfOk result (λ read. ls_words (drop 1 (texts words.now)) ≡ Some (ls_in_bytes read)) }
    ensures usage { IfErr result (λ fault. fault ≡ Usage → ls_words (drop 1 (texts words.now)) ≡ None) }
{
    let command = ls_command(alloc)?;
    let arguments = take_arguments(alloc, command, &[], words)?;
    ls_of(arguments).ok_or(WordsFault::Usage)
}

/// Reads the words of `cat`, the first of which is its name.
fn read_cat<'a>(alloc: Global, words: &'a [&'a str]) -> Result<CatWords<'a>, WordsFault>
    requires { 0 < length words.now }
    ensures ok { IfOk result (λ read. cat_words (drop 1 (texts words.now)) ≡ Some (cat_in_bytes read)) }
    ensures usage { IfErr result (λ fault. fault ≡ Usage → cat_words (drop 1 (texts words.now)) ≡ None) }
{
    let command = cat_command(alloc)?;
    let arguments = take_arguments(alloc, command, &[], words)?;
    cat_of(arguments).ok_or(WordsFault::Usage)
}

/// Reads the words of `gen`, the first of which is its name.
fn read_gen<'a>(alloc: Global, words: &'a [&'a str]) -> Result<GenWords<'a>, WordsFault>
    requires { 0 < length words.now }
    ensures ok { IfOk result (λ read. gen_words (drop 1 (texts words.now)) ≡ Some (gen_in_bytes read)) }
    ensures usage { IfErr result (λ fault. fault ≡ Usage → gen_words (drop 1 (texts words.now)) ≡ None) }
{
    let command = gen_command(alloc)?;
    let arguments = take_arguments(alloc, command, &[], words)?;
    gen_of(arguments).ok_or(WordsFault::Usage)
}

/// The command that the words are: `Usage` exactly where they are none, unless there is no memory to read them.
///
/// A number may be out of its range, there may be any number of images or of a program's words, and `demo` may have
/// any name: the caller tests these.
#[tactic(auto, unfolding(crate::specs::Commands::command_of))]
pub fn read_words<'a>(alloc: Global, words: &'a [&'a str]) -> Result<CommandWords<'a>, WordsFault>
    ensures ok { IfOk result (λ command. command_of (map (λ word. word.now) words.now) ≡ Some (in_bytes command)) }
    ensures usage { IfErr result (λ fault. fault ≡ Usage → command_of (map (λ word. word.now) words.now) ≡ None) }
{
    match words {
        [] => Err(WordsFault::Usage),
        [name, ..] => {
            if *name == "exo" {
                read_exo(alloc, words).map(CommandWords::Exo)
            } else if *name == "run" {
                read_run(alloc, words).map(CommandWords::Run)
            } else if *name == "demo" {
                read_demo(alloc, words).map(CommandWords::Demo)
            } else if *name == "mkfs" {
                read_mkfs(alloc, words).map(CommandWords::Mkfs)
            } else if *name == "ls" {
                read_ls(alloc, words).map(CommandWords::Ls)
            } else if *name == "cat" {
                read_cat(alloc, words).map(CommandWords::Cat)
            } else if *name == "gen" {
                read_gen(alloc, words).map(CommandWords::Gen)
            } else {
                Err(WordsFault::Usage)
            }
        }
    }
}
