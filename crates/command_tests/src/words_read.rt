//! What words are read as, and words of which there are none.

use jos_cli::answer_arguments;
use jos_host::MemHost;
use jos_words::{CommandWords, NumberAt, WordAt, read_words};
use std::alloc::{AllocError, Global};
use std::env;
use std::env::FillError;
use std::process::{Abort, ExitCode};
use std::rt::Env;

fn add_word(line: &mut String, what: &str, word: Option<WordAt>) -> Result<(), AllocError> {
    match word {
        None => Ok(()),
        Some(word) => write!(line, "{what}{}@{}", word.text, word.place),
    }
}

fn add_number(line: &mut String, what: &str, number: Option<NumberAt>) -> Result<(), AllocError> {
    match number {
        None => Ok(()),
        Some(number) => write!(line, "{what}{}@{}", number.value, number.place),
    }
}

// The words of a command, each value with its place behind it.
fn add_command(line: &mut String, command: &CommandWords) -> Result<(), AllocError> {
    match command {
        CommandWords::Exo(exo) => {
            line.push_str("exo")?;
            add_number(line, " frames ", exo.frames)?;
            add_number(line, " steps ", exo.steps)?;
            add_word(line, " schedule ", exo.schedule)?;
            add_number(line, " trace ", exo.trace)?;
            for image in &exo.images {
                add_word(line, " ", Some(*image))?;
            }
            Ok(())
        }
        CommandWords::Run(run) => {
            line.push_str("run")?;
            add_number(line, " frames ", run.frames)?;
            add_number(line, " steps ", run.steps)?;
            add_word(line, " schedule ", run.schedule)?;
            add_number(line, " trace ", run.trace)?;
            add_word(line, " ", Some(run.disk))?;
            for word in &run.words {
                add_word(line, " ", Some(*word))?;
            }
            Ok(())
        }
        CommandWords::Demo(demo) => {
            add_word(line, "demo ", Some(demo.name))?;
            add_word(line, " ", Some(demo.file))
        }
        CommandWords::Mkfs(mkfs) => {
            add_word(line, "mkfs ", Some(mkfs.disk))?;
            add_number(line, " blocks ", Some(mkfs.blocks))?;
            for file in &mkfs.files {
                add_word(line, " ", Some(*file))?;
            }
            Ok(())
        }
        CommandWords::Ls(ls) => {
            add_word(line, "ls ", Some(ls.disk))?;
            add_word(line, " path ", ls.path)
        }
        CommandWords::Cat(cat) => {
            add_word(line, "cat ", Some(cat.disk))?;
            add_word(line, " ", Some(cat.path))
        }
        CommandWords::Gen(words) => {
            add_number(line, "gen seed ", Some(words.seed))?;
            add_word(line, " ", Some(words.disk))
        }
    }
}

// The words, with `|` between them, are read so.
fn reads(rt: &impl Abort, alloc: Global, text: &str, want: &str) -> Result<(), AllocError> {
    let words: Vec<&str> = text.split('|').collect(alloc)?;
    let mut line = String::new(alloc);
    match read_words(alloc, &words) {
        Ok(command) => add_command(&mut line, &command)?,
        Err(fault) => write!(line, "{fault:?}")?,
    }
    assert_eq!(rt; line.as_str(), want, "of {text}");
    Ok(())
}

// Words, and what is read of them, each value with its place behind it.
const READ: &str = "\
exo|a => exo a@1
exo|a|a|b => exo a@1 a@2 b@3
exo|--frames|5|a => exo frames 5@2 a@3
exo|--frames=5|a => exo frames 5@1 a@2
exo|a|--schedule|s|b|--steps=7 => exo steps 7@5 schedule s@3 a@1 b@4
exo|--schedule=a=b|c => exo schedule a=b@1 c@2
exo|--|--frames|--|-x => exo --frames@2 --@3 -x@4
exo|a|--|--steps=1 => exo a@1 --steps=1@3
exo|a|-- => exo a@1
exo|-||help|exo => exo -@1 @2 help@3 exo@4
exo|--steps|0|a => exo steps 0@2 a@3
exo|--steps|00000000000000000017|a => exo steps 17@2 a@3
exo|--trace|7|a|--frames=3|--steps=2 => exo frames 3@4 steps 2@5 trace 7@2 a@3
exo|--steps=99999999999999999999|a => exo steps 99999999999999999999@1 a@2
run|d => Usage
run|d|p => run d@1 p@2
run|d|p|d||help => run d@1 p@2 d@3 @4 help@5
run|--frames|5|--steps=7|--schedule|s|--trace=2|d|p => run frames 5@2 steps 7@3 schedule s@5 trace 2@6 d@7 p@8
run|d|--steps=7|p|--trace|2 => run steps 7@2 trace 2@5 d@1 p@3
run|d|--|-x|--steps=7|-- => run d@1 -x@3 --steps=7@4 --@5
run|--|-d|p => run -d@2 p@3
run|d|1|2|3|4|5|6|7|8|9|a|b|c|d|e|f|g => run d@1 1@2 2@3 3@4 4@5 5@6 6@7 7@8 8@9 9@10 a@11 b@12 c@13 d@14 e@15 f@16 g@17
demo|xhello|h => demo xhello@1 h@2
demo|--|-n|-- => demo -n@2 --@3
demo|a|--|b => demo a@1 b@3
demo||-|-- => demo @1 -@2
mkfs|d|64 => mkfs d@1 blocks 64@2
mkfs|d|064|a|b|a => mkfs d@1 blocks 64@2 a@3 b@4 a@5
mkfs|-|--|99999999999999999999||-x|-- => mkfs -@1 blocks 99999999999999999999@3 @4 -x@5 --@6
ls|d => ls d@1
ls|d|a/b => ls d@1 path a/b@2
ls|--|-d| => ls -d@2 path @3
cat|d|a => cat d@1 a@2
cat|--|--|-a => cat --@2 -a@3
gen|1|d => gen seed 1@1 d@2
gen|0004294967296|--|-d => gen seed 4294967296@1 -d@3
gen|d|1 => Usage";

#[test]
fn each_value_is_read_with_its_place(rt: HostRuntime) -> Result<(), AllocError> {
    for case in READ.lines() {
        let Some((words, want)) = case.split_once(" => ") else {
            panic!(rt; "{case} is no case");
        };
        reads(&rt, rt.alloc(), words, want)?;
    }
    Ok(())
}

/// A command line without words, and so without the name of a program.
#[derive(Drop)]
struct NoWords;

impl Env for NoWords {
    fn arg(&self, _i: usize, _buf: &mut [u8]) -> Result<usize, FillError> {
        Err(FillError::NotPresent)
    }

    fn var(&self, _name: &str, _buf: &mut [u8]) -> Result<usize, FillError> {
        Err(FillError::NotPresent)
    }

    fn var_at(&self, _i: usize, _buf: &mut [u8]) -> Result<usize, FillError> {
        Err(FillError::NotPresent)
    }
}

/// Answers no words.
fn answer_none(alloc: Global, host: &mut MemHost) -> ExitCode {
    answer_arguments(alloc, env::args(&(NoWords, alloc)), host)
}

#[test]
fn a_command_line_without_a_program_is_no_command(rt: HostRuntime) {
    let alloc = rt.alloc();
    let mut host = MemHost::new(alloc, Vec::new(alloc), Vec::new(alloc), Vec::new(alloc));
    let code = answer_none(alloc, &mut host);
    assert!(rt; code == ExitCode::from(1));
    assert_eq!(rt;
        host.notes(),
        b"usage: jos COMMAND [OPTIONS] WORDS\n".as_slice()
    );
}
