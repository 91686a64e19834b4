//! How the lines of a program's input reach what answers them.

use std::alloc::Global;
use std::io::Input;

/// Prints what is told for each line of the input. A comment and an empty line are repeated.
pub fn tell_lines<F: FnMut(&str) -> anyhow::Result<String>>(
    rt: &(impl Print + Input),
    alloc: Global,
    mut tell: F,
) -> anyhow::Result<()>
    requires { F.IsAlwaysCallable tell }
{
    for line in rt.lines(alloc) {
        let line = line?;
        let line = line.as_str();
        if line.is_empty() || line.starts_with('#') {
            println!(rt; "{line}")?;
        } else {
            let told = tell(line)?;
            println!(rt; "{told}")?;
        }
    }
    Ok(())
}
