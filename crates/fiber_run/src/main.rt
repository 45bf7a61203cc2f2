//! The program: the words of the command line, standard input and standard output, and the top call over them.
#![tactic(auto)]

ghost use Rattle.std.specs.Prelude.{◌≡◌};

use rx_base::Steps;
use rx_io::{StdSink, StdSource};
use rx_top::{Status, top};
use std::alloc::AllocError;
use std::io::ErrorKind;
use std::marker::Brand;
use std::process::ExitCode;
use std::rt::Env;
use std::sync::ledger::{Blank, Ledger};
use std::{env, io};

/// The words after the program's name. If one of them isn't UTF-8, an empty word stands for them all, and no command
/// is an empty word.
fn gather<R: Env + AllocGlobal>(rt: &R) -> Result<Vec<String>, AllocError> {
    let alloc = rt.alloc();
    match env::args(rt) {
        Ok(args) => args.skip(1).collect(alloc),
        Err(e) if e.kind() == ErrorKind::InvalidData => Ok(vec![in alloc; String::new(alloc)]?),
        Err(_) => Err(AllocError),
    }
}

/// Gathers the words and makes the top call over standard input and standard output.
fn run<R: Env + Input + Print + AllocGlobal, L: Ledger>(
    rt: &R,
    blank: Blank,
) -> Result<Status, AllocError>
    requires name { blank.name ≡ L.name }
    requires parts { blank.parts ≡ L.parts }
    requires one { blank.parts ≡ 1 }
{
    let alloc = rt.alloc();
    let gathered = gather(rt)?;
    let words: Vec<&str> = gathered.iter().map(String::as_str).collect(alloc)?;
    let mut src = StdSource::new(rt.reader());
    let mut out = StdSink::new(io::writer(rt));
    let mut steps = Steps::<L>::new(blank);
    Ok(top(alloc, &words, &mut src, &mut out, &mut steps))
}

fn main(rt: HostRuntime) -> ExitCode {
    let status = run::<HostRuntime, Brand>(&rt, Blank::new(1)).unwrap_or(Status::OutOfMemory);
    ExitCode::from(status.code())
}
