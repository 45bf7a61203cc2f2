//! The program: standard input has a program and a script, as `fiber_run run` takes them, and standard output gets one page of
//! HTML on which the run is seen step by step.
#![tactic(auto)]

ghost use Rattle.std.specs.Prelude.{◌≡◌};

mod facts;
mod page;
mod status;
mod steps;
mod text;
mod view;

use crate::status::Status;
use crate::view::{refuse_words, view};
use rx_base::Steps;
use rx_io::{StdSink, StdSource};
use std::alloc::AllocError;
use std::marker::Brand;
use std::process::ExitCode;
use std::rt::Env;
use std::sync::ledger::{Blank, Ledger};
use std::{env, io};

/// Whether there is a word behind the program's name; one that isn't UTF-8 is one too.
fn has_words<R: Env + AllocGlobal>(rt: &R) -> bool {
    match env::args(rt) {
        Ok(args) => args.skip(1).count() > 0,
        Err(_) => true,
    }
}

/// Writes the page of standard input to standard output.
fn run<R: Env + Input + Print + AllocGlobal, L: Ledger>(rt: &R, blank: Blank) -> Status
    requires name { blank.name ≡ L.name }
    requires parts { blank.parts ≡ L.parts }
    requires one { blank.parts ≡ 1 }
{
    let mut out = StdSink::new(io::writer(rt));
    if has_words(rt) {
        return refuse_words(&mut out);
    }
    let mut src = StdSource::new(rt.reader());
    let mut steps = Steps::<L>::new(blank);
    view(rt.alloc(), &mut src, &mut out, &mut steps)
}

fn main(rt: HostRuntime) -> ExitCode {
    let status = run::<HostRuntime, Brand>(&rt, Blank::new(1));
    ExitCode::from(status.code())
}
