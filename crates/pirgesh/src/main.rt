//! The program: `run_style` over the real files and streams.
#![tactic(auto)]

ghost use Rattle.std.specs.Prelude.{◌≡◌, ◌<◌};

use host_ops::{ImageSet, ScriptTest};
use outside_io::{HostFiles, HostSink, Steps};
use std::env;
use std::io::{self, ErrorKind};
use std::marker::Brand;
use std::process::ExitCode;
use std::sync::ledger::{Blank, Ledger};
use style_program::{Status, run_style};

/// The exit status where the words were refused to the program for another cause than memory.
const NO_WORDS: u8 = 7;

fn main(rt: HostRuntime) -> ExitCode {
    let alloc = rt.alloc();
    let args = match env::args(&rt) {
        Ok(args) => args,
        Err(error) => return ExitCode::from(status_without_words(&error)),
    };
    let mut words = Vec::new(alloc);
    for word in args.skip(1) {
        if words.push(word).is_err() {
            return ExitCode::from(Status::NoMemory.code());
        }
    }
    let status = run_counted::<Brand>(&rt, words.as_slice(), Blank::new(1));
    ExitCode::from(status.code())
}

/// The exit status where the words could not be had.
fn status_without_words(error: &io::Error) -> u8 {
    match error.kind() {
        ErrorKind::OutOfMemory => Status::NoMemory.code(),
        _ => NO_WORDS,
    }
}

/// Runs with a counter of steps of its own.
fn run_counted<L: Ledger>(rt: &HostRuntime, words: &[String], blank: Blank) -> Status
    requires name { blank.name ≡ L.name }
    requires parts { blank.parts ≡ L.parts }
    requires some { 0 < blank.parts }
{
    let alloc = rt.alloc();
    let mut files = HostFiles::new(alloc, rt);
    let mut out = HostSink::new(rt.stdout());
    let mut err = HostSink::new(rt.stderr());
    let mut steps: Steps<L> = Steps::new(blank);
    let Ok(images) = Box::new(alloc, ImageSet::new(alloc)) else {
        return Status::NoMemory;
    };
    let Ok(scripts) = Box::new(alloc, ScriptTest::new()) else {
        return Status::NoMemory;
    };
    run_style(
        alloc, words, &mut files, &mut out, &mut err, images, scripts, &mut steps,
    )
}
