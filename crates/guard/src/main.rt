//! The program `guard`: it judges a template by rules, and prints the verdicts and what each that is FAIL fails by; and it
//! judges evidence for such verdicts.
//!
//! It is the edge to the system alone: it hands the words, the real files and streams and the crate of regular expressions
//! to the top call, which does the work, and ends with the status of that call's end.
#![tactic(auto)]

use guard_io::{RealFiles, RealSink};
use guard_run::{End, guard};
use std::alloc::AllocError;
use std::env;
use std::io::ErrorKind;
use std::process::ExitCode;
use value_compare::RegexMaker;

fn main(rt: HostRuntime) -> ExitCode {
    let mut files = RealFiles { rt: &rt, faults: 0 };
    let mut out = RealSink {
        writer: rt.stdout(),
        faults: 0,
    };
    let mut err = RealSink {
        writer: rt.stderr(),
        faults: 0,
    };
    let mut maker = RegexMaker { faults: 0 };
    let end = match words_of(&rt) {
        Ok(words) => guard(
            rt.alloc(),
            &words,
            &mut files,
            &mut maker,
            &mut out,
            &mut err,
        ),
        Err(AllocError) => End::Memory,
    };
    ExitCode::from(end.status())
}

/// The words of the command line, without the program's name. Where one is not UTF-8 there are
/// none.
fn words_of(rt: &HostRuntime) -> Result<Vec<String>, AllocError> {
    let mut words = Vec::new(rt.alloc());
    match env::args(rt) {
        Ok(args) => {
            for word in args.skip(1) {
                words.push(word)?;
            }
            Ok(words)
        }
        Err(error) => match error.kind() {
            ErrorKind::OutOfMemory => Err(AllocError),
            _ => Ok(words),
        },
    }
}
