//! The program `guard_cases`: it runs tables of cases over the top call of `guard`, and prints which of them do not come out
//! as wanted.
//!
//! A table is a text: for each case the words of a call, the files that it may load, and the status, the output and the
//! errors that are wanted of it. The expected answers stand in the tables, and nothing in this program computes one. The
//! files and sinks of a case are in memory; the tables, whose names are the arguments, are files of the system. The status
//! is 0 if each case of each table agrees, and 1 otherwise, also where a table is none or cannot be read.
#![tactic(auto)]

mod case;
mod compare;
mod heading;
mod refusal;
mod report;
mod run;
mod section;
mod table;

use guard_io::RealFiles;
use report::{Verdict, run_table};
use std::io::Write;
use std::process::ExitCode;
use std::{env, io};

fn main(rt: HostRuntime) -> io::Result<ExitCode> {
    let mut files = RealFiles { rt: &rt, faults: 0 };
    let mut lines = Vec::new(rt.alloc());
    let mut all = Verdict::Agree;
    for table in env::args(&rt)?.skip(1) {
        match run_table(rt.alloc(), &mut files, &table, &mut lines)? {
            Verdict::Agree => {}
            Verdict::Differ => all = Verdict::Differ,
        }
    }
    rt.stdout().write_all(&lines)?;
    match all {
        Verdict::Agree => Ok(ExitCode::from(0)),
        Verdict::Differ => Ok(ExitCode::from(1)),
    }
}
