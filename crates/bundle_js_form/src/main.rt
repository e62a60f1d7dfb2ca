//! JavaScript on standard input to the JSON form of its tree on standard output.
#![tactic(auto)]

mod form;

use crate::form::{Outcome, outcome_of};
use std::io::{Read, Write};
use std::process::ExitCode;

fn main(rt: HostRuntime) -> ExitCode {
    let alloc = rt.alloc();
    let Some(goal) = form::goal_of(&rt) else {
        let _ = rt.stderr().write_all(form::USAGE.as_bytes());
        return ExitCode::from(2);
    };
    let mut bytes = Vec::new(alloc);
    if rt.stdin().read_to_end(&mut bytes).is_err() {
        let _ = rt
            .stderr()
            .write_all(b"error: standard input cannot be read\n");
        return ExitCode::from(1);
    }
    match outcome_of(alloc, bytes.as_slice(), goal) {
        Ok(Outcome::Form(form)) => match rt.stdout().write_all(form.as_bytes()) {
            Ok(()) => ExitCode::from(0),
            Err(_) => ExitCode::from(3),
        },
        Ok(Outcome::Refused(line)) => {
            let _ = rt.stderr().write_all(line.as_bytes());
            ExitCode::from(1)
        }
        Err(_) => {
            let _ = rt.stderr().write_all(b"error: out of memory\n");
            ExitCode::from(1)
        }
    }
}
