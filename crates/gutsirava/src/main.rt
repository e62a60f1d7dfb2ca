//! JavaScript modules on disk to one, without any other program: the command over the files and streams of the machine.
#![tactic(auto)]

mod watched;

use crate::watched::MachineWork;
use anyhow::{Error, Result};
use gutsirava_files::MachineFiles;
use gutsirava_resolve::FileSystem;
use gutsirava_run::{Host, Surroundings, run};
use gutsirava_watch::watch;
use gutsirava_words::{Command, Switch, WordsError};
use std::io::IsTerminal;
use std::process::ExitCode;
use std::{env, io};

fn main(rt: HostRuntime) -> ExitCode {
    match status(&rt) {
        Ok(status) => ExitCode::from(status),
        Err(error) => {
            let _ = eprintln!(rt; "error: {error:#}");
            ExitCode::from(1)
        }
    }
}

/// The status with which the command ends, once it has done what its words ask for.
fn status(rt: &HostRuntime) -> Result<u8> {
    let words = words_of(rt)?;
    let asked = Command::from_words(rt.alloc(), words.as_slice());
    run_on(rt, &asked)
}

/// The words of the command, those behind its own name.
fn words_of(rt: &HostRuntime) -> Result<Vec<String>> {
    let mut words = Vec::new(rt.alloc());
    for word in env::args(rt)?.skip(1) {
        words.push(word)?;
    }
    Ok(words)
}

/// Does what is asked for, on the machine; again and again, where that is asked for.
fn run_on(rt: &HostRuntime, asked: &Result<Command, WordsError>) -> Result<u8> {
    if let Ok(Command::Bundle(options)) = asked
        && options.views.watch == Switch::On
    {
        watch(&mut MachineWork::new(rt, asked, options.log_level))?;
        return Ok(0);
    }
    let (ended, _files) = run_over(rt, asked, MachineFiles::new(rt));
    ended
}

/// Does what is asked for over these files, and gives them back.
pub(crate) fn run_over<F: FileSystem + Drop>(
    rt: &HostRuntime,
    asked: &Result<Command, WordsError>,
    files: F,
) -> (Result<u8>, F) {
    let surroundings = Surroundings {
        folder: env::current_dir(rt).map(|folder| folder.into_string()),
        no_color: env::var(rt, "NO_COLOR").ok(),
        has_terminal: rt.stderr().is_terminal(),
    };
    let mut host = Host {
        files,
        store: MachineFiles::new(rt),
        input: rt.stdin(),
        output: io::writer(rt),
        errors: rt.stderr(),
        clock: rt,
    };
    let ended = run(rt.alloc(), asked, surroundings, &mut host);
    let Host { files, .. } = host;
    (ended.map_err(Error::from), files)
}
