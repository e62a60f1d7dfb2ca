//! What is asked for is done.
ghost use Rattle.std.specs.Prelude.{◌≡◌, ◌≢◌, IfOk, OnErr};
ghost use Rattle.gutsirava_run.specs.Delivery.{KeepsAll};
ghost use Rattle.gutsirava_run.specs.Ending.{Bundles, Ends, Obeys, folder_text, known};

use crate::delivery::{deliver, files_of, print};
use crate::error::RunError;
use crate::host::{Host, Surroundings};
use crate::making::make;
use crate::options::format_of;
use crate::progress::{ProgressLine, Stopwatch};
use crate::report::{Report, plain_error};
use crate::store::{BundleStore, OutputFile};
use crate::views::{analysis_of, overview_of, with_views};
use gutsirava_bundle::{Bundled, Messages};
use gutsirava_report::Message;
use gutsirava_resolve::FileSystem;
use gutsirava_words::{Command, Destination, HELP, LogLevel, Options, VERSION, WordsError};
use std::alloc::{AllocError, Global};
use std::io::{Read, Write};
use std::rt::Clock;

/// Does what is asked for, and gives the status of the command: 0, 1 for what is wrong with modules and files, 2 for
/// what is wrong with words. With another status than 0 nothing was written to the store or the standard output. What
/// cannot be told on the standard error does not change the status.
#[tactic(auto, using(crate::proofs::KnownLemmas::keeps_all_same, crate::proofs::KnownLemmas::unwritten_same, crate::proofs::KnownLemmas::prints_of, crate::proofs::EndingLemmas::refused_of))]
pub fn run<F: FileSystem, S: BundleStore, I: Read, O: Write, E: Write, C: Clock>(
    alloc: Global,
    asked: &Result<Command, WordsError>,
    surroundings: Surroundings,
    host: &mut Host<F, S, I, O, E, C>,
) -> Result<u8, RunError>
    ensures obeys { IfOk result (λ status.
        Obeys F.is_real (S.may_refuse host.old.store) (folder_text surroundings.folder) asked.now status
        (known (O.contents host.old.output) (S.stored host.old.store))
        (known (O.contents host.new.output) (S.stored host.new.store))) }
    ensures failed { OnErr result (KeepsAll (S.stored host.old.store) (S.stored host.new.store)) }
{
    match asked {
        Ok(Command::Help) => {
            print(HELP, &mut host.output)?;
            Ok(0)
        }
        Ok(Command::Version) => {
            print(VERSION, &mut host.output)?;
            Ok(0)
        }
        Ok(Command::Bundle(options)) => bundle(alloc, options, surroundings, host),
        Err(error) => {
            refuse(alloc, error, &mut host.errors)?;
            Ok(error.status())
        }
    }
}

/// Tells what is wrong with the words.
fn refuse<E: Write>(alloc: Global, error: &WordsError, errors: &mut E) -> Result<(), AllocError> {
    let text = format!(in alloc; "{error}")?;
    let told = vec![in alloc; plain_error(alloc, text)]?;
    let report = Report {
        level: LogLevel::Info,
        has_colors: false,
    };
    report.tell(alloc, told, errors)
}

/// Makes and writes the bundles that the options ask for.
#[tactic(auto, using(crate::proofs::KnownLemmas::keeps_all_same, crate::proofs::EndingLemmas::bundles_told, crate::proofs::EndingLemmas::kept_told))]
fn bundle<F: FileSystem, S: BundleStore, I: Read, O: Write, E: Write, C: Clock>(
    alloc: Global,
    options: &Options,
    surroundings: Surroundings,
    host: &mut Host<F, S, I, O, E, C>,
) -> Result<u8, RunError>
    ensures ends { IfOk result (λ status.
        Bundles F.is_real (S.may_refuse host.old.store) (folder_text surroundings.folder) options.now status
        (known (O.contents host.old.output) (S.stored host.old.store))
        (known (O.contents host.new.output) (S.stored host.new.store))) }
    ensures failed { OnErr result (KeepsAll (S.stored host.old.store) (S.stored host.new.store)) }
{
    let Surroundings {
        folder,
        no_color,
        has_terminal,
    } = surroundings;
    let report = report_of(options, no_color, has_terminal);
    let folder = match folder {
        Ok(folder) => folder,
        Err(cause) => return Err(RunError::Folder(cause)),
    };
    let stopwatch = Stopwatch::start(&host.clock).map_err(RunError::Clock)?;
    let is_on = has_terminal && matches!(options.log_level, LogLevel::Info);
    let mut line = ProgressLine::new(&mut host.errors, &stopwatch, is_on);
    let bundled = make(
        alloc,
        options,
        folder.as_str(),
        &host.files,
        &mut host.input,
        &mut line,
    )?;
    let ended = settle(
        alloc,
        options,
        folder.as_str(),
        report.has_colors,
        bundled,
        &mut host.store,
        &mut host.output,
    )?;
    let has_files = !matches!(options.output, Destination::Stdout);
    tell(
        alloc,
        report,
        ended,
        has_files,
        &stopwatch,
        &mut host.errors,
    )
}

/// How a run is told, where the environment has this `NO_COLOR`, or none.
fn report_of(options: &Options, no_color: Option<String>, has_terminal: bool) -> Report {
    let no_color = no_color.as_ref().map(|text| text.as_str());
    Report {
        level: options.log_level,
        has_colors: options.color.is_on(no_color, has_terminal),
    }
}

/// How a run ended.
#[derive(Drop)]
struct RunOutcome {
    status: u8,
    messages: Vec<Message>,
    /// How many modules were read.
    modules: usize,
    /// The files that were written.
    files: Vec<OutputFile>,
    /// What takes which part of bundles, where that is to be told.
    analysis: Option<String>,
}

impl RunOutcome {
    fn unwritten(alloc: Global, messages: Vec<Message>, modules: usize) -> RunOutcome
        ensures { result.status ≡ 1 }
    {
        RunOutcome {
            status: 1,
            messages,
            modules,
            files: Vec::new(alloc),
            analysis: None,
        }
    }
}

/// Writes bundles where no error is told of them.
#[tactic(auto, using(crate::proofs::KnownLemmas::keeps_all_same, crate::proofs::KnownLemmas::unwritten_same, crate::proofs::EndingLemmas::ends_delivered, crate::proofs::EndingLemmas::ends_faulty, crate::proofs::EndingLemmas::ends_refused))]
fn settle<S: BundleStore, O: Write>(
    alloc: Global,
    options: &Options,
    folder: &str,
    has_colors: bool,
    bundled: Bundled,
    store: &mut S,
    output: &mut O,
) -> Result<RunOutcome, RunError>
    ensures ends { IfOk result (λ ended.
        Ends (S.may_refuse store.old) options.now bundled ended.status
        (known (O.contents output.old) (S.stored store.old))
        (known (O.contents output.new) (S.stored store.new))) }
    ensures failed { OnErr result (KeepsAll (S.stored store.old) (S.stored store.new)) }
{
    let mut overview = overview_of(alloc, options, folder, &bundled)?;
    let Bundled {
        outputs,
        inputs,
        modules: _modules,
        messages,
    } = bundled;
    let Messages { mut list, errors } = messages;
    let modules = inputs.len();
    if errors > 0 {
        return Ok(RunOutcome::unwritten(alloc, list, modules));
    }
    let format = format_of(&options.format);
    let files = files_of(alloc, &options.output, format, options.source_map, outputs)?;
    let files = with_views(alloc, options, &mut overview, files)?;
    let analysis = analysis_of(alloc, options, &overview, has_colors)?;
    let refusal = deliver(
        alloc,
        &options.output,
        inputs.as_slice(),
        files.as_slice(),
        store,
        output,
    )?;
    match refusal {
        None => Ok(RunOutcome {
            status: 0,
            messages: list,
            modules,
            files,
            analysis,
        }),
        Some(message) => {
            list.push(message)?;
            Ok(RunOutcome::unwritten(alloc, list, modules))
        }
    }
}

/// Tells what was found, and where bundles were written which. That something cannot be told of bundles that are
/// written does not change how the run ends.
fn tell<E: Write, C: Clock>(
    alloc: Global,
    report: Report,
    ended: RunOutcome,
    has_files: bool,
    stopwatch: &Stopwatch<'_, C>,
    errors: &mut E,
) -> Result<u8, RunError>
    ensures status { IfOk result (λ status. status ≡ ended.status) }
    ensures failed { OnErr result (ended.status ≢ 0) }
{
    let RunOutcome {
        status,
        messages,
        modules,
        files,
        analysis,
    } = ended;
    let told = report.tell(alloc, messages, errors);
    if status != 0 {
        told?;
        return Ok(status);
    }
    if has_files {
        if let Ok(milliseconds) = stopwatch.milliseconds() {
            let _ = report.sum_up(alloc, modules, files.as_slice(), milliseconds, errors);
        }
    }
    if let Some(text) = analysis {
        let _ = errors.write_all(text.as_bytes());
    }
    Ok(status)
}
