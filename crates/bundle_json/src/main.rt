//! Bundles the modules of a JSON document, from standard input to standard output.
#![tactic(auto)]

use bundle_json_document::run;
use std::process::ExitCode;

fn main(rt: HostRuntime) -> ExitCode {
    let status = run(
        rt.alloc(),
        &mut rt.stdin(),
        &mut rt.stdout(),
        &mut rt.stderr(),
    );
    ExitCode::from(status)
}
