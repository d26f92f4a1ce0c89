//! `pgvalue`: reads lines of standard input, and shows what the codec writes and reads.
#![tactic(auto)]

use pgv_runner::serve;
use std::process::ExitCode;

fn main(rt: HostRuntime) -> ExitCode {
    serve(&rt)
}
