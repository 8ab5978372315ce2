//! The program `catchup`. The gate runs it over the first run, whose queries it answers.
#![tactic(auto)]

use std::process::ExitCode;

fn main(rt: HostRuntime) -> ExitCode {
    cu_edge::catchup(rt)
}
