//! The same program once more, which the gate runs over tables that are refused: it must end with the status for that.
#![tactic(auto)]

use std::process::ExitCode;

fn main(rt: HostRuntime) -> ExitCode {
    cu_edge::catchup(rt)
}
