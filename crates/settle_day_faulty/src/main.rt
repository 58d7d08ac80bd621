//! The program `settle_day` on a file of faulty lines, for its answer and its status.
#![tactic(auto)]

use programs::settling::settle_day;
use std::process::ExitCode;

fn main(rt: HostRuntime) -> ExitCode {
    settle_day(&rt)
}
