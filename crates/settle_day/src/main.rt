//! Settles a day: a day file in, what it is answered on standard output.
#![tactic(auto)]

use programs::settling::settle_day;
use std::process::ExitCode;

fn main(rt: HostRuntime) -> ExitCode {
    settle_day(&rt)
}
