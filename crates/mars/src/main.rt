//! The program `mars`: it assembles warriors of Core War, runs matches and leagues, and debugs battles backwards as
//! well as forwards.
#![tactic(auto)]

use mars_app::{Streams, SystemFiles, start};
use std::process::ExitCode;

fn main(rt: HostRuntime) -> ExitCode {
    let (alloc, files) = (rt.alloc(), SystemFiles(&rt));
    let (input, output, mut faults) = (rt.stdin(), rt.stdout(), rt.stderr());
    let mut streams = Streams { input, output };
    let status = start(alloc, &rt, &files, &mut streams, &mut faults);
    ExitCode::from(status)
}
