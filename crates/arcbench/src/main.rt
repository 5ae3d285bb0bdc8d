//! Runs a script from standard input, on a counting core (the protocol of the count as a machine) or on a table of
//! handles: `arcbench core OWNERS`, `arcbench core OWNERS LIMIT` or `arcbench table SLOTS`. examples/README.md has
//! the lines of a script, what each prints, and the exit statuses.
#![tactic(auto)]

use std::process::ExitCode;
use tables::table::Table;

fn main(rt: HostRuntime) -> ExitCode {
    let (mut input, mut output, mut errors) = (rt.stdin(), rt.stdout(), rt.stderr());
    let status = scripts::start::<Table<u32>, _, _, _, _>(
        &rt,
        rt.alloc(),
        &mut input,
        &mut output,
        &mut errors,
    );
    ExitCode::from(status)
}
