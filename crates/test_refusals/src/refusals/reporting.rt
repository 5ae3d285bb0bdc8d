//! Reports the outcome of a run. `gate/refused_memory.sh` gathers the reports of all runs.
use std::io::Print;
use std::process::Abort;
use testing::ok;

pub fn report(rt: &(impl Abort + Print), outcome: &str) {
    ok!(rt, println!(rt; "{outcome}"))
}
