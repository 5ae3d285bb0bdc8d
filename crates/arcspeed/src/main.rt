//! `arcspeed WORKLOAD ITERATIONS` repeats one workload on the handles of `servo_arc`, and prints a checksum of the
//! values that it read. With 0 iterations it only prepares, so that the time of the preparation can be subtracted.
//!
//! A workload ends without a checksum if an allocation, a clone or the clock fails.
#![tactic(auto)]

mod arcs;
mod freed;
mod header;
mod pages;
mod random;
mod sequences;
mod stacks;
mod styles;
mod symbols;
mod threads;
mod tree_maps;
mod union;

use arcs::VALUE;
use servo_arc::Arc;
use std::alloc::Global;
use std::env;
use std::env::Env;
use std::io::Print;
use std::process::ExitCode;
use std::random::RandomSource;
use std::sync::Wait;
use std::thread::Threads;
use std::time::Clock;
use symbols::Pairs;
use threads::Turn;
use tree_maps::Order;

/// Returns the checksum of a workload, or `None` if it fails or there is none of that name.
fn checksum<R: Clock + Print + RandomSource + Threads + Wait + Sync>(
    rt: &R,
    alloc: Global,
    workload: &str,
    times: u64,
) -> Option<u64> {
    match workload {
        "new-drop" => arcs::new_drop(alloc, times),
        "clone-drop" => arcs::clone_often(Arc::new(alloc, VALUE), times),
        "deref-sum" => arcs::deref_sum(alloc, times),
        "make-mut-unique" => arcs::make_mut_unique(alloc, times),
        "get-mut-unique" => arcs::get_mut_unique(alloc, times),
        "make-mut-shared" => arcs::make_mut_shared(alloc, times),
        "contend-4" => threads::in_four(rt, alloc, Turn::Clone, times),
        "ptr-eq-same" => arcs::ptr_eq_same(alloc, times),
        "ptr-eq-4" => threads::in_four(rt, alloc, Turn::Compare, times),
        "header-get" => header::get(alloc, times),
        "header-build" => header::build(alloc, times),
        "marked-clone" => arcs::clone_often(Arc::new_leaked(alloc, VALUE), times),
        "static-clone" => arcs::clone_static(alloc, times),
        "union-clone" => union::clone_often(alloc, times),
        "cow-set" => pages::set_often(alloc, times),
        "list-walk" => stacks::walk(alloc, times),
        "cascade" => styles::cascade(rt, alloc, 1, times),
        "cascade-4" => styles::cascade(rt, alloc, 4, times),
        "intern-plain" => symbols::intern(rt, alloc, Pairs::Plain, times),
        "intern-chosen" => symbols::intern(rt, alloc, Pairs::Chosen, times),
        "map-rising" => tree_maps::measure(rt, alloc, Order::Rising, times),
        "map-mixed" => tree_maps::measure(rt, alloc, Order::Mixed, times),
        "sequence" => sequences::measure(rt, alloc, times),
        "freed-blocks" => freed::blocks(alloc, times),
        "freed-unwritten" => freed::unwritten(alloc, times),
        "freed-slices" => freed::slices(alloc, times),
        _ => None,
    }
}

/// Runs the workload that the arguments name, with as many iterations as they say.
fn run<R: Env + Clock + Print + RandomSource + Threads + Wait + Sync>(
    rt: &R,
    alloc: Global,
) -> Option<u64> {
    let words: Vec<String> = env::args(&(rt, alloc)).ok()?.collect(alloc).ok()?;
    let [_, workload, times] = words.as_slice() else {
        return None;
    };
    checksum(rt, alloc, workload, times.parse().ok()?)
}

fn main(rt: HostRuntime) -> ExitCode {
    if let Some(sum) = run(&rt, rt.alloc())
        && println!(rt; "{sum}").is_ok()
    {
        return ExitCode::SUCCESS;
    }
    let _ = eprintln!(rt;
        "usage: arcspeed WORKLOAD ITERATIONS; or memory, a clone, the clock or the output was refused"
    );
    ExitCode::FAILURE
}
