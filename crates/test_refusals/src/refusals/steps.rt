//! What a failed call on the core, or a failed run of steps, leaves.
use crate::refusals::reporting::report;
use servo_arc::counting_core::{Core, Step};
use servo_arc::word::MAX_REFCOUNT;
use testing::ok;

#[test]
fn a_core_hands_the_value_back(rt: HostRuntime) {
    for owners in [1usize, 2, 1000] {
        match Core::new(rt.alloc(), 5u32, owners.max(1), MAX_REFCOUNT) {
            Ok(_) => {}
            Err(value) => ok!(&rt, println!(rt; "{owners} owners: {value} back")),
        }
    }
}

// A handle is lent, and then cloned by the one that borrows it.
const STEPS: [Step<u32>; 5] = [
    Step::Lend {
        owner: 0,
        handle: 0,
        to: 1,
    },
    Step::Clone {
        owner: 1,
        handle: 0,
    },
    Step::Raise { owner: 1 },
    Step::Raise { owner: 1 },
    Step::Quit { owner: 1 },
];

// If there is no memory for the answers, no step is made, so that all of them still can be.
#[test]
fn one_refusal_in_a_run(rt: HostRuntime) {
    let Ok(mut core) = Core::new(rt.alloc(), 5u32, 2, MAX_REFCOUNT) else {
        return report(&rt, "the set-up");
    };
    let answers = match core.run(&STEPS) {
        Ok(answers) => answers,
        Err(_) => {
            report(&rt, "the room of the answers");
            ok!(&rt, core.run(&STEPS))
        }
    };
    ok!(&rt, println!(rt; "{:?}", answers.as_slice()));
}
