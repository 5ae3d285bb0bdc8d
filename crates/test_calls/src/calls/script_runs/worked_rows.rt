//! Worked scripts of steps and of commands, each line with its answer.
use super::runs::run_from;
use std::process::Abort;
use testing::{ok, same};

/// An empty line separates the rows. A row begins with a name and the words of the program. Its other lines have steps:
/// lines of the script, each with its answer after ` = `.
static ROWS: &str = "\
a drop in flight bars all but its lower: core 1
drop 0 0 = pending / unique 0 0 = barred / lower 0 = given up 5 / lower 0 = barred

only what is there is loaded: core 1
load 1 0 = barred / load 0 1 = barred / load 0 0 = value 5

nothing follows the value's end: core 1
drop 0 0 = pending / lower 0 = given up 5 / load 0 0 = barred / lower 0 = barred

a marked block is not written: core 1
mark 0 0 = marked / getmut 0 0 = shared / drop 0 0 = ended / load 0 0 = barred

a clone in flight bars all but its raise and its quit: core 1
clone 0 0 = pending / drop 0 0 = barred / quit 0 = quit / quit 0 = barred

nothing in flight is gone on with: core 1
raise 0 = barred / lower 0 = barred / quit 0 = barred

a clone that is given up makes no handle: core 1
clone 0 0 = pending / quit 0 = quit / drop 0 0 = pending / lower 0 = given up 5

a handle is sole once the other one is dropped, and its drop gives the value up: core 1
clone 0 0 = pending / raise 0 = born 1 / intounique 0 0 = shared / drop 0 1 = pending / lower 0 = ended
intounique 0 0 = sole / drop 0 0 = pending / lower 0 = given up 5

a handle of a marked block is never sole: core 1
mark 0 0 = marked / intounique 0 0 = shared

an owner without a handle is barred: core 2
lower 0 = barred / load 1 0 = barred / load 0 0 = value 5 / drop 0 1 = barred

a clone after the mark is born beside a drop in flight: core 2
lend 0 0 1 = done / clone 1 0 = pending / raise 1 = born 1 / return 1 0 = done / drop 1 1 = pending
mark 0 0 = marked / clone 0 0 = born 2 / lower 1 = ended / drop 0 0 = ended / drop 0 2 = ended

a handle is lent once to another owner: core 2
lend 0 0 0 = barred / lend 0 0 1 = done / lend 0 0 1 = barred / give 0 0 1 = barred / lend 1 0 0 = barred

no handle is returned in the middle of a clone: core 2
lend 0 0 1 = done / clone 1 0 = pending / return 1 0 = barred / getmut 0 0 = barred / raise 1 = born 1
return 1 0 = done / getmut 0 0 = shared / drop 1 1 = pending / lower 1 = ended / getmut 0 0 = alone

a drop in flight keeps the word from coming back: core 3
lend 0 0 1 = done / lend 0 0 2 = done / clone 1 0 = pending / clone 2 0 = pending / raise 2 = born 1
drop 2 1 = pending / raise 1 = pending

a block of two handles is full until it is marked: core 2 2
lend 0 0 1 = done / clone 1 0 = pending / raise 1 = born 1 / clone 0 0 = full / mark 0 0 = marked
clone 0 0 = born 2

a slot is filled and read: table 1
get 0 = empty / new 0 5 = done / get 0 = value 5 / get 1 = no slot

a slot of a shared block gets one of its own: table 2
new 0 5 = done / clone 0 1 = done / ptreq 0 1 = is true / own 0 = done / ptreq 0 1 = is false / same 0 1 = is true

no slot is reported before an empty one: table 2
clone 0 1 = empty / clone 0 2 = no slot / same 0 0 = empty

a clone over its own source leaves it unshared: table 1
new 0 5 = done / clone 0 0 = done / getmut 0 6 = done / get 0 = value 6

a clone keeps its value when its source is replaced: table 2
new 0 5 = done / clone 0 1 = done / new 0 8 = done / get 1 = value 5 / makemut 1 3 = done / get 0 = value 8
get 1 = value 3

a table without slots has none: table 0
new 0 1 = no slot / get 0 = no slot

a marked block is not written in place: table 1
new 0 4 = done / mark 0 = done / getmut 0 6 = shared / makemut 0 7 = done / getmut 0 8 = done / get 0 = value 8

a marked block is left for one of its own: table 2
new 0 4 = done / mark 0 = done / own 0 = done / getmut 0 6 = done / clone 0 0 = done / getmut 0 7 = done / raw 0 = done
get 0 = value 7 / get 1 = empty / get 2 = no slot

a shared value is copied before it is written: table 3
new 0 5 = done / clone 0 1 = done / getmut 0 9 = shared / makemut 0 9 = done / ptreq 0 1 = is false
same 0 1 = is false / drop 2 = empty / new 3 1 = no slot / get 0 = value 9 / get 1 = value 5 / get 2 = empty

a handle is unique again only alone: table 2
new 0 5 = done / intounique 0 6 = done / clone 0 1 = done / intounique 0 7 = shared / get 0 = value 6
get 1 = value 6

a handle passes through its raw form: table 2
new 0 5 = done / raw 0 = done / get 0 = value 5 / raw 1 = empty / raw 2 = no slot

a word too few is a fault: core 1
unique 0 0 = is true / unique 0 = fault: line 2

a handle is given to another owner: core 2
give 0 0 1 = done / load 0 0 = barred / load 1 0 = value 5 / give 1 0 1 = barred

a block is marked twice: core 1
mark 0 0 = marked / mark 0 0 = marked / unique 0 0 = is false / drop 0 0 = ended

a number has no leading zero: table 1
new 0 05 = fault: line 1

a raise finds the limit: core 3 2
lend 0 0 1 = done / lend 0 0 2 = done / clone 1 0 = pending / clone 2 0 = pending / raise 2 = born 1
raise 1 = full / raise 1 = barred

a word that came back is raised: core 3
lend 0 0 1 = done / lend 0 0 2 = done / clone 1 0 = pending / clone 2 0 = pending / raise 2 = born 1
drop 2 1 = pending / lower 2 = ended / raise 1 = born 2

a handle is alone once the other is lowered: core 1
clone 0 0 = pending / raise 0 = born 1 / unique 0 0 = is false / drop 0 0 = pending / unique 0 1 = barred
lower 0 = ended / unique 0 1 = is true / load 0 0 = barred

a sole handle is written, given and shared: core 2
intounique 0 0 = sole / write 0 0 9 = done / clone 0 0 = barred / lend 0 0 1 = barred / endwrite 0 0 = barred
give 0 0 1 = done / load 1 0 = value 9 / share 1 0 = done / share 1 0 = barred

the greatest number has 32 bits: core 1
load 0 4294967295 = barred / load 0 4294967296 = fault: line 2";

fn push_line(rt: &impl Abort, text: &mut String, line: &str) {
    ok!(rt, text.push_str(line));
    ok!(rt, text.push('\n'));
}

/// Splits steps at ` / ` into the lines of a script and the lines of its answers.
fn parted(rt: &(impl Abort + AllocGlobal), steps: &str) -> (String, String) {
    let (mut script, mut answers) = (String::new(rt.alloc()), String::new(rt.alloc()));
    for steps in steps.lines() {
        for step in steps.split(" / ") {
            let (line, answer) = step.split_once(" = ").unwrap_or((step, ""));
            push_line(rt, &mut script, line);
            push_line(rt, &mut answers, answer);
        }
    }
    (script, answers)
}

fn check_row(rt: &(impl Abort + AllocGlobal), row: &str) {
    let (head, steps) = row.split_once('\n').unwrap_or((row, ""));
    let (name, words) = head.split_once(": ").unwrap_or((head, ""));
    let (script, answers) = parted(rt, steps);
    let words: Vec<&str> = ok!(rt, words.split(' ').collect(rt.alloc()));
    let ran = run_from(rt.alloc(), &words, &mut script.as_bytes());
    if answers.contains("fault") {
        ran.check(rt, name, answers.as_bytes(), b"", 2);
    } else {
        ran.check(rt, name, answers.as_bytes(), b"", 0);
    }
}

#[test]
fn answers_each_line(rt: HostRuntime) {
    for row in ROWS.split("\n\n") {
        check_row(&rt, row);
    }
    same!(&rt, ROWS.split("\n\n").count(), 35);
}
