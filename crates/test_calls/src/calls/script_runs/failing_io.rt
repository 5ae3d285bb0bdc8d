//! Runs whose input, output or standard error fails.
use super::fakes::{FailingReader, FailingWriter};
use super::runs::run_from;
use scripts::bench;
use servo_arc::table::Table;
use std::alloc::Global;
use std::process::Abort;
use testing::{ok, same, same_at};

/// A program, a script of it and the answers.
static SHORT: &[(&str, &str, &str); 2] = &[
    ("core", "unique 0 0\nload 0 0\n", "is true\nvalue 5\n"),
    ("table", "new 0 5\nget 0\n", "done\nvalue 5\n"),
];

// Each half of a script takes a read, and one more read finds the end.
const READS: usize = 3;

#[test]
fn reports_input_that_cannot_be_read(rt: HostRuntime) {
    for &(kind, script, answers) in SHORT {
        let (bytes, half) = (script.as_bytes(), script.len() / 2);
        for reads_before in 0..READS {
            let mut input = FailingReader::new(bytes, half, reads_before);
            let ran = run_from(rt.alloc(), &[kind, "1"], &mut input);
            ran.check(&rt, (kind, reads_before), b"", b"fault: input\n", 3);
        }
        let mut input = FailingReader::new(bytes, half, READS);
        let ran = run_from(rt.alloc(), &[kind, "1"], &mut input);
        ran.check(&rt, (kind, READS), answers.as_bytes(), b"", 0);
    }
}

/// The program, a script, its answers, the status, and the number of writes. Each write and then a flush fails in turn,
/// and then none does.
type Failures<'a> = (&'a str, &'a str, &'a str, u8, usize);

fn check_failures(rt: &(impl Abort + AllocGlobal), row: Failures<'_>) {
    let (kind, script, answers, status, writes) = row;
    for before in 0..writes.saturating_add(2) {
        let (mut output, mut errors) = (
            FailingWriter::new(rt.alloc(), before),
            Vec::new(rt.alloc()),
        );
        let mut input = script.as_bytes();
        let ended = bench::<Table<u32>, _, _, _, _>(
            rt.alloc(),
            &[kind, "1"],
            &mut input,
            &mut output,
            &mut errors,
        );
        let seen = (
            answers.as_bytes().starts_with(&output.held),
            (output.has_failed, output.is_flushed),
            (ended, errors.len()),
        );
        let has_failed = before <= writes;
        let status = if has_failed { 4 } else { status };
        let expected = (true, (has_failed, !has_failed), (status, 0));
        same_at!(rt, (kind, before), seen, expected);
    }
}

#[test]
fn ends_at_a_failed_write_or_flush(rt: HostRuntime) {
    for &(kind, script, answers) in SHORT {
        check_failures(&rt, (kind, script, answers, 0, 1));
        check_failures(&rt, (kind, "faulty\n", "fault: line 1\n", 2, 1));
    }
    // The answers to so many lines take three writes.
    let script = ok!(&rt, "get 1\n".repeat(rt.alloc(), 20_000));
    let answers = ok!(&rt, "no slot\n".repeat(rt.alloc(), 20_000));
    check_failures(&rt, ("table", &script, &answers, 0, 3));
}

/// The status, whether standard error failed, and how many bytes were written on standard output. The input fails too.
fn run_unheard(alloc: Global, words: &[&str]) -> (u8, bool, usize) {
    let mut input = FailingReader::new(b"", 1, 0);
    let (mut output, mut errors) = (Vec::new(alloc), FailingWriter::new(alloc, 0));
    let status = bench::<Table<u32>, _, _, _, _>(
        alloc,
        words,
        &mut input,
        &mut output,
        &mut errors,
    );
    (status, errors.has_failed, output.len())
}

#[test]
fn keeps_the_status_where_errors_cannot_be_written(rt: HostRuntime) {
    let wrong = run_unheard(rt.alloc(), &["core"]);
    let unread = run_unheard(rt.alloc(), &["table", "1"]);
    same!(&rt, [wrong, unread], [(1, true, 0), (3, true, 0)]);
}
