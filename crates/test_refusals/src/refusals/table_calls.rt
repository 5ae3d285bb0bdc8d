//! What a failed call on a table of handles, or on one of unions, leaves.
use crate::refusals::reporting::report;
use servo_arc::ArcUnionBorrow;
use servo_arc::table::{Command, PlainCommand, Reply, Table};
use servo_arc::union_table::{UnionCommand, UnionTable};
use std::alloc::{AllocError, Global};
use std::io::Print;
use std::process::Abort;
use testing::counted::{Counted, Tally};
use testing::{ok, same};

#[test]
fn a_refused_table_is_none(rt: HostRuntime) {
    for slots in [1usize, 3, 1000] {
        match Table::<u32>::new(rt.alloc(), slots) {
            Ok(table) => same!(&rt, table.slots(), slots),
            Err(AllocError) => ok!(&rt, println!(rt; "{slots} slots: no table")),
        }
        match UnionTable::<u32, u32>::new(rt.alloc(), slots) {
            Ok(table) => same!(&rt, table.slots(), slots),
            Err(AllocError) => ok!(&rt, println!(rt; "{slots} slots of unions: no table")),
        }
    }
}

// The first three slots share a block, and the last one is empty.
fn shared_table(alloc: Global) -> Option<Table<u32>> {
    let mut table = Table::new(alloc, 4).ok()?;
    for command in [
        Command::New(0, 5),
        Command::Clone(0, 1),
        Command::Clone(0, 2),
    ] {
        if table.serve(alloc, command) != Reply::Done {
            return None;
        }
    }
    Some(table)
}

fn report_run(rt: &(impl Abort + Print), run: Result<Vec<Reply>, AllocError>) {
    match run {
        Ok(replies) => ok!(rt, println!(rt; "{:?}", replies.as_slice())),
        Err(AllocError) => report(rt, "the room of the replies"),
    }
}

fn slots_of(table: &Table<u32>) -> [Option<u32>; 4] {
    [0, 1, 2, 3].map(|i: usize| table.get(i).copied())
}

#[test]
fn one_refusal_in_a_run(rt: HostRuntime) {
    let commands = vec![in rt.alloc(); Command::MakeMut(0, 9), Command::Own(1), Command::New(3, 7)];
    let (Some(mut table), Ok(commands)) = (shared_table(rt.alloc()), commands) else {
        return report(&rt, "the set-up");
    };
    report_run(&rt, table.run(rt.alloc(), commands));
    ok!(&rt, println!(rt; "{:?}", slots_of(&table)));
}

#[test]
fn one_refusal_in_a_plain_run(rt: HostRuntime) {
    let commands = vec![in rt.alloc();
        PlainCommand::New(3, 7),
        PlainCommand::Clone(3, 0),
        PlainCommand::GetMut(3, 8),
        PlainCommand::Same(0, 1),
    ];
    let (Some(mut table), Ok(commands)) = (shared_table(rt.alloc()), commands) else {
        return report(&rt, "the set-up");
    };
    report_run(&rt, table.run_plain(rt.alloc(), commands));
    ok!(&rt, println!(rt; "{:?}", slots_of(&table)));
}

// Whether the slot has a first handle, and its value.
fn union_of(table: &UnionTable<u32, u32>, i: usize) -> Option<(bool, u32)> {
    match table.get(i)? {
        ArcUnionBorrow::First(a) => Some((true, *a)),
        ArcUnionBorrow::Second(b) => Some((false, *b)),
    }
}

#[test]
fn one_refusal_on_unions(rt: HostRuntime) {
    let commands = vec![in rt.alloc();
        UnionCommand::First(0, 7),
        UnionCommand::Second(1, 9),
        UnionCommand::Clone(1, 2),
    ];
    let (Ok(mut table), Ok(commands)) = (UnionTable::new(rt.alloc(), 3), commands) else {
        return report(&rt, "the set-up");
    };
    report_run(&rt, table.run(rt.alloc(), commands));
    let slots = [0, 1, 2].map(|i: usize| union_of(&table, i));
    ok!(&rt, println!(rt; "{slots:?}"));
}

// Each value is dropped, also that of a command that failed.
#[test]
fn a_refused_command_drops_its_value(rt: HostRuntime) {
    let (alloc, tally) = (rt.alloc(), Tally::new());
    let five = || Counted::new(&tally, 5);
    let commands = vec![in alloc;
        Command::New(0, five()),
        Command::Clone(0, 1),
        Command::MakeMut(0, five()),
    ];
    let of_unions = vec![in alloc;
        UnionCommand::First(0, five()),
        UnionCommand::Second(0, five()),
    ];
    let (Ok(commands), Ok(of_unions)) = (commands, of_unions) else {
        return report(&rt, "the set-up");
    };
    let (Ok(mut table), Ok(mut unions)) = (Table::new(alloc, 2), UnionTable::new(alloc, 1)) else {
        return report(&rt, "the set-up");
    };
    report_run(&rt, table.run(alloc, commands));
    report_run(&rt, unions.run(alloc, of_unions));
    drop((table, unions));
    same!(&rt, tally.living(4), 0);
}
