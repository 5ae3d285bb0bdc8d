//! A command drops the value that it does not keep, and the value that it replaces. Only `Mark` makes a block static,
//! whose value would never be dropped.
use servo_arc::table::Reply::{Done, Empty, Is, NoSlot, Shared};
use servo_arc::table::{Command, PlainCommand as Plain, Table, UnionCommand as Union, UnionTable};
use testing::counted::{Counted, Tally};
use testing::{ok, same, served};

fn five(tally: &Tally) -> Counted<'_> {
    Counted::new(tally, 5)
}

#[test]
fn a_table_drops_what_it_does_not_keep(rt: HostRuntime) {
    let tally = Tally::new();
    let mut table = ok!(&rt, Table::new(rt.alloc(), 2));
    let (commands, replies) = served!(&rt;
        Plain::New(0, five(&tally)) => Done, Plain::New(0, five(&tally)) => Done,
        Plain::New(2, five(&tally)) => NoSlot, Plain::GetMut(0, five(&tally)) => Done,
        Plain::GetMut(1, five(&tally)) => Empty, Plain::GetMut(2, five(&tally)) => NoSlot,
        Plain::IntoUnique(0, five(&tally)) => Done, Plain::IntoUnique(1, five(&tally)) => Empty,
        Plain::IntoUnique(2, five(&tally)) => NoSlot, Plain::Raw(0) => Done, Plain::Clone(0, 1) => Done,
        Plain::PtrEq(0, 1) => Is(true), Plain::Same(0, 1) => Is(true),
        Plain::GetMut(0, five(&tally)) => Shared, Plain::IntoUnique(1, five(&tally)) => Shared);
    let found = ok!(&rt, table.run_plain(rt.alloc(), commands));
    same!(&rt, (found.as_slice(), tally.read()), (replies, (0, 10)));
    // Eleven values were made. One is left, in both slots.
    let (commands, replies) = served!(&rt;
        Command::MakeMut(0, five(&tally)) => Done, Command::MakeMut(0, five(&tally)) => Done,
        Command::MakeMut(2, five(&tally)) => NoSlot, Command::Clone(0, 1) => Done, Command::Own(1) => Done,
        Command::PtrEq(0, 1) => Is(false), Command::Drop(1) => Done, Command::MakeMut(1, five(&tally)) => Empty);
    let found = ok!(&rt, table.run(rt.alloc(), commands));
    same!(&rt, (found.as_slice(), tally.read()), (replies, (2, 16)));
    drop(table);
    same!(&rt, tally.living(15), 0);
}

#[test]
fn a_table_of_unions_drops_what_it_does_not_keep(rt: HostRuntime) {
    let tally = Tally::new();
    let mut table = ok!(&rt, UnionTable::new(rt.alloc(), 2));
    let (commands, replies) = served!(&rt;
        Union::First(0, five(&tally)) => Done, Union::First(0, five(&tally)) => Done,
        Union::First(2, five(&tally)) => NoSlot, Union::Second(1, five(&tally)) => Done,
        Union::Second(2, five(&tally)) => NoSlot, Union::IsFirst(0) => Is(true), Union::IsSecond(1) => Is(true),
        Union::ReadFirst(0, five(&tally)) => Is(true), Union::ReadFirst(1, five(&tally)) => Is(false),
        Union::ReadFirst(2, five(&tally)) => NoSlot, Union::ReadSecond(1, five(&tally)) => Is(true),
        Union::ReadSecond(0, five(&tally)) => Is(false), Union::ReadSecond(2, five(&tally)) => NoSlot,
        Union::PtrEq(0, 0) => Is(true), Union::PtrEq(1, 1) => Is(true), Union::Same(0, 0) => Is(true),
        Union::Same(1, 1) => Is(true), Union::Clone(0, 1) => Done, Union::Second(0, five(&tally)) => Done);
    let found = ok!(&rt, table.run(rt.alloc(), commands));
    // Twelve values were made, and two are left.
    same!(&rt, (found.as_slice(), tally.read()), (replies, (0, 10)));
    drop(table);
    same!(&rt, tally.living(12), 0);
}
