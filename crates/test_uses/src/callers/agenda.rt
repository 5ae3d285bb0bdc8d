//! An agenda: the handles that it has are dropped.
use crate::made::text_of;
use testing::{again, holds, ok, same};
use uses::agenda::{Agenda, Appointment, Time};

// In the end the handle of the test is the only one.
#[test]
fn titles_end_with_their_agenda(rt: HostRuntime) {
    let (title, mut agenda) = (text_of(&rt, "a"), Agenda::new());
    for minute in [540, 480] {
        let (time, title) = (Time { minute }, again!(&rt, &title));
        ok!(&rt, agenda.add(rt.alloc(), Appointment { time, title }));
    }
    let counts = (
        agenda.count_until(Time { minute: 500 }),
        agenda.iter().len(),
    );
    same!(&rt, (counts, title.is_unique()), ((1, 2), false));
    drop(agenda);
    holds!(&rt, title.is_unique());
}
