//! Editions that one thread publishes and others read. Each thread is joined.
use cow_table::CowTable;
use crossbeam_channel::unbounded;
use std::thread;
use testing::{ok, same};
use uses::editions::{publish, publish_to_a_thread, read_all};

const EDITIONS: u64 = 1000;

#[test]
fn four_threads_read_what_one_publishes(rt: HostRuntime) {
    let alloc = rt.alloc();
    let (mut to_readers, mut readers) = (Vec::new(alloc), Vec::new(alloc));
    for _ in 0..4 {
        let (to_reader, reader) = ok!(&rt, unbounded(alloc));
        ok!(&rt, to_readers.push(to_reader));
        ok!(&rt, readers.push(reader));
    }
    let zeros = ok!(&rt, vec![in alloc; 0u64; 8]);
    let items = ok!(&rt, CowTable::from_items(alloc, zeros, 3));
    let rt = &rt;
    let (published, read) = thread::join(
        rt,
        move || publish(rt, alloc, items, EDITIONS, &to_readers),
        move || thread::map_vec(rt, readers, &|reader| read_all(rt, reader)),
    );
    same!(rt, published, Ok(()));
    same!(rt, ok!(rt, read).as_slice(), &[Some(EDITIONS); 4][..]);
}

#[test]
fn a_spawned_thread_reads_what_is_published(rt: HostRuntime) {
    let zeros = ok!(&rt, vec![in rt.alloc(); 0u64; 8]);
    let items = ok!(&rt, CowTable::from_items(rt.alloc(), zeros, 3));
    same!(
        &rt,
        publish_to_a_thread(rt, rt.alloc(), items, EDITIONS),
        Ok(Some(EDITIONS))
    );
}
