//! Snapshots for readers: one thread makes versions of a list and of a map, and other threads read each of them.
ghost use Rattle.std.specs.Prelude.{◌≡◌, IsTrue, Some, slice_get};
ghost use Rattle.std.specs.Ordering.{nat_cmp};
ghost use Rattle.maps.specs.Maps.{lookup};

use cow_table::{CowTable, PlaceError};
use crossbeam_channel::{Receiver, Sender, unbounded};
use maps::TreeMap;
use std::alloc::{AllocError, Global};
use std::sync::Wait;
use std::thread;
use std::thread::Threads;

/// The number of items of the list, and of keys of the map, that are written in turn.
const WRITTEN: u64 = 8;

/// A version of both with its number, which is also the first item of the list and the value under key 0 of the map.
#[derive(Drop)]
pub struct Edition {
    pub number: u64,
    pub items: CowTable<u64>,
    pub map: TreeMap<u64, u64>,
    ghost first: { slice_get items 0 ≡ Some number },
    ghost under_zero: { lookup nat_cmp 0 map ≡ Some number },
}

impl Edition {
    /// Returns `true`, on whichever thread the edition is read: the type says that both have the number.
    pub fn has_its_number(&self) -> bool
        ensures { IsTrue result }
    {
        let number = Some(self.number);
        self.items.get(0).copied() == number && self.map.get(&0).copied() == number
    }

    /// Returns `true` if the other items and keys have what `publish` had written by then.
    pub fn is_as_published(&self) -> bool {
        let is_written = |place: u64| {
            let written = latest(self.number, place);
            let item = self.items.get(place as usize).copied();
            item == Some(written.unwrap_or(0)) && self.map.get(&place).copied() == written
        };
        self.items.len() as u64 == WRITTEN && (1..WRITTEN).all(is_written)
    }
}

// The last number up to `number` that was written to `place`. Numbers are counted from 1.
fn latest(number: u64, place: u64) -> Option<u64> {
    let since = (number % WRITTEN + WRITTEN - place % WRITTEN) % WRITTEN;
    if since < number {
        Some(number - since)
    } else {
        None
    }
}

/// Makes `editions` versions of a list of `WRITTEN` items and of a map, each from the one before, and sends each of
/// them to all readers.
pub fn publish(
    rt: &impl Wait,
    alloc: Global,
    mut items: CowTable<u64>,
    editions: u64,
    readers: &[Sender<Edition, Global>],
) -> Result<(), PlaceError> {
    let mut map = TreeMap::new();
    for number in 1..=editions {
        items.set(alloc, (number % WRITTEN) as usize, number)?;
        map.insert(alloc, number % WRITTEN, number)?;
        for reader in readers {
            let edition = numbered(&mut items, &map, alloc, number)?;
            let _gone = reader.send(rt, edition);
        }
    }
    Ok(())
}

fn numbered(
    items: &mut CowTable<u64>,
    map: &TreeMap<u64, u64>,
    alloc: Global,
    number: u64,
) -> Result<Edition, PlaceError> {
    items.set(alloc, 0, number)?;
    let items: CowTable<u64> = items.clone()?;
    let mut map: TreeMap<u64, u64> = map.clone()?;
    map.insert(alloc, 0, number)?;
    Ok(Edition { number, items, map })
}

/// Reads editions until the channel is closed. Returns their number, or `None` if one is not as it was published.
pub fn read_all(rt: &impl Wait, editions: Receiver<Edition, Global>) -> Option<u64> {
    let mut read = 0u64;
    for edition in editions.iter(rt) {
        if !edition.has_its_number() || !edition.is_as_published() {
            return None;
        }
        read = read.wrapping_add(1);
    }
    Some(read)
}

/// Publishes to one reader, on a thread of its own. `publish` drops the sender when it returns, which ends the reader.
pub fn publish_to_a_thread<R: Threads + Wait + Copy + Send + 'static>(
    rt: R,
    alloc: Global,
    items: CowTable<u64>,
    editions: u64,
) -> Result<Option<u64>, PlaceError> {
    let (to_reader, reader) = unbounded(alloc)?;
    let read = thread::spawn(&rt, move || read_all(&rt, reader)).map_err(AllocError::from)?;
    publish(&rt, alloc, items, editions, &[to_reader])?;
    Ok(read.join(&rt))
}
