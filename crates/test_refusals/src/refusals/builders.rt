//! What a failed builder of header slices leaves.
use crate::refusals::reporting::report;
use servo_arc::{Arc, BuildError, HeaderSlice, ThinStr, UniqueArc};
use std::alloc::Global;
use std::io::Print;
use std::process::Abort;
use std::sync::atomic::AtomicU64;
use std::sync::atomic::Ordering::SeqCst;
use testing::counted::{Counted, Tally, counted_items};
use testing::{ok, same, same_at, shared};

// The number of calls of an iterator, and the numbers of drops.
#[derive(Drop)]
struct Ledger {
    asks: AtomicU64,
    headers: Tally,
    items: Tally,
    sources: Tally,
}

impl Ledger {
    fn new() -> Ledger {
        Ledger {
            asks: AtomicU64::new(0),
            headers: Tally::new(),
            items: Tally::new(),
            sources: Tally::new(),
        }
    }

    fn header(&self) -> Counted<'_> {
        Counted::new(&self.headers, 9)
    }

    fn source(&self, len: usize) -> Source<'_> {
        Source {
            left: len,
            ledger: self,
            end: Counted::new(&self.sources, 0),
        }
    }

    // The number of calls of the iterator, and the number of dropped headers and items.
    fn asks_and_drops(&self) -> [u64; 3] {
        let asks = self.asks.load(SeqCst);
        [asks, self.headers.drops(), self.items.drops()]
    }
}

#[derive(Drop)]
struct Source<'a> {
    left: usize,
    ledger: &'a Ledger,
    end: Counted<'a>,
}

impl<'a> Iterator for Source<'a> {
    ghost use Rattle.std.specs.Iterator.{at_most};

    type Item = Counted<'a>;

    ghost remaining = { λ s. at_most s.left };

    fn next(&mut self) -> Option<Counted<'a>> {
        self.ledger.asks.fetch_add(1, SeqCst);
        if self.left == 0 {
            return None;
        }
        self.left -= 1;
        Some(Counted::new(&self.ledger.items, 5))
    }
}

impl ExactSizeIterator for Source<'_> {
    fn len(&self) -> usize {
        self.left
    }
}

#[derive(Clone, Copy, Debug, PartialEq)]
enum Builder {
    OfArc,
    OfArcWithSize,
    OfArcAlloc,
    OfStaticArc,
    OfUnique,
    OfUniqueWithSize,
    OfResults,
    OfResultsUnique,
}

const BUILDERS: [Builder; 8] = [
    Builder::OfArc,
    Builder::OfArcWithSize,
    Builder::OfArcAlloc,
    Builder::OfStaticArc,
    Builder::OfUnique,
    Builder::OfUniqueWithSize,
    Builder::OfResults,
    Builder::OfResultsUnique,
];

type Counts<'a> = HeaderSlice<Counted<'a>, Counted<'a>>;

type Built<'a> = Result<Arc<Counts<'a>>, BuildError>;

fn build<'a>(builder: Builder, alloc: Global, ledger: &'a Ledger, len: usize) -> Built<'a> {
    let (header, items) = (ledger.header(), ledger.source(len));
    match builder {
        Builder::OfArc => Arc::from_header_and_iter(alloc, header, items),
        Builder::OfArcWithSize => Arc::from_header_and_iter_with_size(alloc, header, items, len),
        Builder::OfArcAlloc => Arc::from_header_and_iter_alloc(alloc, header, items, len, false),
        Builder::OfStaticArc => Arc::from_header_and_iter_alloc(alloc, header, items, len, true),
        Builder::OfUnique => shared(UniqueArc::from_header_and_iter(alloc, header, items)),
        Builder::OfUniqueWithSize => {
            shared(UniqueArc::from_header_and_iter_with_size(alloc, header, items, len))
        }
        Builder::OfResults => Arc::try_from_header_and_iter(alloc, header, items.map(Ok)),
        Builder::OfResultsUnique => {
            shared(UniqueArc::try_from_header_and_iter(alloc, header, items.map(Ok)))
        }
    }
}

// The header and the items of a static slice are never dropped.
fn check_builder(rt: &(impl Abort + Print + AllocGlobal), builder: Builder, len: usize) {
    let ledger = Ledger::new();
    let number = len as u64;
    let untouched = (9, len, [number.wrapping_add(1), 0, 0]);
    let (expected, made) = match build(builder, rt.alloc(), &ledger, len) {
        Ok(slice) => {
            let made = (slice.header.value, slice.len(), ledger.asks_and_drops());
            drop(slice);
            let is_static = builder == Builder::OfStaticArc;
            let after = if is_static { [0, 0] } else { [1, number] };
            ([number.wrapping_add(1), after[0], after[1]], made)
        }
        Err(refusal) => {
            same!(rt, refusal, BuildError::Memory);
            let told = println!(rt; "{builder:?} of {len} items: nothing asked");
            ok!(rt, told);
            ([0, 1, 0], untouched)
        }
    };
    same_at!(rt, (builder, len), made, untouched);
    same_at!(rt, (builder, len), ledger.asks_and_drops(), expected);
    same!(rt, ledger.sources.drops(), 1);
}

// The largest has 65,536 bytes of items.
#[test]
fn a_refused_builder_asks_for_nothing(rt: HostRuntime) {
    for builder in BUILDERS {
        for len in [0, 1, 3, 100, 4096] {
            check_builder(&rt, builder, len);
        }
    }
}

// Whether a slice, a text or a vector becomes a header slice.
fn is_made<'a>(list: &str, alloc: Global, header: Counted<'a>, items: Vec<Counted<'a>>) -> bool {
    match list {
        "Slice" => Arc::from_header_and_slice(alloc, header, &[7u64; 3]).is_ok(),
        "Text" => ThinStr::from_header_and_str(alloc, header, "text").is_ok(),
        _ => Arc::from_header_and_vec(alloc, header, items).is_ok(),
    }
}

#[test]
fn a_refused_list_is_dropped_with_its_header(rt: HostRuntime) {
    for list in ["Slice", "Text", "Vector"] {
        let tally = Tally::new();
        let Some(items) = counted_items(rt.alloc(), &tally, 3) else {
            return ok!(&rt, println!(rt; "{list}: no vector"));
        };
        if !is_made(list, rt.alloc(), Counted::new(&tally, 9), items) {
            ok!(&rt, println!(rt; "{list}: all dropped"));
        }
        same_at!(&rt, list, tally.living(4), 0);
    }
}

#[test]
fn a_builder_of_items_without_size_asks_for_its_block_alone(rt: HostRuntime) {
    match Arc::from_header_and_iter(rt.alloc(), 9, [(), (), ()].into_iter()) {
        Ok(slice) => same!(&rt, (slice.header, slice.len()), (9, 3)),
        Err(refusal) => {
            same!(&rt, refusal, BuildError::Memory);
            report(&rt, "no block");
        }
    }
}
