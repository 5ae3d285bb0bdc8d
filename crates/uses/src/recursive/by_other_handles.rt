//! Types that hold themselves through the other handles.
use servo_arc::{Arc, ArcBorrow, ArcUnion, RawArc, ThinArc, UniqueArc};

/// A linked list. As for each chain here, the derived `drop` is a recursion, so a long one needs a deep call stack.
#[derive(Drop, Debug, PartialEq, Eq)]
pub struct Unique {
    pub value: u32,
    pub next: Option<UniqueArc<Unique>>,
}

#[derive(Drop)]
pub struct ArcInUnique {
    pub value: u32,
    pub next: Option<UniqueArc<Arc<ArcInUnique>>>,
}

/// A chain of raw handles. Only `Arc::from_raw` consumes a raw handle, so this type cannot be dropped.
pub struct Token {
    pub value: u32,
    pub next: Option<RawArc<Token>>,
}

#[derive(Drop, Debug, Clone, PartialEq, Eq, PartialOrd, Ord, Hash)]
pub struct FirstOfUnion {
    pub value: u32,
    pub next: ArcUnion<FirstOfUnion, u32>,
}

#[derive(Drop, Debug, Clone, PartialEq, Eq, PartialOrd, Ord, Hash)]
pub struct HeaderTree {
    pub kids: ThinArc<u32, HeaderTree>,
}

#[derive(Debug, Clone, Copy, PartialEq, Eq, PartialOrd, Ord, Hash)]
pub struct Borrowing<'a> {
    pub value: u32,
    pub next: Option<ArcBorrow<'a, Borrowing<'a>>>,
}
