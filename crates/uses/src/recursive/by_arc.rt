//! Types that hold themselves through an `Arc`.
use servo_arc::{Arc, ThinArc};
use std::collections::BTreeMap;

/// A linked list. As for each chain here, the derived `drop` is a recursion, so a long one needs a deep call stack. The
/// `Stack` of `maps` drops its nodes in a loop.
#[derive(Drop, Debug, Clone, PartialEq, Eq, PartialOrd, Ord, Hash)]
pub struct Node {
    pub value: u32,
    pub next: Option<Arc<Node>>,
}

#[derive(Drop)]
pub struct Tree {
    pub left: Option<Arc<Tree>>,
    pub key: u32,
    pub value: u32,
    pub right: Option<Arc<Tree>>,
}

#[derive(Drop, Clone, PartialEq)]
pub enum Sum {
    Number(u32),
    Add(Arc<Sum>, Arc<Sum>),
}

#[derive(Drop, Clone, PartialEq)]
pub struct Generic<T> {
    pub value: T,
    pub next: Option<Arc<Generic<T>>>,
}

#[derive(Drop, Clone, PartialEq)]
pub struct Lasting<'a> {
    pub name: &'a str,
    pub next: Option<Arc<Lasting<'a>>>,
}

#[derive(Drop, Clone, PartialEq)]
pub struct ArcsInVec {
    pub value: u32,
    pub kids: Vec<Arc<ArcsInVec>>,
}

#[derive(Drop, Clone, PartialEq)]
pub struct ArcsInMap {
    pub value: u32,
    pub kids: BTreeMap<u8, Arc<ArcsInMap>>,
}

#[derive(Drop, Clone, PartialEq)]
pub struct ArcsInArray {
    pub value: u32,
    pub kids: [Option<Arc<ArcsInArray>>; 2],
}

#[derive(Drop)]
pub struct VecInArc {
    pub value: u32,
    pub kids: Arc<Vec<VecInArc>>,
}

#[derive(Drop, Clone, Debug)]
pub struct OptionInArc {
    pub value: u32,
    pub next: Arc<Option<OptionInArc>>,
}

#[derive(Drop)]
pub enum ArcInArc {
    End,
    More(Arc<Arc<ArcInArc>>),
}

#[cycle(first_and_second)]
#[derive(Drop, Clone, PartialEq)]
pub struct First {
    pub value: u32,
    pub second: Option<Arc<Second>>,
}

#[cycle(first_and_second)]
#[derive(Drop, Clone, PartialEq)]
pub struct Second {
    pub value: u32,
    pub first: Option<Arc<First>>,
}

/// Stands in for a union that holds itself by both of its types.
#[derive(Drop)]
pub enum EitherWay {
    Left(u32, Option<Arc<EitherWay>>),
    Right(Option<Arc<EitherWay>>),
}

/// Stands in for a header that holds the slice itself.
#[derive(Drop)]
pub struct BesideHeader {
    pub above: Option<Arc<BesideHeader>>,
    pub letters: ThinArc<u32, u8>,
}
