//! Types that hold themselves through collections: the toolchain's behind an `Arc`, a `ThinArc` and a `CowTable`.
ghost use Rattle.std.specs.Prelude.{◌≡◌, OnOk, Some};
ghost use Rattle.std.specs.BTreeMap.{get};
ghost use Rattle.std.specs.Ordering.{nat_cmp};

use cow_table::CowTable;
use servo_arc::{Arc, ThinArc};
use std::alloc::{AllocError, Global};
use std::collections::BTreeMap;

/// A value that may hold values. Its versions (snapshots) share their lists and maps.
#[derive(Drop, Debug, Clone, PartialEq, Eq, PartialOrd, Ord, Hash)]
pub enum Value {
    Null,
    Number(u64),
    List(Arc<Vec<Value>>),
    Map(Arc<BTreeMap<u64, Value>>),
}

/// Inserts an item under a key, in place if no other version shares the map. Other versions keep theirs.
pub fn insert(
    map: &mut Arc<BTreeMap<u64, Value>>,
    alloc: Global,
    key: u64,
    item: Value,
) -> Result<(), AllocError>
    ensures { OnOk result (get nat_cmp map.new key ≡ Some item) }
{
    Arc::make_mut(map, alloc)?.insert(key, item)?;
    Ok(())
}

#[derive(Drop, Debug, Clone, PartialEq, Eq, PartialOrd, Ord, Hash)]
pub struct MapAlone {
    pub below: Arc<BTreeMap<u64, MapAlone>>,
}

#[derive(Drop, Debug, Clone, PartialEq, Eq)]
pub struct TableAlone {
    pub below: CowTable<TableAlone>,
}

#[derive(Drop, Debug, Clone, PartialEq, Eq)]
pub enum EachInAnEnum {
    End,
    List(Arc<Vec<EachInAnEnum>>),
    Map(Arc<BTreeMap<u64, EachInAnEnum>>),
    Slice(ThinArc<u64, EachInAnEnum>),
    Table(CowTable<EachInAnEnum>),
}

#[derive(Drop, Debug, Clone, PartialEq, Eq)]
pub struct EachBehindAnArc {
    pub list: Arc<Arc<Vec<EachBehindAnArc>>>,
    pub map: Arc<Arc<BTreeMap<u64, EachBehindAnArc>>>,
    pub slice: Arc<ThinArc<u64, EachBehindAnArc>>,
    pub table: Arc<CowTable<EachBehindAnArc>>,
}

#[cycle(section_and_part)]
#[derive(Drop, Debug, Clone, PartialEq, Eq)]
pub struct Section {
    pub notes: Arc<Vec<Part>>,
    pub parts: CowTable<Part>,
}

#[cycle(section_and_part)]
#[derive(Drop, Debug, Clone, PartialEq, Eq)]
pub enum Part {
    Text(u64),
    Named(Arc<BTreeMap<u64, Section>>),
    Sections(ThinArc<u64, Section>),
}
