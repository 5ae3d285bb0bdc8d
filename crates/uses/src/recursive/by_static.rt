//! Types that hold themselves through a `StaticArc`, as through a reference: for `'static`, for a lifetime, in a
//! generic type, through a list, and in a cycle of two types.
ghost use Rattle.std.specs.Prelude.{◌≡◌, IfOk, Some};
ghost use Rattle.servo_arc.specs.Stays.{value_of};
ghost use Rattle.uses.specs.declared.recursive.by_static.Linked.{out-Linked};

use servo_arc::{StaticArc, UniqueArc};
use std::alloc::{AllocError, Global};

#[derive(Drop, Clone, Copy, Debug, PartialEq, Eq, PartialOrd, Ord, Hash)]
pub struct Linked {
    pub value: u32,
    pub next: Option<StaticArc<'static, Linked>>,
}

#[derive(Drop, Clone, Copy)]
pub struct Named<'a> {
    pub name: &'a str,
    pub next: Option<StaticArc<'a, Named<'a>>>,
}

/// Has no derived `Debug` or `==`: the toolchain proves these for a type that holds itself by an `Arc`, and not here.
#[derive(Drop)]
pub struct StaticGeneric<'a, T> {
    pub value: T,
    pub next: Option<StaticArc<'a, StaticGeneric<'a, T>>>,
}

#[derive(Drop)]
pub struct StaticsInVec {
    pub value: u32,
    pub kids: Vec<StaticArc<'static, StaticsInVec>>,
}

#[cycle(static_first_and_second)]
#[derive(Drop, Clone, Copy)]
pub struct StaticFirst {
    pub value: u32,
    pub second: Option<StaticArc<'static, StaticSecond>>,
}

#[cycle(static_first_and_second)]
#[derive(Drop, Clone, Copy)]
pub struct StaticSecond {
    pub value: u32,
    pub first: Option<StaticArc<'static, StaticFirst>>,
}

/// Creates a node in front of another one.
pub fn in_front(
    alloc: Global,
    value: u32,
    next: Option<StaticArc<'static, Linked>>,
) -> Result<StaticArc<'static, Linked>, AllocError>
    ensures value { IfOk result (λ s. (out-Linked (value_of s)).value ≡ value) }
    ensures next { IfOk result (λ s. (out-Linked (value_of s)).next ≡ next.entry) }
{
    Ok(UniqueArc::try_new(alloc, Linked { value, next })?.into_static())
}
