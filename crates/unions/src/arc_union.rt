//! `ArcUnion`, a handle of one of two types.
ghost use Rattle.std.specs.Prelude.{◌≡◌, IfOk, IfErr, IsTrue, option_map};
ghost use Rattle.handles.specs.Borrowed.{borrowed};
ghost use Rattle.unions.specs.Unions.{First, Second, is_first, is_second, first, second};

mod compare;

use handles::arc::Arc;
use handles::borrow::ArcBorrow;
use handles::header_slice::HeaderSlice;
use std::alloc::AllocError;
use std::marker::Model;

/// A handle of one of two types, such as the source of a style, a rule or the element itself:
/// `ArcUnion::from_first(rule)`.
///
/// Use `match union.borrow()` to read it. A union is the first or the second variant, also if both types are the
/// same. It takes two words.
#[derive(Drop)]
pub struct ArcUnion<A, B> {
    handle: EitherArc<A, B>,
}

/// A handle of one of two types of header slices: `ThinArcUnion<u8, u32, u32, u64>`.
pub type ThinArcUnion<H1, T1, H2, T2> = ArcUnion<HeaderSlice<H1, T1>, HeaderSlice<H2, T2>>;

#[derive(Drop)]
enum EitherArc<A, B> {
    First(Arc<A>),
    Second(Arc<B>),
}

impl<A, B> Model for ArcUnion<A, B> {
    ghost use Rattle.unions.specs.Unions.{Union};

    ghost Value = { Union A B };

    ghost use Rattle.unions.specs.UnionHandles.{shown_union};

    ghost view = { λ u. shown_union u.handle };
}

/// The handle of a union, borrowed: `match union.borrow()`.
#[derive(Debug)]
#[derive_where(Clone, Copy)]
pub enum ArcUnionBorrow<'a, A, B> {
    /// The union is the first variant.
    First(ArcBorrow<'a, A>),
    /// The union is the second variant.
    Second(ArcBorrow<'a, B>),
}

impl<A, B> ArcUnion<A, B> {
    ghost use Rattle.unions.specs.UnionHandles.{borrowed_union};

    /// Wraps a handle as the first variant: `ArcUnion::from_first(rule)`. The count stays as it is.
    pub fn from_first(handle: Arc<A>) -> ArcUnion<A, B>
        ensures { result ≡ First handle }
    {
        ArcUnion {
            handle: EitherArc::First(handle),
        }
    }

    /// Wraps a handle as the second variant: `ArcUnion::from_second(inline)`. The count stays as it is.
    pub fn from_second(handle: Arc<B>) -> ArcUnion<A, B>
        ensures { result ≡ Second handle }
    {
        ArcUnion {
            handle: EitherArc::Second(handle),
        }
    }

    /// Returns `true` if the union is the first variant: `union.is_first()`.
    pub fn is_first(&self) -> bool
        ensures { result ≡ is_first self.now }
    {
        matches!(self.handle, EitherArc::First(_))
    }

    /// Returns `true` if the union is the second variant: `union.is_second()`.
    pub fn is_second(&self) -> bool
        ensures { result ≡ is_second self.now }
    {
        matches!(self.handle, EitherArc::Second(_))
    }

    /// Borrows the handle, if the union is the first variant: `union.as_first()`.
    pub fn as_first(&self) -> Option<ArcBorrow<'_, A>>
        ensures { option_map borrowed result ≡ first self.now }
    {
        match &self.handle {
            EitherArc::First(handle) => Some(handle.borrow_arc()),
            EitherArc::Second(_) => None,
        }
    }

    /// Borrows the handle, if the union is the second variant: `union.as_second()`.
    pub fn as_second(&self) -> Option<ArcBorrow<'_, B>>
        ensures { option_map borrowed result ≡ second self.now }
    {
        match &self.handle {
            EitherArc::First(_) => None,
            EitherArc::Second(handle) => Some(handle.borrow_arc()),
        }
    }

    /// Borrows the handle of either variant: `match union.borrow()`. The count stays as it is.
    pub fn borrow(&self) -> ArcUnionBorrow<'_, A, B>
        ensures { borrowed_union result ≡ self.now }
    {
        match &self.handle {
            EitherArc::First(handle) => ArcUnionBorrow::First(handle.borrow_arc()),
            EitherArc::Second(handle) => ArcUnionBorrow::Second(handle.borrow_arc()),
        }
    }

    /// Unwraps the handle, if the union is the first variant: `union.into_first()`. The count stays as it is.
    ///
    /// # Errors
    ///
    /// Returns the union if it is the second variant.
    pub fn into_first(self) -> Result<Arc<A>, ArcUnion<A, B>>
        ensures first { IfOk result (λ a. self ≡ First a) }
        ensures second { IfErr result (λ u. (u ≡ self) × IsTrue (is_second self)) }
    {
        match self.handle {
            EitherArc::First(handle) => Ok(handle),
            EitherArc::Second(handle) => Err(ArcUnion::from_second(handle)),
        }
    }

    /// Unwraps the handle, if the union is the second variant: `union.into_second()`. The count stays as it is.
    ///
    /// # Errors
    ///
    /// Returns the union if it is the first variant.
    pub fn into_second(self) -> Result<Arc<B>, ArcUnion<A, B>>
        ensures second { IfOk result (λ b. self ≡ Second b) }
        ensures first { IfErr result (λ u. (u ≡ self) × IsTrue (is_first self)) }
    {
        match self.handle {
            EitherArc::First(handle) => Err(ArcUnion::from_first(handle)),
            EitherArc::Second(handle) => Ok(handle),
        }
    }

    /// Returns `true` if both are the same variant and have one block: `ArcUnion::ptr_eq(&a, &b)`. The answer is as
    /// exact as that of `Arc::ptr_eq`.
    pub fn ptr_eq(this: &Self, other: &Self) -> bool
        ensures one_kind { IsTrue result → is_first this.now ≡ is_first other.now }
    {
        match (&this.handle, &other.handle) {
            (EitherArc::First(a), EitherArc::First(b)) => Arc::ptr_eq(a, b),
            (EitherArc::Second(a), EitherArc::Second(b)) => Arc::ptr_eq(a, b),
            _ => false,
        }
    }
}

/// Clones the handle, and fails as the `clone` of an `Arc` does: `union.clone()?`.
impl<A: Drop, B: Drop> Clone for ArcUnion<A, B> {
    ghost is_clone = { λ u v. v ≡ u };

    fn clone(&self) -> Result<ArcUnion<A, B>, AllocError> {
        let handle = match &self.handle {
            EitherArc::First(handle) => EitherArc::First(handle.clone()?),
            EitherArc::Second(handle) => EitherArc::Second(handle.clone()?),
        };
        Ok(ArcUnion { handle })
    }
}
