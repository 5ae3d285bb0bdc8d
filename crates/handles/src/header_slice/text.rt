//! `ThinStr`, a header and a text behind one pointer.
ghost use Rattle.std.specs.Prelude.{◌≡◌, IfOk};

use super::ThinArc;
use crate::arc::Arc;
use std::alloc::{AllocError, Global};
use std::fmt;
use std::marker::Model;

/// A shared header and a text behind one pointer: `ThinStr::from_header_and_str(alloc, 7, "ab")?`. With `()` as the
/// header it takes the place of an `Arc<str>`.
///
/// In a contract a `ThinStr` is a header slice, whose items are the bytes of the text.
#[derive(Drop, PartialEq, Eq, PartialOrd, Ord, Hash)]
pub struct ThinStr<H> {
    block: ThinArc<H, u8>,
}

impl<H> Model for ThinStr<H> {
    ghost use Rattle.std.specs.Prelude.{ℕ};
    ghost use Rattle.std.specs.Str.{IsUtf8};
    ghost use Rattle.handles.specs.HeaderSlice.{HeaderAndItems};

    ghost Value = { HeaderAndItems H ℕ };

    ghost view = { λ t. t.block };

    ghost inverse = { λ text. record { block = text } };

    ghost invariant = { λ t. ∥ IsUtf8 t.block.items ∥₁ };
}

impl<H> ThinStr<H> {
    /// Returns the header: `name.header()`.
    #[inline]
    pub fn header(&self) -> &H
        ensures { result.now ≡ self.now.header }
    {
        &self.block.header
    }

    /// Returns the text: `name.as_str()`.
    #[inline]
    pub fn as_str(&self) -> &str
        ensures { result.now ≡ self.now.items }
    {
        // The bytes were copied from a text, and nothing writes them.
        unsafe { str::from_utf8_unchecked(self.block.slice()) }
    }

    /// Returns the handle of the header and the bytes, as an interner keeps it: `name.as_thin_arc()`.
    #[inline]
    pub fn as_thin_arc(&self) -> &ThinArc<H, u8>
        ensures { result.now ≡ self.now }
    {
        &self.block
    }
}

impl<H: Drop> ThinStr<H> {
    /// Builds a header and a copy of the text, in O(n): `ThinStr::from_header_and_str(alloc, 7, "ab")?`.
    ///
    /// # Errors
    ///
    /// Returns `AllocError` if an allocation fails, and drops the header. At most two allocations are made.
    pub fn from_header_and_str(
        alloc: Global,
        header: H,
        text: &str,
    ) -> Result<ThinStr<H>, AllocError>
        ensures { IfOk result (λ made. made ≡ record { header = header; items = text.now }) }
    {
        let block = Arc::from_header_and_slice(alloc, header, text.as_bytes())?;
        Ok(ThinStr { block })
    }
}

/// Clones the handle, and fails as the `clone` of an `Arc` does: `name.clone()?`.
impl<H: Drop> Clone for ThinStr<H> {
    ghost is_clone = { λ a b. b ≡ a };

    fn clone(&self) -> Result<ThinStr<H>, AllocError> {
        Ok(ThinStr {
            block: self.block.clone()?,
        })
    }
}

/// Writes the text alone.
impl<H> fmt::Display for ThinStr<H> {
    fn fmt<W: fmt::Write>(&self, f: &mut fmt::Formatter<W>) -> fmt::Result {
        f.pad(self.as_str())
    }
}

impl<H: fmt::Debug> fmt::Debug for ThinStr<H> {
    fn fmt<W: fmt::Write>(&self, f: &mut fmt::Formatter<W>) -> fmt::Result {
        f.debug_struct("ThinStr")
            .field("header", self.header())
            .field("text", &self.as_str())
            .finish()
    }
}
