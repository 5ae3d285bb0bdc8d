//! The error of a clone at the limit.
ghost use Rattle.std.specs.Prelude.{◌≡◌, ℕ, List};
ghost use base.Fml.{fsep};
ghost use Rattle.counting_word.specs.Logs.{Entry};
ghost use Rattle.counting_word.specs.Codes.{coded_log};
ghost use Rattle.handles.specs.Founds.{FoundFull};
ghost use Rattle.handles.specs.Attempts.{IsFullOf};
ghost use Rattle.handles.specs.Inside.Blocks.{BlockId, coded_id, fact, reached};

use crate::block::{Handle, Logged};
use std::marker::Model;
use thiserror::Error;

/// The error of `Arc::clone(&a, &rt)`: the block has as many handles as its limit allows. A `Full` takes no bytes.
#[derive(Debug, PartialEq, Eq, Error, Drop)]
#[error("the handle limit is reached")]
pub struct Full {
    pub(crate) ghost limit: { ℕ },
    pub(crate) ghost id: { BlockId } by { coded_id },
    // A log of that block, whose last entry found the limit.
    pub(crate) ghost log: { List Entry } by { coded_log },
}

impl Model for Full {
    ghost also_owns = { λ f. fsep (reached f.id f.log) (fact (FoundFull f.limit f.log)) };
}

unsafe impl Send for Full {}

unsafe impl Sync for Full {}

impl<T> Handle<T> {
    // Makes the error from a step that found the block of this handle to be full.
    #[inline]
    pub(crate) fn full_by(&self, logged: Logged) -> Full
        requires { IsFullOf self.now logged }
        ensures { (result.limit ≡ self.now.held.limit.count) × (result.id ≡ self.now.id) × (result.log ≡ logged.log) }
    {
        let Logged {} = logged;
        Full {}
    }
}
