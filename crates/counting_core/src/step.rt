//! The steps of the owners of a block, and their answers.
ghost use Rattle.std.specs.Prelude.{◌≡◌, ⊤, option_map};
ghost use Rattle.counting_core.specs.Permitted.{handle_of, owner_of};

use std::alloc::AllocError;

/// A step of `owner`, mostly on `handle`: `Step::Clone { owner: 0, handle: 0 }`. Owners and handles are numbered from
/// 0; handles in the order of their births.
#[derive(Copy, Debug, PartialEq)]
pub enum Step<V> {
    /// Reads the count, to make another handle of the block.
    Clone {
        owner: usize,
        handle: usize,
    },
    /// Increments the count by a compare-exchange, from the count that this owner's clone in flight saw last.
    Raise {
        owner: usize,
    },
    /// Gives up the clone in flight.
    Quit {
        owner: usize,
    },
    /// Reads the count, to end the handle.
    Drop {
        owner: usize,
        handle: usize,
    },
    /// Decrements the count, which finishes the drop in flight.
    Lower {
        owner: usize,
    },
    /// Makes the block static: from then on its value is never given up.
    Mark {
        owner: usize,
        handle: usize,
    },
    /// Asks whether the handle is the only one and the block is not static.
    Unique {
        owner: usize,
        handle: usize,
    },
    /// Asks whether the block is static.
    Static {
        owner: usize,
        handle: usize,
    },
    /// Reads the count, to write the value through the only handle.
    GetMut {
        owner: usize,
        handle: usize,
    },
    /// Writes the value.
    Write {
        owner: usize,
        handle: usize,
        value: V,
    },
    /// Ends the writing that a `GetMut` began.
    EndWrite {
        owner: usize,
        handle: usize,
    },
    /// Reads the count, to have the only handle exclusively: its holder then writes the value at will, and nobody
    /// else may use the handle.
    IntoUnique {
        owner: usize,
        handle: usize,
    },
    /// Ends the exclusive use that `IntoUnique` began: the handle may be used as any other again.
    Share {
        owner: usize,
        handle: usize,
    },
    /// Reads the value.
    Load {
        owner: usize,
        handle: usize,
    },
    /// Lends the handle to another owner.
    Lend {
        owner: usize,
        handle: usize,
        to: usize,
    },
    /// Returns a handle that was lent to this owner.
    Return {
        owner: usize,
        handle: usize,
    },
    /// Gives the handle to another owner for good.
    Give {
        owner: usize,
        handle: usize,
        to: usize,
    },
}

/// The answer to a step: `Answer::Born(1)`.
#[derive(Clone, Copy, Debug, PartialEq)]
pub enum Answer<V> {
    /// A handle was made (born) with this number. The owner of the step holds it.
    Born(usize),
    /// The block has as many handles as its limit allows.
    Full,
    /// The clone or the drop is in flight: another step of this owner continues it.
    Pending,
    /// The clone in flight was given up.
    Quit,
    /// The handle ended.
    Ended,
    /// The last handle ended, and the value is given up, which means released.
    GivenUp(V),
    /// The block is static.
    Marked,
    /// The answer to `Unique` or `Static`.
    Is(bool),
    /// The handle is the only one, and its holder writes the value from now on, until `EndWrite`.
    Alone,
    /// The handle is the only one, and its holder has it exclusively until `Share`.
    Sole,
    /// There may be other handles, or the block is static, so the value may not be written.
    Shared,
    /// The step was made.
    Done,
    /// The value that was read.
    Value(V),
    /// An allocation failed. Nothing changed.
    Memory,
    /// The step is rejected: this owner may not make it now. Nothing changed.
    Barred,
}

/// Copies the step and never fails. The type is `Copy`: this impl is for code that is generic over `Clone`.
impl<V: Copy> Clone for Step<V> {
    ghost is_clone = { λ step copy. copy ≡ step };

    ghost is_infallible = { λ _. ⊤ };

    fn clone(&self) -> Result<Self, AllocError> {
        Ok(*self)
    }
}

impl<V: Copy> Step<V> {
    // Returns the owner and the handle of a step on a handle.
    pub(crate) fn on_handle(&self) -> Option<(usize, usize)>
        ensures { result ≡ option_map (λ handle. (owner_of self.now, handle)) (handle_of self.now) }
    {
        match *self {
            Step::Raise { .. } | Step::Quit { .. } | Step::Lower { .. } => None,
            Step::Clone { owner, handle }
            | Step::Drop { owner, handle }
            | Step::Mark { owner, handle }
            | Step::Unique { owner, handle }
            | Step::Static { owner, handle }
            | Step::GetMut { owner, handle }
            | Step::Write { owner, handle, .. }
            | Step::EndWrite { owner, handle }
            | Step::IntoUnique { owner, handle }
            | Step::Share { owner, handle }
            | Step::Load { owner, handle }
            | Step::Lend { owner, handle, .. }
            | Step::Return { owner, handle }
            | Step::Give { owner, handle, .. } => Some((owner, handle)),
        }
    }
}
