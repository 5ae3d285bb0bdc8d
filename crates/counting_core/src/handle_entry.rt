//! What a core keeps for each handle that was born.
ghost use Rattle.std.specs.Prelude.{◌≡◌, ◌++◌, ◌∷◌, [], length, false, true};
ghost use Rattle.std.specs.Prelude.{IfSome, IfNone, OnOk, OnErr};
ghost use Rattle.counting_core.specs.State.{newborn, lent_to, returned_by};
ghost use Rattle.counting_core.specs.Permitted.{holds, is_lent_to, is_shared, may_use, may_take, is_writing, has_sole};

use std::alloc::{AllocError, Global};
use std::collections::BTreeSet;
use std::marker::Model;

/// How a handle is used, which decides who may use it.
#[derive(Clone, Copy)]
pub(crate) enum Access {
    /// Its holder and its borrowers may use it as any handle.
    Shared,
    /// Its holder is writing the value.
    Written,
    /// Its holder has it as the only handle of its block, and may write the value at will.
    Sole,
}

#[derive(Drop)]
pub(crate) struct HandleEntry {
    lives: bool,
    holder: usize,
    borrowers: BTreeSet<usize>,
    access: Access,
}

impl Model for HandleEntry {
    ghost use Rattle.counting_core.specs.State.{HandleState};

    ghost Value = { HandleState };

    ghost view = { λ h. record {
      lives = h.lives;
      holder = h.holder;
      borrowers = h.borrowers.keys;
      access = h.access;
    } };
}

impl HandleEntry {
    pub(crate) fn newborn(alloc: Global, holder: usize) -> Self
        ensures { result ≡ newborn holder }
    {
        Self {
            lives: true,
            holder,
            borrowers: BTreeSet::new(alloc),
            access: Access::Shared,
        }
    }

    pub(crate) fn is_live(&self) -> bool
        ensures { result ≡ self.now.lives }
    {
        self.lives
    }

    pub(crate) fn is_shared(&self) -> bool
        ensures { result ≡ is_shared self.now.access }
    {
        matches!(self.access, Access::Shared)
    }

    pub(crate) fn is_held_by(&self, owner: usize) -> bool
        ensures { result ≡ holds self.now owner }
    {
        self.lives && self.holder == owner
    }

    pub(crate) fn is_lent_to(&self, owner: usize) -> bool
        ensures { result ≡ is_lent_to self.now owner }
    {
        self.borrowers.contains(&owner)
    }

    /// Returns whether the owner holds or borrows the handle, while it is shared.
    pub(crate) fn may_be_used_by(&self, owner: usize) -> bool
        ensures { result ≡ may_use self.now owner }
    {
        self.lives && (self.holder == owner || self.borrowers.contains(&owner)) && self.is_shared()
    }

    /// Returns whether the owner holds the handle, while it is shared and lent to nobody.
    pub(crate) fn may_be_taken_by(&self, owner: usize) -> bool
        ensures { result ≡ may_take self.now owner }
    {
        self.is_held_by(owner) && self.borrowers.is_empty() && self.is_shared()
    }

    /// Returns whether the owner holds the handle and is writing the value.
    pub(crate) fn is_written_by(&self, owner: usize) -> bool
        ensures { result ≡ is_writing self.now owner }
    {
        self.is_held_by(owner) && matches!(self.access, Access::Written)
    }

    /// Returns whether the owner holds the handle, and it is sole.
    pub(crate) fn is_sole_of(&self, owner: usize) -> bool
        ensures { result ≡ has_sole self.now owner }
    {
        self.is_held_by(owner) && self.borrowers.is_empty() && matches!(self.access, Access::Sole)
    }

    pub(crate) fn end(&mut self)
        ensures { self.new ≡ record self.old { lives = false } }
    {
        self.lives = false;
    }

    pub(crate) fn use_as(&mut self, access: Access)
        ensures { self.new ≡ record self.old { access = access } }
    {
        self.access = access;
    }

    pub(crate) fn give_to(&mut self, owner: usize)
        ensures { self.new ≡ record self.old { holder = owner } }
    {
        self.holder = owner;
    }

    /// Adds the owner to the borrowers. If that fails, nothing was lent.
    pub(crate) fn lend_to(&mut self, owner: usize) -> Result<(), AllocError>
        ensures lent { OnOk result (self.new ≡ lent_to self.old owner) }
        ensures refused { OnErr result (self.new ≡ self.old) }
    {
        self.borrowers.insert(owner)?;
        Ok(())
    }

    pub(crate) fn take_back_from(&mut self, owner: usize)
        ensures { self.new ≡ returned_by self.old owner }
    {
        self.borrowers.remove(&owner);
    }
}

/// Adds an entry for a new handle and returns its number, or `None` if an allocation fails.
pub(crate) fn push_newborn(
    handles: &mut Vec<HandleEntry>,
    alloc: Global,
    holder: usize,
) -> Option<usize>
    ensures number { IfSome result (λ n. n ≡ length handles.old.items) }
    ensures born { IfSome result (λ _.
        handles.new.items ≡ handles.old.items ++ newborn holder ∷ []) }
    ensures refused { IfNone result (handles.new.items ≡ handles.old.items) }
{
    let number = handles.len();
    match handles.push(HandleEntry::newborn(alloc, holder)) {
        Ok(()) => Some(number),
        Err(_) => None,
    }
}
