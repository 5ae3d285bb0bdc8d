//! The core: an abstract machine in a state to which some trace of steps leads.
use crate::acting::Machine;
use crate::activity::Activity;
use crate::handle_entry::push_newborn;
use crate::step::{Answer, Step};
use std::alloc::{AllocError, Global};
use std::marker::Model;

/// One block of a value, with a fixed number of owners and a limit of handles:
/// `Core::new(alloc, 5, 2, MAX_REFCOUNT)`.
///
/// `Core::new` takes O(n) in the number of owners. Each step takes O(1), and one that makes a handle amortized O(1).
/// To lend or return a handle, or to use a lent one, takes O(log n) in the number of its borrowers. A core keeps an
/// entry for each handle that was ever born, so its memory grows with each birth.
#[derive(Drop)]
pub struct Core<V> {
    pub(crate) machine: Machine<V>,
}

impl<V> Model for Core<V> {
    ghost use Rattle.counting_core.specs.Machines.{core_of};
    ghost use Rattle.counting_core.specs.Represents.{CoreState, IsReached};

    ghost Value = { CoreState V };

    ghost view = { λ core. core_of core.machine };

    ghost invariant = { λ core. IsReached (core_of core.machine) };
}

impl<V: Copy> Core<V> {
    ghost use Rattle.std.specs.Prelude.{◌≡◌, ◌<◌, ◌⊎◌, [], IfOk, IfErr, IsOk, OnErr};
    ghost use Rattle.counting_word.specs.CountingWord.{IsLimit};
    ghost use Rattle.counting_core.specs.Trace.{Trace, Open};
    ghost use Rattle.counting_core.specs.Represents.{Represents, Continues, ContinuesAll};
    ghost use Rattle.counting_core.specs.ByWord.{FollowsWord};

    /// Creates a block with one handle, number 0, which owner 0 holds: `Core::new(alloc, 5, 2, MAX_REFCOUNT)`. The
    /// block never has more handles than `limit` until it is static.
    ///
    /// # Errors
    ///
    /// Returns the value if one of the two allocations fails.
    pub fn new(alloc: Global, value: V, owners: usize, limit: u64) -> Result<Self, V>
        requires owners { 0 < owners }
        requires limit { IsLimit limit }
        ensures opened { IfOk result (λ core. Represents core (Open value owners limit)) }
        ensures refused { IfErr result (λ back. back ≡ value) }
    {
        // Room for the first handle alone: the first birth already requests memory, and may be answered `Memory`.
        let Ok(mut handles) = Vec::with_capacity(alloc, 1) else {
            return Err(value);
        };
        let Some(_) = push_newborn(&mut handles, alloc, 0) else {
            return Err(value);
        };
        let Ok(owners) = vec![in alloc; Activity::Idle; owners] else {
            return Err(value);
        };
        Ok(Self {
            machine: Machine {
                alloc,
                value,
                word: 1,
                limit,
                handles,
                owners,
            },
        })
    }

    /// Makes one step and returns its answer: `core.step(Step::Load { owner: 0, handle: 0 })`. An owner with a clone
    /// or a drop in flight may only continue it.
    ///
    /// Only births and loans request memory. `Memory` and `Barred` change nothing.
    pub fn step(&mut self, step: Step<V>) -> Answer<V>
        ensures reached { (trace : Trace V) × Represents self.old trace }
        ensures continues { Continues self.old step result self.new }
        ensures unchanged { (result ≡ Answer.Barred) ⊎ (result ≡ Answer.Memory)
            → self.new ≡ self.old }
        ensures word { FollowsWord self.old step result self.new }
    {
        self.machine.step(step)
    }

    /// Makes the steps in order and returns their answers: `core.run(&steps)?`.
    ///
    /// # Errors
    ///
    /// Returns `AllocError` if the room for the answers cannot be allocated. No step was made then.
    pub fn run(&mut self, steps: &[Step<V>]) -> Result<Vec<Answer<V>>, AllocError>
        ensures reached { (trace : Trace V) × Represents self.old trace }
        ensures ran { IfOk result (λ answers.
            ContinuesAll self.old steps.now answers.items self.new) }
        ensures refused { OnErr result (self.new ≡ self.old) }
        ensures empty { steps.now ≡ [] → IsOk result }
    {
        let mut answers = Vec::with_capacity(self.machine.alloc, steps.len())?;
        for step in steps {
            answers.push_reserved(self.step(*step));
        }
        Ok(answers)
    }
}
