//! A bank. The contract of a transfer says that the sum of all balances stays the same.
ghost use Rattle.std.specs.Prelude.{◌≡◌, ◌+◌, ◌^◌, ◌<◌, ◌≤◌, ◌⊎◌, ℕ, false, true, IfOk, IsSome, OnErr};
ghost use Rattle.std.specs.Ordering.{is_eq, nat_cmp};
ghost use Rattle.maps.specs.Maps.{lookup};
ghost use Rattle.uses.specs.Bank.{balance, total};

use maps::TreeMap;
use std::alloc::{AllocError, Global};

/// Moves `amount` from one account to another. Returns `false` if the first has too little or the second would
/// overflow. An account with a balance of 0 stays open.
///
/// # Errors
///
/// `AllocError` if there is no memory. The bank stays as it was, also if only the second account cannot be written,
/// since both are written in a clone that then replaces the bank.
#[tactic(auto, using(maps::proofs::Inserted::numbers))]
pub fn transfer(
    bank: &mut TreeMap<u64, u64>,
    alloc: Global,
    from: u64,
    to: u64,
    amount: u64,
) -> Result<bool, AllocError>
    ensures total { total bank.new ≡ total bank.old }
    ensures has { IfOk result (λ moved. moved ≡ true → amount ≤ balance from bank.old) }
    ensures sent { IfOk result (λ moved. moved ≡ true → is_eq (nat_cmp from to) ≡ false
        → balance from bank.new + amount ≡ balance from bank.old) }
    ensures got { IfOk result (λ moved. moved ≡ true → is_eq (nat_cmp to from) ≡ false
        → balance to bank.new ≡ balance to bank.old + amount) }
    ensures others { (k : ℕ) → is_eq (nat_cmp k from) ≡ false → is_eq (nat_cmp k to) ≡ false
        → lookup nat_cmp k bank.new ≡ lookup nat_cmp k bank.old }
    ensures stays { (k : ℕ) → IsSome (lookup nat_cmp k bank.old) → IsSome (lookup nat_cmp k bank.new) }
    ensures unmoved { IfOk result (λ moved. moved ≡ false → bank.new ≡ bank.old) }
    ensures why { IfOk result (λ moved. moved ≡ false
        → (balance from bank.old < amount) ⊎ (2 ^ 64 ≤ balance to bank.old + amount)) }
    ensures refused { OnErr result (bank.new ≡ bank.old) }
{
    let mut next = bank.clone()?;
    let Some(left) = next.get(&from).copied().unwrap_or(0).checked_sub(amount) else {
        return Ok(false);
    };
    next.insert(alloc, from, left)?;
    let Some(more) = next.get(&to).copied().unwrap_or(0).checked_add(amount) else {
        return Ok(false);
    };
    next.insert(alloc, to, more)?;
    *bank = next;
    Ok(true)
}
