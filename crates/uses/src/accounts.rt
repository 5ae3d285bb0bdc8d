//! Accounts that are closed when their balance is 0, and sums over a range of accounts.
ghost use Rattle.std.specs.Prelude.{◌≡◌, ◌+◌, ◌^◌, ◌≤◌, true, false, IfNone, IfOk, IfSome, None, OnErr};
ghost use Rattle.std.specs.Ordering.{nat_cmp};
ghost use Rattle.maps.specs.Maps.{lookup};
ghost use Rattle.uses.specs.Bank.{accounts_between, balance, total};

use maps::TreeMap;
use std::alloc::{AllocError, Global};

/// Takes an amount from an account, and says whether the account has it. An account in which nothing is left goes.
#[tactic(auto, using(maps::proofs::Inserted::numbers, maps::proofs::Removed::numbers))]
pub fn withdraw(
    bank: &mut TreeMap<u64, u64>,
    alloc: Global,
    account: u64,
    amount: u64,
) -> Result<bool, AllocError>
    ensures total { IfOk result (λ taken. taken ≡ true → total bank.new + amount ≡ total bank.old) }
    ensures taken { IfOk result (λ taken. taken ≡ true
        → balance account bank.new + amount ≡ balance account bank.old) }
    ensures gone { IfOk result (λ taken. taken ≡ true → balance account bank.new ≡ 0
        → lookup nat_cmp account bank.new ≡ None) }
    ensures untaken { IfOk result (λ taken. taken ≡ false → bank.new ≡ bank.old) }
    ensures refused { OnErr result (bank.new ≡ bank.old) }
{
    let Some(left) = bank.get(&account).copied().unwrap_or(0).checked_sub(amount) else {
        return Ok(false);
    };
    if left == 0 {
        bank.remove(alloc, &account)?;
    } else {
        bank.insert(alloc, account, left)?;
    }
    Ok(true)
}

/// Closes the account with the least number, and returns its balance.
#[tactic(auto, using(maps::proofs::Removed::numbers))]
pub fn close_first(bank: &mut TreeMap<u64, u64>, alloc: Global) -> Result<u64, AllocError>
    ensures { IfOk result (λ paid. total bank.new + paid ≡ total bank.old) }
{
    match bank.pop_first(alloc)? {
        None => Ok(0),
        Some((_, paid)) => Ok(paid),
    }
}

/// Closes the account with the greatest number, and returns its balance.
#[tactic(auto, using(maps::proofs::Removed::numbers))]
pub fn close_last(bank: &mut TreeMap<u64, u64>, alloc: Global) -> Result<u64, AllocError>
    ensures { IfOk result (λ paid. total bank.new + paid ≡ total bank.old) }
{
    match bank.pop_last(alloc)? {
        None => Ok(0),
        Some((_, paid)) => Ok(paid),
    }
}

/// The sum of the balances from one account up to another, unless it is too great.
pub fn total_between(bank: &TreeMap<u64, u64>, first: u64, end: u64) -> Option<u64>
    ensures sum { IfSome result (λ sum. sum ≡ total (accounts_between first end bank.now)) }
    ensures too_great { IfNone result (2 ^ 64 ≤ total (accounts_between first end bank.now)) }
{
    let mut sum = 0u64;
    for account in bank.range(first..end) {
        sum = sum.checked_add(account.1)?;
    }
    Some(sum)
}
