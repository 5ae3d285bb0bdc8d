//! Whether two handles have one block. The language does not compare the addresses of two blocks, so this observes:
//! an amount that is added to the stamp through one handle can be read through the other if they have one block.
//
// If the stamp stays the same, there are two blocks. If the stamp moves by exactly what was added, that is a sign of
// one block. The answer is exact unless another thread compares one of the blocks at the same time: what that thread
// adds may hide what was added here, or look like it. So two signs are needed in a row, by different amounts. That
// makes a wrong `true` less likely, but two threads that compare two blocks from opposite ends in step see what one
// thread sees on one block. More signs in a row would make a wrong `false` likelier, since each can be hidden.
ghost use Rattle.std.specs.Prelude.{◌≡◌, false};

use super::Handle;

const MOST_ROUNDS: u8 = 64;

impl<T> Handle<T> {
    // Returns `false` if other threads spoil every round.
    pub(crate) fn has_block_of(&self, other: &Handle<T>) -> bool
        requires { (self.now.sole ≡ false) × (other.now.sole ≡ false) }
    {
        let mut saw_sign = false;
        let mut amount = 1;
        for _ in 0..MOST_ROUNDS {
            let before = other.stamp();
            let own = self.add_to_stamp(amount);
            let after = other.stamp();
            if after == before {
                return false;
            }
            let sees_sign = after.wrapping_sub(before) == amount;
            if saw_sign && sees_sign {
                return true;
            }
            saw_sign = sees_sign;
            amount = next_amount(amount, own);
        }
        false
    }
}

// Returns another odd number than `last`, which is odd, since twice an odd number is added. So the number is never 0,
// and moves a stamp. It says little of the stamp that it is made of.
fn next_amount(last: u64, stamp: u64) -> u64 {
    let odd = stamp.wrapping_mul(0x9e37_79b9_7f4a_7c15) | 1;
    last.wrapping_add(odd).wrapping_add(odd)
}
