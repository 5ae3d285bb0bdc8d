//! A recursive function over a tree, with a loop over the children of each node.
ghost use Rattle.std.specs.Prelude.{◌≡◌, ◌<◌, ◌^◌, sum};
ghost use Rattle.rose_undo.specs.Roses.{preorder};

use rose_undo::Rose;

/// The sum of all values.
pub fn total(tree: &Rose<u64>) -> u64
    requires { sum (preorder tree.now) < 2 ^ 64 }
    ensures { result ≡ sum (preorder tree.now) }
{
    let mut sum = *tree.value();
    for child in tree.children() {
        sum += total(child);
    }
    sum
}
