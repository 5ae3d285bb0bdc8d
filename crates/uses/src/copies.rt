//! What a contract may say of a clone. A value behind a handle is the same value. A `Vec` or a `String` itself is
//! cloned into another buffer, so the clone is another value with equal items. The derived `clone` of a type that holds
//! itself has no contract: write it by hand, as for the `Chain` of along_a_path.rt.
ghost use Rattle.std.specs.Prelude.{◌≡◌, IfOk};

use servo_arc::{Arc, ThinArc};
use std::alloc::AllocError;

/// Text and a list behind handles. The derived `clone` then returns an equal value, and allocates nothing.
#[derive(Clone, Drop)]
pub struct Labels {
    pub text: Arc<String>,
    pub numbers: ThinArc<u8, u32>,
}

/// Returns a clone, which equals the original.
pub fn labels_again(labels: &Labels) -> Result<Labels, AllocError>
    ensures { IfOk result (λ copy. copy ≡ labels.now) }
{
    labels.clone()
}

/// Returns a clone, whose items equal the original's. The vectors themselves differ to the checker.
pub fn numbers_again(numbers: &Vec<u32>) -> Result<Vec<u32>, AllocError>
    ensures { IfOk result (λ copy. copy.items ≡ numbers.now.items) }
{
    numbers.clone()
}
