//! Values of several types behind one kind of handle, in place of an `Arc<dyn Codec>`: the handle shares a box.
ghost use Rattle.std.specs.Prelude.{◌≡◌, ℕ, IfOk};

use servo_arc::Arc;
use std::alloc::{AllocError, Global};

/// A codec, which writes a number as a byte.
pub trait Codec: Drop {
    ghost coded: { Self → ℕ → ℕ };

    fn encode(&self, number: u8) -> u8
        ensures { result ≡ coded self.now number };
}

/// A shared codec, which is `Send` and `Sync` as its values are.
pub type SharedCodec = Arc<Box<dyn Codec + Send + Sync>>;

/// Shares a codec. The caller makes the box: the checker rejects a function that makes a `dyn` value and returns it.
pub fn shared(alloc: Global, codec: Box<dyn Codec + Send + Sync>) -> Result<SharedCodec, AllocError>
    ensures { IfOk result (λ shared. shared ≡ codec) }
{
    Ok(Arc::try_new(alloc, codec)?)
}

/// Encodes a number by a shared codec.
pub fn encoded(codec: &SharedCodec, number: u8) -> u8
    ensures { result ≡ coded codec.now number }
{
    codec.encode(number)
}
