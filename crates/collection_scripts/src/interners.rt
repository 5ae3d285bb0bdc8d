//! Calls of an `Interner` of texts:
//!
//!     intern TEXT; find TEXT    the index of the symbol of the text, which `intern` adds if it is new
//!     get I                     the text with that index
//!     give TEXT                 as `intern`, of a `String` made first
//!     block TEXT                as `give`, of a `String` in a block of its own; also: was that block kept?
use crate::call::{Call, Collection, tell};
use interner::{InternError, Interner, Symbol};
use servo_arc::Arc;
use std::alloc::Global;
use std::io;
use std::io::Print;

impl<'a> Collection<'a> for Interner<String> {
    fn answer<R: Print + AllocGlobal>(&mut self, rt: &R, call: &Call<'a>) -> io::Result<()> {
        let alloc = rt.alloc();
        match call.word {
            "intern" => tell(rt, self.intern_by(alloc, call.text).map(Symbol::index)),
            "give" => tell(rt, give(alloc, self, call.text).map(Symbol::index)),
            "block" => tell(rt, give_block(alloc, self, call.text)),
            "find" => tell(rt, self.find(call.text).map(Symbol::index)),
            "get" => tell(
                rt,
                self.symbol(call.numbers[0])
                    .and_then(|symbol| self.get(symbol)),
            ),
            _ => tell(rt, "no such call"),
        }
    }
}

// Interns a text by value: the `String` is made first.
fn give(alloc: Global, names: &mut Interner<String>, text: &str) -> Result<Symbol, InternError> {
    let text = String::from_str(alloc, text)?;
    names.intern(alloc, text)
}

// Returns the index of a text that is given in a block of its own, and whether that block is kept.
fn give_block(
    alloc: Global,
    names: &mut Interner<String>,
    text: &str,
) -> Result<(usize, bool), InternError> {
    let block = Arc::try_new(alloc, String::from_str(alloc, text)?)?;
    let symbol = names.intern_arc(block.clone()?)?;
    let is_kept = names
        .get(symbol)
        .is_some_and(|kept| Arc::ptr_eq(kept, &block));
    Ok((symbol.index(), is_kept))
}
