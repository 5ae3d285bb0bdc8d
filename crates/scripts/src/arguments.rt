//! The arguments of the program, and the request that they encode.
ghost use Rattle.std.specs.Prelude.{ℕ, IfSome, IfNone, map};
ghost use Rattle.scripts.specs.Arguments.{AskLimit};

use crate::number::parse_number;
use counting_word::MAX_REFCOUNT;
use std::alloc::{AllocError, Global};
use std::convert::AsStr;
use std::env::{Env, FillError};

/// Longer than any right argument.
const ARGUMENT_ROOM: usize = 64;

const MOST_OWNERS: usize = 1000;

const MOST_SLOTS: usize = 1000;

/// Returns the arguments after the program's own name: `argument_words(rt, alloc)?`.
///
/// # Errors
///
/// Returns `AllocError` if the texts cannot be allocated.
pub fn argument_words(rt: &impl Env, alloc: Global) -> Result<Vec<String>, AllocError> {
    let mut words = Vec::new(alloc);
    for index in 1..usize::MAX {
        let Some(word) = argument_word(rt, alloc, index)? else {
            break;
        };
        words.push(word)?;
    }
    Ok(words)
}

// Returns one argument, or `None` past the last. An argument that is not UTF-8, or too long to be right, becomes the
// empty text, which no request has.
fn argument_word(rt: &impl Env, alloc: Global, index: usize) -> Result<Option<String>, AllocError> {
    let mut buffer = [0u8; ARGUMENT_ROOM];
    match rt.arg(index, &mut buffer) {
        Ok(length) => match str::from_utf8(&buffer[..length]) {
            Ok(text) => Ok(Some(String::from_str(alloc, text)?)),
            Err(_) => Ok(Some(String::new(alloc))),
        },
        Err(FillError::TooLong) => Ok(Some(String::new(alloc))),
        Err(FillError::NotPresent) => Ok(None),
    }
}

/// A request that the arguments `core OWNERS`, `core OWNERS LIMIT` or `table SLOTS` encode:
/// `Request::Core { owners, limit }`.
#[derive(Clone, Copy)]
pub enum Request {
    /// Run a script on a counting core.
    Core { owners: usize, limit: u64 },
    /// Run a script on a table of handles.
    Table { slots: usize },
}

impl Request {
    ghost use Rattle.scripts.specs.Arguments.{AreWrong, Asks};

    /// Returns the request that the arguments encode, or `None` if they are wrong: `Request::from_words(&words)`.
    pub fn from_words<S: AsStr>(words: &[S]) -> Option<Request>
        ensures asked { IfSome result (Asks (map S.text words.now)) }
        ensures wrong { IfNone result (AreWrong (map S.text words.now)) }
    {
        let [kind, size, others @ ..] = words else {
            return None;
        };
        let size = parse_number(size.as_str().as_bytes())? as usize;
        match kind.as_str() {
            "core" if 1 <= size && size <= MOST_OWNERS => Some(Request::Core {
                owners: size,
                limit: limit_from_words(others)?,
            }),
            "table" if size <= MOST_SLOTS && others.is_empty() => {
                Some(Request::Table { slots: size })
            }
            _ => None,
        }
    }
}

/// Returns the limit in the arguments after the number of owners, or `None` if they are wrong.
fn limit_from_words<S: AsStr>(words: &[S]) -> Option<u64>
    ensures asked { IfSome result (AskLimit (map S.text words.now)) }
    ensures wrong { IfNone result ((limit : ℕ) → ¬ (AskLimit (map S.text words.now) limit)) }
{
    match words {
        [] => Some(MAX_REFCOUNT),
        [limit] => match parse_number(limit.as_str().as_bytes())? {
            0 => None,
            limit => Some(u64::from(limit)),
        },
        _ => None,
    }
}
