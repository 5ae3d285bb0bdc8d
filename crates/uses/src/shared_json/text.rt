//! Reading from text and writing to text.
ghost use Rattle.std.specs.Prelude.{◌≡◌, ◌≤◌, ◌↔◌, IfErr, IfOk, IsTrue, OnOk, Some, false, string_bytes};
ghost use Rattle.json.specs.Lex.{tokens};
ghost use Rattle.serde_json.specs.Data.{depth};
ghost use Rattle.serde_json.specs.Read.{max_depth, read};
ghost use Rattle.serde_json.specs.Written.{compact_text, has_float};
ghost use Rattle.uses.specs.JsonLevels.{Refuses, most_open};
ghost use Rattle.uses.specs.Json.{view};

use super::Value;
use json::{Reader, Scratch, Token};
use serde_json::{Category, Error as Fault, Value as Plain};
use std::alloc::{AllocError, Global};
use thiserror::Error;

/// The reason why a text was not read.
#[derive(Debug, Drop, Error)]
pub enum ParseError {
    #[error("more lists and objects inside one another than allowed")]
    TooDeep,
    #[error(transparent)]
    Syntax(Fault),
    #[error("out of memory")]
    Memory(#[from(alloc)] AllocError),
}

impl Value {
    /// Parses a text. O(n log n) for n bytes: the text is read twice, first to a value of `serde_json`, whose lists and
    /// objects are freed as the shared ones are made.
    ///
    /// # Errors
    ///
    /// `TooDeep` if more than `levels` lists and objects are nested. `Syntax` if the text is no JSON, or nests more
    /// than 127 levels, which `serde_json` does not read.
    pub fn parse(alloc: Global, text: &str, levels: usize) -> Result<Value, ParseError>
        ensures parsed { IfOk result (λ v. read text.now ≡ Some (view v)) }
        ensures within { OnOk result (most_open 0 (tokens text.now) ≤ levels) }
        ensures refused { IfErr result (Refuses levels text.now) }
    {
        if !is_within(alloc, text, levels).map_err(ParseError::Memory)? {
            return Err(ParseError::TooDeep);
        }
        match Plain::from_str(alloc, text) {
            Ok(value) => Value::from_plain(alloc, value).map_err(ParseError::Memory),
            Err(fault) => match fault.classify() {
                Category::Memory => Err(ParseError::Memory(AllocError)),
                _ => Err(ParseError::Syntax(fault)),
            },
        }
    }

    /// Returns the value as text without spaces. O(n), by a copy of the value with all its texts.
    pub fn to_text(&self, alloc: Global) -> Result<String, AllocError>
        ensures text { IfOk result (λ s. has_float (view self.now) ≡ false
            → string_bytes s ≡ compact_text (view self.now)) }
        ensures reads_back { IfOk result (λ s. depth (view self.now) ≤ max_depth
            → read (string_bytes s) ≡ Some (view self.now)) }
    {
        self.to_plain(alloc)?.to_string(alloc)
    }
}

// Returns `true` if at most `levels` lists and objects of the text are open at once.
fn is_within(alloc: Global, text: &str, levels: usize) -> Result<bool, AllocError>
    ensures { IfOk result (λ is. IsTrue is ↔ (most_open 0 (tokens text.now) ≤ levels)) }
{
    let mut scratch = Scratch::new(alloc);
    let mut reader = Reader::new(text, &mut scratch)?;
    let mut open = 0usize;
    while let Some(token) = reader.next() {
        match token {
            Token::BeginArray | Token::BeginObject => {
                if open == levels {
                    return Ok(false);
                }
                open += 1;
            }
            Token::EndArray | Token::EndObject => open = open.saturating_sub(1),
            _ => {}
        }
    }
    Ok(true)
}
