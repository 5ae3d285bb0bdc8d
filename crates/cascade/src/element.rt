//! The sources that declare the style of an element.
ghost use Rattle.std.specs.Prelude.{◌≡◌, IfOk, None, Some, IsPermutation};
ghost use Rattle.std.specs.List.Sorted.{IsNonDecreasingBy, IsStableByKey};
ghost use Rattle.std.specs.Ordering.{nat_cmp};

use crate::source::{Inline, Rule};
use servo_arc::{Arc, ThinArc};
use std::alloc::{AllocError, Global};

/// An element: the rules that match it, by ascending specificity, and its own declarations, which are stronger than
/// each rule. `Element::of_rules(alloc, rules)?` makes one. Its type says that the rules are sorted.
#[derive(Drop)]
pub struct Element {
    /// The rules that match, by ascending specificity: the last is the strongest.
    pub rules: ThinArc<(), Arc<Rule>>,
    /// The declarations of the element itself, if there are any.
    pub inline: Option<Arc<Inline>>,
    pub ghost sorted: { IsNonDecreasingBy (λ rule. rule.specificity) rules.items },
}

/// Clones the handles of both parts, and fails as the `clone` of an `Arc` does.
impl Clone for Element {
    ghost is_clone = { λ a b. b ≡ a };

    fn clone(&self) -> Result<Element, AllocError> {
        Ok(Element {
            rules: self.rules.clone()?,
            inline: self.inline.clone()?,
        })
    }
}

impl Element {
    /// Creates an element that the rules match: `Element::of_rules(alloc, rules)?`. The rules come in the order of
    /// their sheet, and are sorted by specificity. Of two rules with one specificity the later is the stronger.
    ///
    /// # Errors
    ///
    /// Returns `AllocError` if an allocation fails, and drops the rules.
    pub fn of_rules(alloc: Global, rules: Vec<Arc<Rule>>) -> Result<Element, AllocError>
        ensures rules { IfOk result (λ element. IsPermutation rules.items element.rules.items) }
        ensures stable { IfOk result (λ element.
            IsStableByKey (λ rule. rule.specificity) nat_cmp rules.items element.rules.items) }
        ensures inline { IfOk result (λ element. element.inline ≡ None) }
    {
        let mut rules = rules;
        rules.sort_by_key(|rule| rule.specificity)?;
        Ok(Element {
            rules: Arc::from_header_and_vec(alloc, (), rules)?,
            inline: None,
        })
    }

    /// Creates an element with other declarations of its own, over the same rules: `element.with_inline(inline)?`.
    ///
    /// # Errors
    ///
    /// Returns `AllocError` as the `clone` of an `Arc` does, and drops `inline`.
    pub fn with_inline(&self, inline: Arc<Inline>) -> Result<Element, AllocError>
        ensures { IfOk result (λ element. element ≡ record self.now { inline = Some inline }) }
    {
        Ok(Element {
            rules: self.rules.clone()?,
            inline: Some(inline),
        })
    }
}
