//! What a failed call on a cache of styles leaves.
use crate::refusals::reporting::report;
use cascade::{Declaration, Element, Initial, Inline, StyleCache};
use interner::InternError;
use servo_arc::Arc;
use std::alloc::{AllocError, Global};
use testing::{ok, same};

// An element with declarations of its own.
fn element(alloc: Global) -> Result<Element, AllocError> {
    let declarations = Arc::from_header_and_slice(alloc, (), &[Declaration::BorderWidth(2)])?;
    let inline = Arc::try_new(alloc, Inline { declarations })?;
    Element::of_rules(alloc, Vec::new(alloc))?.with_inline(inline)
}

fn cache(alloc: Global) -> Result<StyleCache, AllocError> {
    StyleCache::new(alloc, Initial::new(alloc)?)
}

// Only the two initial groups are kept for good. After the error the cache has the nodes that were added by then, and
// the same call succeeds.
#[test]
fn a_refused_style_can_be_asked_for_again(rt: HostRuntime) {
    let (Ok(element), Ok(mut cache)) = (element(rt.alloc()), cache(rt.alloc())) else {
        return report(&rt, "the set-up");
    };
    if let Err(refusal) = cache.style(rt.alloc(), &element) {
        same!(&rt, refusal, InternError::Memory);
        report(&rt, "a node or a style");
    }
    ok!(&rt, cache.style(rt.alloc(), &element));
}
