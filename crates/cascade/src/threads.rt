//! The styles of many elements, on one thread, two or four, and of one element from a cache that threads share.
ghost use Rattle.std.specs.Prelude.{◌≡◌, IfOk, map, ◌++◌};
ghost use Rattle.cascade.specs.Cascade.{style_of};

use crate::cache::StyleCache;
use crate::element::Element;
use crate::initial::Initial;
use crate::style::Style;
use interner::InternError;
use servo_arc::Arc;
use std::alloc::Global;
use std::hash::BuildHasher;
use std::sync::{Mutex, Wait};
use std::thread::{Threads, join};

/// Returns the styles of the elements, in their order, by a new cache: `styles(alloc, initial, &elements)?`.
///
/// # Errors
///
/// Returns the errors of `StyleCache::style`.
pub fn styles(
    alloc: Global,
    initial: Initial,
    elements: &[Element],
) -> Result<Vec<Arc<Style>>, InternError>
    ensures { IfOk result (λ styles. styles.items ≡ map style_of elements.now) }
{
    let mut cache = StyleCache::new(alloc, initial)?;
    let mut styles = Vec::new(alloc);
    for element in elements {
        let style = cache.style(alloc, element)?;
        styles.push(style)?;
    }
    Ok(styles)
}

/// Returns the styles of the elements, in their order, by two threads:
/// `styles_in_two(&rt, alloc, initial, &elements)?`. Each thread has a half and a cache of its own.
///
/// # Errors
///
/// Returns the errors of `StyleCache::style`.
pub fn styles_in_two<R: Threads + Sync>(
    rt: &R,
    alloc: Global,
    initial: Initial,
    elements: &[Element],
) -> Result<Vec<Arc<Style>>, InternError>
    ensures { IfOk result (λ styles. styles.items ≡ map style_of elements.now) }
{
    let (left, right) = elements.split_at(elements.len() / 2);
    let (left, right) = join(
        rt,
        || styles(alloc, initial, left),
        || styles(alloc, initial, right),
    );
    joined(left?, right?)
}

/// Returns the styles of the elements, in their order, by four threads:
/// `styles_in_four(&rt, alloc, initial, &elements)?`. Each thread has a quarter and a cache of its own.
///
/// # Errors
///
/// Returns the errors of `StyleCache::style`.
pub fn styles_in_four<R: Threads + Sync>(
    rt: &R,
    alloc: Global,
    initial: Initial,
    elements: &[Element],
) -> Result<Vec<Arc<Style>>, InternError>
    ensures { IfOk result (λ styles. styles.items ≡ map style_of elements.now) }
{
    let (left, right) = elements.split_at(elements.len() / 2);
    let (left, right) = join(
        rt,
        || styles_in_two(rt, alloc, initial, left),
        || styles_in_two(rt, alloc, initial, right),
    );
    joined(left?, right?)
}

fn joined(left: Vec<Arc<Style>>, right: Vec<Arc<Style>>) -> Result<Vec<Arc<Style>>, InternError>
    ensures { IfOk result (λ styles. styles.items ≡ left.items ++ right.items) }
{
    let mut styles = left;
    let mut right = right;
    styles.append(&mut right)?;
    Ok(styles)
}

/// Returns the style of the element, from a cache that threads share: `shared_style(&rt, &cache, alloc, &element)?`.
/// The call waits for the lock.
///
/// # Errors
///
/// Returns the errors of `StyleCache::style`.
pub fn shared_style<S: BuildHasher>(
    rt: &impl Wait,
    cache: &Mutex<StyleCache<S>>,
    alloc: Global,
    element: &Element,
) -> Result<Arc<Style>, InternError>
    ensures { IfOk result (λ style. style ≡ style_of element.now) }
{
    cache.lock(rt).style(alloc, element)
}
