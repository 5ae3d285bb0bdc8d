//! The parts that styles computed by `cascade` share, for elements of four kinds in turn.
use cascade::{
    Declaration, Element, Initial, Inline, Rule, Source, Style, StyleCache, declared_by,
    shared_style, styles, styles_in_four, styles_in_two,
};
use servo_arc::Arc;
use std::alloc::{AllocError, Global};
use std::sync::Mutex;
use testing::{again, holds, ok, same};

const ELEMENTS: usize = 1_000;

fn rule(
    alloc: Global,
    specificity: u32,
    declarations: &[Declaration],
) -> Result<Arc<Rule>, AllocError> {
    let rule = Rule {
        specificity,
        declarations: Arc::from_header_and_slice(alloc, (), declarations)?,
    };
    Ok(Arc::try_new(alloc, rule)?)
}

/// The first kind has no rule, the second a large font, the third a border over it, the fourth a block of its own.
fn element(alloc: Global, kind: usize) -> Result<Element, AllocError> {
    let mut rules = Vec::new(alloc);
    if kind > 1 {
        rules.push(rule(alloc, 9, &[Declaration::BorderWidth(2)])?)?;
    }
    if kind > 0 {
        rules.push(rule(alloc, 1, &[Declaration::FontSize(40)])?)?;
    }
    let element = Element::of_rules(alloc, rules)?;
    if kind < 3 {
        return Ok(element);
    }
    let declarations = Arc::from_header_and_slice(alloc, (), &[Declaration::FontWeight(700)])?;
    element.with_inline(Arc::try_new(alloc, Inline { declarations })?)
}

fn elements(alloc: Global) -> Result<Vec<Element>, AllocError> {
    let mut elements = Vec::new(alloc);
    for i in 0..ELEMENTS {
        elements.push(element(alloc, i % 4)?)?;
    }
    Ok(elements)
}

fn with_one(number: usize, is_one: bool) -> usize {
    number.wrapping_add(usize::from(is_one))
}

/// Returns the numbers of styles, fonts and borders that are in the block of the first one of their kind.
fn shared(styles: &[Arc<Style>]) -> (usize, usize, usize) {
    let (mut whole, mut fonts, mut borders) = (0, 0, 0);
    for (i, style) in styles.iter().enumerate() {
        let first = &styles[i % 4];
        whole = with_one(whole, Arc::ptr_eq(style, first));
        fonts = with_one(fonts, Arc::ptr_eq(&style.font, &first.font));
        borders = with_one(borders, Arc::ptr_eq(&style.border, &first.border));
    }
    (whole, fonts, borders)
}

// Whether each of the first four styles shares the groups that its last source left alone: with the style before it, or
// with the initial one.
fn have_groups_of_others(styles: &[Arc<Style>]) -> [bool; 4] {
    match styles {
        [plain, large, framed, bold, ..] => [
            plain.font.is_static() && plain.border.is_static(),
            !large.font.is_static() && large.border.is_static(),
            Arc::ptr_eq(&framed.font, &large.font) && !framed.border.is_static(),
            !Arc::ptr_eq(&bold.font, &framed.font) && Arc::ptr_eq(&bold.border, &framed.border),
        ],
        _ => [false; 4],
    }
}

// One cache computes each style once. Each of two or four threads has a cache of its own, and all have the initial
// groups.
#[test]
fn elements_of_one_kind_share_their_style(rt: HostRuntime) {
    let alloc = rt.alloc();
    let elements = ok!(&rt, elements(alloc));
    let initial = ok!(&rt, Initial::new(alloc));
    let one = ok!(&rt, styles(alloc, initial, &elements));
    let two = ok!(&rt, styles_in_two(&rt, alloc, initial, &elements));
    let four = ok!(&rt, styles_in_four(&rt, alloc, initial, &elements));
    same!(&rt, shared(&one), (1000, 1000, 1000));
    same!(&rt, shared(&two), (500, 625, 750));
    same!(&rt, shared(&four), (250, 437, 624));
    same!(&rt, have_groups_of_others(&one), [true; 4]);
    let cache = Mutex::new(ok!(&rt, StyleCache::new(alloc, initial)));
    for element in elements.iter().take(4) {
        ok!(&rt, shared_style(&rt, &cache, alloc, element));
    }
}

// A declaration leaves the other group shared.
#[test]
fn a_declared_property_is_written_alone(rt: HostRuntime) {
    let (alloc, large) = (rt.alloc(), Declaration::FontSize(40));
    let source = Source::from_first(ok!(&rt, rule(alloc, 1, &[large])));
    let initial = ok!(&rt, Initial::new(alloc)).style();
    let mut style = again!(&rt, &initial);
    for declaration in declared_by(&source) {
        ok!(&rt, style.declare(alloc, *declaration));
    }
    holds!(&rt, Arc::ptr_eq(&initial.border, &style.border));
}
