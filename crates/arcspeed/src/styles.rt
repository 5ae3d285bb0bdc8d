//! The styles of many elements, by the crate `cascade`.
use crate::random::Random;
use cascade::{Declaration, Element, Initial, Inline, Rule, Style, styles, styles_in_four};
use servo_arc::Arc;
use std::alloc::Global;
use std::thread::Threads;

const ELEMENTS: usize = 1_000;

const RULES: u32 = 24;

fn declaration(number: u32) -> Declaration {
    match number % 4 {
        0 => Declaration::FontSize(number),
        1 => Declaration::FontWeight(number),
        2 => Declaration::BorderWidth(number),
        _ => Declaration::BorderColor(number),
    }
}

fn rule(alloc: Global, number: u32) -> Option<Arc<Rule>> {
    let declarations = [declaration(number), declaration(number.wrapping_mul(7) / 4)];
    let rule = Rule {
        specificity: number % 3,
        declarations: Arc::from_header_and_slice(alloc, (), &declarations).ok()?,
    };
    Arc::new(alloc, rule).ok()
}

/// The rules whose six classes match, by the bits of `random`.
fn matching(alloc: Global, rules: &[Arc<Rule>], random: u64) -> Option<Vec<Arc<Rule>>> {
    let mut matched = Vec::new(alloc);
    for (i, rule) in rules.iter().enumerate() {
        if (random >> (i % 6)) & 1 == 1 {
            matched.push(rule.clone().ok()?).ok()?;
        }
    }
    Some(matched)
}

fn inline(alloc: Global, random: u64) -> Option<Arc<Inline>> {
    let own = [declaration((random % 64) as u32)];
    let declarations = Arc::from_header_and_slice(alloc, (), &own).ok()?;
    Arc::new(alloc, Inline { declarations }).ok()
}

/// Creates an element of one of 64 kinds. One element in eight has a block of declarations of its own.
fn element(alloc: Global, rules: &[Arc<Rule>], random: u64) -> Option<Element> {
    let mut element = Element::of_rules(alloc, matching(alloc, rules, random)?).ok()?;
    if (random >> 6) % 8 == 0 {
        element.inline = Some(inline(alloc, random >> 9)?);
    }
    Some(element)
}

fn elements(alloc: Global) -> Option<Vec<Element>> {
    let mut rules = Vec::new(alloc);
    for number in 0..RULES {
        rules.push(rule(alloc, number)?).ok()?;
    }
    let mut random = Random::new();
    let mut elements = Vec::new(alloc);
    for _ in 0..ELEMENTS {
        elements
            .push(element(alloc, &rules, random.next() >> 33)?)
            .ok()?;
    }
    Some(elements)
}

fn sum_of(styles: &[Arc<Style>]) -> u64 {
    let mut sum = 0u64;
    for style in styles {
        let font = u64::from(style.font.size ^ style.font.weight);
        let border = u64::from(style.border.width ^ style.border.color);
        sum = sum.rotate_left(1).wrapping_add(font).wrapping_add(border);
    }
    sum
}

/// Computes the styles on one thread, or on four.
#[inline(never)]
pub fn cascade<R: Threads + Sync>(rt: &R, alloc: Global, threads: u32, times: u64) -> Option<u64> {
    let elements = elements(alloc)?;
    let initial = Initial::new(alloc).ok()?;
    let mut sum = 0u64;
    for _ in 0..times {
        let styles = if threads == 1 {
            styles(alloc, initial, &elements)
        } else {
            styles_in_four(rt, alloc, initial, &elements)
        };
        sum = sum.wrapping_add(sum_of(&styles.ok()?));
    }
    Some(sum)
}
