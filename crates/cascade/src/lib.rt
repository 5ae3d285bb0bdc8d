//! A small style engine, a cascade as in CSS: rules, the declarations of elements, and a tree of the paths of rules.
//! Each path has one style, which is computed once and shares the groups of properties that the path does not
//! declare.
#![tactic(auto)]

mod cache;
mod child;
mod element;
mod initial;
mod node;
mod source;
mod style;
mod threads;

pub use cache::StyleCache;
pub use element::Element;
pub use initial::Initial;
pub use source::{Declaration, Inline, Rule, Source, declared_by};
pub use style::{Border, Font, Style};
pub use threads::{shared_style, styles, styles_in_four, styles_in_two};
