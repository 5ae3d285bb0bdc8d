//! The sources of declarations.
ghost use Rattle.std.specs.Prelude.{◌≡◌};
ghost use Rattle.cascade.specs.Cascade.{declarations};

use servo_arc::{ArcUnion, ArcUnionBorrow, ThinArc};

/// A property with its value: `Declaration::FontSize(16)`. Lengths are in pixels.
#[derive(Clone, Copy, PartialEq, Eq, Hash)]
pub enum Declaration {
    /// The size of the font, in pixels.
    FontSize(u32),
    /// The weight of the font: 400 is that of the initial style.
    FontWeight(u32),
    /// The width of the border, in pixels.
    BorderWidth(u32),
    /// The color of the border.
    BorderColor(u32),
}

/// A rule of a sheet: `Rule { specificity: 1, declarations }`. Of two rules that match, the one with the greater
/// specificity is the stronger.
#[derive(PartialEq, Eq, Hash, Drop)]
pub struct Rule {
    /// The rank of the rule among those that match an element: the greatest is the strongest.
    pub specificity: u32,
    /// Of two declarations of one property the later one is the stronger.
    pub declarations: ThinArc<(), Declaration>,
}

/// The declarations of the element itself: `Inline { declarations }`.
#[derive(PartialEq, Eq, Hash, Drop)]
pub struct Inline {
    /// Of two declarations of one property the later one is the stronger.
    pub declarations: ThinArc<(), Declaration>,
}

/// A source of declarations, a rule or an element itself: `Source::from_first(rule)`.
pub type Source = ArcUnion<Rule, Inline>;

/// Returns the declarations of the source: `declared_by(&source)`.
pub fn declared_by(source: &Source) -> &[Declaration]
    ensures { result.now ≡ declarations source.now }
{
    match source.borrow() {
        ArcUnionBorrow::First(rule) => rule.get().declarations.slice(),
        ArcUnionBorrow::Second(inline) => inline.get().declarations.slice(),
    }
}
