//! The initial style, in which nothing is declared. All styles share its groups of properties.
ghost use Rattle.std.specs.Prelude.{◌≡◌};
ghost use Rattle.servo_arc.specs.Stays.{value_of};
ghost use Rattle.cascade.specs.Cascade.{initial};

use crate::style::{Border, Font, Style};
use servo_arc::{StaticArc, UniqueArc};
use std::alloc::{AllocError, Global};

/// The static groups of the initial style, which is copied as two pointers are, also to other threads:
/// `Initial::new(alloc)?`. Making a style of these groups cannot fail.
#[derive(Clone, Copy)]
pub struct Initial {
    font: StaticArc<'static, Font>,
    border: StaticArc<'static, Border>,
    ghost initial_font: { value_of font ≡ initial.font },
    ghost initial_border: { value_of border ≡ initial.border },
}

impl Initial {
    /// Creates the two groups, in two allocations that are never freed: `Initial::new(alloc)?`. Call it once.
    ///
    /// # Errors
    ///
    /// Returns `AllocError` if an allocation fails, and frees the other.
    pub fn new(alloc: Global) -> Result<Initial, AllocError> {
        let font = Font {
            size: 16,
            weight: 400,
        };
        let border = Border { width: 0, color: 0 };
        let font = UniqueArc::try_new(alloc, font)?;
        let border = UniqueArc::try_new(alloc, border)?;
        // Made static only when both exist, so that nothing leaks if one allocation fails.
        Ok(Initial {
            font: font.into_static(),
            border: border.into_static(),
        })
    }

    /// Returns the initial style, without an allocation or an atomic step: `initial.style()`.
    pub fn style(&self) -> Style
        ensures { result ≡ initial }
    {
        Style {
            font: self.font.arc(),
            border: self.border.arc(),
        }
    }
}
