//! The styles of elements, which share the groups of properties that no declaration changed.
ghost use Rattle.std.specs.Prelude.{◌≡◌, IfOk, OnErr, OnOk};
ghost use Rattle.cascade.specs.Cascade.{cascaded, declared};

use crate::source::{Declaration, Source, declared_by};
use servo_arc::Arc;
use std::alloc::{AllocError, Global};

/// The properties of text: `Font { size: 16, weight: 400 }`. The size is in pixels.
#[derive(Clone, Copy, PartialEq)]
pub struct Font {
    /// In pixels.
    pub size: u32,
    pub weight: u32,
}

/// The properties of an edge: `Border { width: 0, color: 0 }`. The width is in pixels.
#[derive(Clone, Copy, PartialEq)]
pub struct Border {
    /// In pixels.
    pub width: u32,
    pub color: u32,
}

/// The style of an element: `*style.font`, `*style.border`. Each group of properties is in a block of its own, which
/// styles share.
#[derive(Clone, PartialEq, Drop)]
pub struct Style {
    pub font: Arc<Font>,
    pub border: Arc<Border>,
}

impl Style {
    /// Sets the property of the declaration: `style.declare(alloc, Declaration::FontSize(20))?`. A group that another
    /// style shares, or that is static, is copied first.
    ///
    /// # Errors
    ///
    /// Returns `AllocError` if the copy cannot be allocated. The style is unchanged.
    pub fn declare(&mut self, alloc: Global, declaration: Declaration) -> Result<(), AllocError>
        ensures took { OnOk result (self.new ≡ declared self.old declaration) }
        ensures refused { OnErr result (self.new ≡ self.old) }
    {
        match declaration {
            Declaration::FontSize(size) => Arc::make_mut(&mut self.font, alloc)?.size = size,
            Declaration::FontWeight(weight) => Arc::make_mut(&mut self.font, alloc)?.weight =
                weight,
            Declaration::BorderWidth(width) => {
                Arc::make_mut(&mut self.border, alloc)?.width = width
            }
            Declaration::BorderColor(color) => {
                Arc::make_mut(&mut self.border, alloc)?.color = color
            }
        }
        Ok(())
    }

    /// Returns the style with the declarations of the source: `style.cascade(alloc, &source)?`. The new style shares
    /// the groups of which nothing is declared.
    ///
    /// # Errors
    ///
    /// Returns `AllocError` if a copy cannot be allocated, or as the `clone` of an `Arc` does.
    pub fn cascade(&self, alloc: Global, source: &Source) -> Result<Style, AllocError>
        ensures { IfOk result (λ style. style ≡ cascaded self.now source.now) }
    {
        let mut style: Style = self.clone()?;
        let declarations = declared_by(source);
        for declaration in declarations {
            style.declare(alloc, *declaration)?;
        }
        Ok(style)
    }
}
