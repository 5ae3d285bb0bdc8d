//! A trait of your own for changing a shared value.
ghost use Rattle.std.specs.Prelude.{◌≡◌, ℕ, IfOk, IfErr};

use servo_arc::Arc;
use std::alloc::{AllocError, Global};

/// A title and a body. Clones share the body.
#[derive(Drop)]
pub struct Article<T> {
    pub title: u64,
    pub body: Arc<T>,
}

/// Clones the handle of the body. Fails when the `clone` of an `Arc` does.
impl<T: Drop> Clone for Article<T> {
    ghost is_clone = { λ a b. b ≡ a };

    fn clone(&self) -> Result<Article<T>, AllocError> {
        Ok(Article {
            title: self.title,
            body: self.body.clone()?,
        })
    }
}

/// A value with a title that can be changed.
pub trait Retitle {
    ghost titled: { ℕ → Self → Self };

    /// Sets the title.
    ///
    /// # Errors
    ///
    /// `AllocError` if there is no memory. Nothing has changed then.
    fn set_title(&mut self, alloc: Global, title: u64) -> Result<(), AllocError>
        ensures written { IfOk result (λ _. self.new ≡ titled title self.old) }
        ensures refused { IfErr result (λ _. self.new ≡ self.old) };
}

/// An article that nobody else shares is written in place, and any other in a copy.
impl<T: Drop> Retitle for Arc<Article<T>> {
    ghost titled = { λ title article. record article { title = title } };

    fn set_title(&mut self, alloc: Global, title: u64) -> Result<(), AllocError> {
        Arc::make_mut(self, alloc)?.title = title;
        Ok(())
    }
}

/// The article, and the same under another title. The first is read after the change.
pub fn two_titles<T: Drop>(
    alloc: Global,
    article: Arc<Article<T>>,
    title: u64,
) -> Result<(Arc<Article<T>>, Arc<Article<T>>), AllocError>
    ensures old { IfOk result (λ articles. articles.0 ≡ article) }
    ensures new { IfOk result (λ articles. articles.1 ≡ record article { title = title }) }
{
    let mut changed = article.clone()?;
    changed.set_title(alloc, title)?;
    Ok((article, changed))
}
