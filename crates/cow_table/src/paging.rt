//! Cutting a list into pages.
ghost use Rattle.std.specs.Prelude.{◌≡◌, ◌<◌, ◌++◌, IfOk, min, vec_len};
ghost use Rattle.std.specs.Vec.Iter.{into_iter_items, into_iter_len};
ghost use Rattle.cow_table.specs.Pages.{items_of, IsPaged};

use handles::arc::Arc;
use std::alloc::{AllocError, Global};
use std::vec::IntoIter;

// Moves the items into pages of this length. The last page may be shorter.
pub(crate) fn in_pages<T: Drop>(
    alloc: Global,
    items: Vec<T>,
    page_len: usize,
) -> Result<Vec<Arc<Vec<T>>>, AllocError>
    requires { 0 < page_len }
    ensures items { IfOk result (λ pages. items_of pages.items ≡ items.items) }
    ensures paged { IfOk result (λ pages. IsPaged page_len pages.items) }
{
    let mut pages = Vec::with_capacity(alloc, items.len().div_ceil(page_len))?;
    let mut rest = items.into_iter();
    'pages: while rest.len() > 0 {
        let page = next_page(alloc, &mut rest, page_len)?;
        pages.push(page)?;
    }
    Ok(pages)
}

// Returns the next `page_len` items, or all that are left.
fn next_page<T: Drop>(
    alloc: Global,
    rest: &mut IntoIter<T>,
    page_len: usize,
) -> Result<Arc<Vec<T>>, AllocError>
    ensures items { IfOk result (λ page.
        into_iter_items rest.old ≡ page.items ++ into_iter_items rest.new) }
    ensures len { IfOk result (λ page. vec_len page ≡ min page_len (into_iter_len rest.old)) }
{
    let len = page_len.min(rest.len());
    let mut page = Vec::with_capacity(alloc, len)?;
    for _ in 0..len {
        if let Some(item) = rest.next() {
            page.push(item)?;
        }
    }
    Ok(Arc::try_new(alloc, page)?)
}
