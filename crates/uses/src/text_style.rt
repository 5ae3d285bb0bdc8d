//! A caller of each kind of handle.
ghost use Rattle.std.specs.Prelude.{◌≡◌, if◌then◌else◌, false, true, IfOk, IfErr, unwrap_or};
ghost use Rattle.servo_arc.specs.Borrowed.{borrowed};
ghost use Rattle.servo_arc.specs.HeaderSlice.Builders.{Builds};
ghost use Rattle.servo_arc.specs.Stays.{value_of};

use servo_arc::{Arc, ArcBorrow, BuildError, StaticArc, ThinArc, UniqueArc};
use std::alloc::{AllocError, Global};

/// The style of a run of text.
#[derive(Clone, Debug, Drop)]
pub struct TextStyle {
    pub size: u32,
    pub is_bold: bool,
}

/// Creates a style, fills it in, and then shares it.
///
/// # Errors
///
/// The empty style, if there is no memory for it.
pub fn plain_style(alloc: Global, size: u32) -> Result<Arc<TextStyle>, TextStyle>
    ensures made { IfOk result (λ style. style ≡ record { size = size; is_bold = false }) }
    ensures refused { IfErr result (λ style. style ≡ record { size = 0; is_bold = false }) }
{
    let empty = TextStyle {
        size: 0,
        is_bold: false,
    };
    let mut style = UniqueArc::new(alloc, empty)?;
    style.size = size;
    Ok(style.shareable())
}

/// Returns the bold form of a style, in a block of its own. Other handles of the given style read it as before.
pub fn with_bold(alloc: Global, style: &Arc<TextStyle>) -> Result<Arc<TextStyle>, AllocError>
    ensures { IfOk result (λ bold. bold ≡ record style.now { is_bold = true }) }
{
    let mut bold = style.clone()?;
    Arc::make_mut(&mut bold, alloc)?.is_bold = true;
    Ok(bold)
}

/// Returns a style and its bold form.
pub fn plain_and_bold(
    alloc: Global,
    size: u32,
) -> Result<(Arc<TextStyle>, Arc<TextStyle>), AllocError>
    ensures plain { IfOk result (λ styles. styles.0 ≡ record { size = size; is_bold = false }) }
    ensures bold { IfOk result (λ styles. styles.1 ≡ record { size = size; is_bold = true }) }
{
    let Ok(plain) = plain_style(alloc, size) else {
        return Err(AllocError);
    };
    let bold = with_bold(alloc, &plain)?;
    Ok((plain, bold))
}

/// Returns the size of a borrowed style.
pub fn size_of(style: ArcBorrow<'_, TextStyle>) -> u32
    ensures { result ≡ (borrowed style.entry).size }
{
    style.get().size
}

/// Returns the style or the default. A handle of a static block is made without an error.
pub fn style_or(
    style: Option<Arc<TextStyle>>,
    default: StaticArc<'static, TextStyle>,
) -> Arc<TextStyle>
    ensures { result ≡ unwrap_or style (value_of default.entry) }
{
    match style {
        Some(style) => style,
        None => default.arc(),
    }
}

/// Creates a slice of letters with their style as header.
///
/// # Errors
///
/// `BuildError` if there is no memory, or if the iterator does not yield exactly `number` letters.
pub fn styled<I: Iterator<Item = char>>(
    alloc: Global,
    style: TextStyle,
    letters: I,
    number: usize,
) -> Result<ThinArc<TextStyle, char>, BuildError>
    requires { I.can_next letters }
    ensures { Builds I.next_gives letters number style result }
{
    Arc::from_header_and_iter_with_size(alloc, style, letters, number)
}

/// Creates a slice with copies of `numbers`, and with `rule` as header.
pub fn properties(
    alloc: Global,
    rule: u32,
    numbers: &[u32],
) -> Result<ThinArc<u32, u32>, AllocError>
    ensures { IfOk result (λ list. list ≡ record { header = rule; items = numbers.now }) }
{
    Arc::from_header_and_slice(alloc, rule, numbers)
}

/// Creates a slice with the items of a vector, which are moved, and with `rule` as header.
pub fn properties_of(
    alloc: Global,
    rule: u32,
    numbers: Vec<u32>,
) -> Result<ThinArc<u32, u32>, AllocError>
    ensures { IfOk result (λ list. list ≡ record { header = rule; items = numbers.items }) }
{
    Arc::from_header_and_vec(alloc, rule, numbers)
}

/// Returns the rule, which is the header.
pub fn rule_of(list: &ThinArc<u32, u32>) -> u32
    ensures { result ≡ list.now.header }
{
    list.header
}

/// Sets the rule if nobody else shares the slice. Returns `false` otherwise.
pub fn put_under(list: &mut ThinArc<u32, u32>, rule: u32) -> bool
    ensures { list.new ≡ (if result then record list.old { header = rule } else list.old) }
{
    match Arc::get_mut(list) {
        Some(slice) => {
            slice.header = rule;
            true
        }
        None => false,
    }
}
