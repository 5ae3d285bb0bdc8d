//! Where a cut is.
ghost use Rattle.std.specs.Prelude.{◌≡◌, ◌+◌, ◌*◌, ◌<◌, ◌≤◌, IfNone, IfSome, length, nat_lt, take};
ghost use Rattle.sequence.specs.Cuts.{IsAmong, IsCut, HasCut, first};
ghost use Rattle.sequence.specs.Nodes.{AreChildren, items_in};

use crate::cut::Cut;
use crate::label::Label;
use crate::tree::Child;

// How many items are in a part of a leaf, when it is searched.
const PART: usize = 16;

// How many of them are in a quarter of a part.
const QUARTER: usize = 4;

// Whether the item of that number is before the cut.
#[inline(always)]
fn is_before<T, L: Label<T>, C: Cut<T, L>>(items: &[T], cut: &C, at: usize) -> bool
    requires cut { HasCut (C.is_before cut.now) items.now }
    requires within { at < length items.now }
    ensures { result ≡ nat_lt at (first (C.is_before cut.now) items.now) }
{
    cut.item(&items[at])
}

// Where the part begins that has the last item before the cut, or the first part, of parts of that many items. It
// counts all that begin before, since a jump would be guessed wrong half of the times.
#[inline(always)]
fn part_of<T, L: Label<T>, C: Cut<T, L>>(items: &[T], cut: &C, part: usize) -> usize
    requires cut { HasCut (C.is_before cut.now) items.now }
    requires some { 0 < length items.now }
    requires parts { 0 < part }
    ensures within { result < length items.now }
    ensures among { IsAmong result (result + part) (first (C.is_before cut.now) items.now) }
{
    let mut at = 0;
    let mut seen = 0;
    'along: while items.len() - seen > part {
        seen += part;
        at += part * usize::from(is_before(items, cut, seen));
    }
    at
}

// Where the quarter begins that has the last item before the cut, or the first quarter, of four that begin there and
// have that many items each.
#[inline(always)]
fn quarter_of<T, L: Label<T>, C: Cut<T, L>>(
    items: &[T],
    cut: &C,
    at: usize,
    quarter: usize,
) -> usize
    requires cut { HasCut (C.is_before cut.now) items.now }
    requires some { 0 < quarter }
    requires within { at + 4 * quarter ≤ length items.now }
    requires among { IsAmong at (at + 4 * quarter) (first (C.is_before cut.now) items.now) }
    ensures within { result + quarter ≤ length items.now }
    ensures among { IsAmong result (result + quarter) (first (C.is_before cut.now) items.now) }
{
    let first = usize::from(is_before(items, cut, at + quarter));
    let second = usize::from(is_before(items, cut, at + 2 * quarter));
    let third = usize::from(is_before(items, cut, at + 3 * quarter));
    at + quarter * (first + second + third)
}

// The number of the last item before the cut, or of the first.
#[inline(always)]
fn place_of<T, L: Label<T>, C: Cut<T, L>>(items: &[T], cut: &C) -> usize
    requires cut { HasCut (C.is_before cut.now) items.now }
    requires some { 0 < length items.now }
    ensures within { result < length items.now }
    ensures among { IsAmong result (result + 1) (first (C.is_before cut.now) items.now) }
{
    if items.len() < PART {
        return part_of(items, cut, 1);
    }
    let at = part_of(items, cut, PART).min(items.len() - PART);
    let at = quarter_of(items, cut, at, QUARTER);
    quarter_of(items, cut, at, 1)
}

// The number of the last item before the cut.
#[inline(always)]
#[tactic(auto, using(crate::proofs::Cuts::cut_at))]
pub(crate) fn last_in<T, L: Label<T>, C: Cut<T, L>>(items: &[T], cut: &C) -> Option<usize>
    requires cut { HasCut (C.is_before cut.now) items.now }
    requires some { 0 < length items.now }
    ensures none { IfNone result (IsCut (C.is_before cut.now) items.now 0) }
    ensures some { IfSome result (λ at. IsCut (C.is_before cut.now) items.now (at + 1)) }
{
    let at = place_of(items, cut);
    // All others were compared.
    if at == 0 && !cut.item(&items[0]) {
        return None;
    }
    Some(at)
}

// The number of the last child whose first item is before the cut, or of the first child. It counts as `part_of` does.
pub(crate) fn child_of<T, L: Label<T>, C: Cut<T, L>>(children: &[Child<T, L>], cut: &C) -> usize
    requires children { AreChildren L.label_of children.now }
    requires cut { HasCut (C.is_before cut.now) (items_in children.now) }
    ensures within { result < length children.now }
    ensures among { IsAmong (length (items_in (take result children.now)))
        (length (items_in (take (result + 1) children.now))) (first (C.is_before cut.now) (items_in children.now)) }
{
    let mut at = 0;
    let mut seen = 0;
    'along: while children.len() - seen > 1 {
        seen += 1;
        at += usize::from(cut.label(&children[seen].label));
    }
    at
}
