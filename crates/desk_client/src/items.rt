//! The items of a list, as their texts stand in a reply.

ghost use Rattle.std.specs.Prelude.{◌≡◌, ◌++◌, All, IfOk, codes, false, map};
ghost use Rattle.records.specs.Front.{IsFrontItem};
ghost use Rattle.records.specs.List.{items_text};
ghost use Rattle.desk_client.specs.Page.{AreTold};
ghost use Rattle.records.specs.Front.{IsFound};

use book_lists::PAGE;
use std::alloc::{AllocError, Global};

/// An item of a list.
pub(crate) trait Item: Sized + Drop {
    ghost use Rattle.std.specs.Prelude.{ℕ, List, IfOk};
    ghost use Rattle.records.specs.Front.{IsFrontItem};
    ghost use Rattle.records.specs.List.{AreReadInOneWay};

    // That it keeps its rules, and its text.
    ghost is_told: { Self → Type 0 };

    ghost text_of: { Self → List ℕ };

    /// The item at the front of a text, and what follows it.
    fn read_front<'t>(alloc: Global, text: &'t [u8]) -> Result<Option<(Self, &'t [u8])>, AllocError>
        ensures { IfOk result (IsFrontItem is_told text_of text.now) };

    /// A text begins with one item at the most, and each begins with a brace.
    fn item_law()
        ensures { AreReadInOneWay is_told text_of };
}

/// The items at the front of a text, with a comma between each two and a bracket behind the last,
/// and what follows the bracket.
pub(crate) fn read_items<'t, T: Item>(
    alloc: Global,
    text: &'t [u8],
) -> Result<Option<(Vec<T>, &'t [u8])>, AllocError>
    ensures { IfOk result (IsFrontItem (λ items. All T.is_told items.items)
        (λ items. items_text false (map T.text_of items.items)) text.now) }
{
    T::item_law();
    let mut items = Vec::new(alloc);
    if let Some(rest) = text.strip_prefix(b"]".as_slice()) {
        return Ok(Some((items, rest)));
    }
    let mut rest = text;
    'items: loop {
        let Some((item, behind)) = T::read_front(alloc, rest)? else {
            return Ok(None);
        };
        items.push(item)?;
        if let Some(after) = behind.strip_prefix(b"]".as_slice()) {
            return Ok(Some((items, after)));
        }
        let Some(next) = behind.strip_prefix(b",".as_slice()) else {
            return Ok(None);
        };
        rest = next;
    }
}

/// The list that is the whole of a text behind its front, as a page has it: at most so many items
/// as a page has, and behind their bracket a brace.
pub(crate) fn read_list<T: Item>(
    alloc: Global,
    front: &str,
    text: &[u8],
) -> Result<Option<Vec<T>>, AllocError>
    ensures { IfOk result (IsFound (λ items. AreTold T.is_told items.items
        × (text.now ≡ front.now ++ (items_text false (map T.text_of items.items) ++ codes "}")))) }
{
    T::item_law();
    let Some(rest) = text.strip_prefix(front.as_bytes()) else {
        return Ok(None);
    };
    let Some((items, behind)) = read_items(alloc, rest)? else {
        return Ok(None);
    };
    if behind != b"}".as_slice() {
        return Ok(None);
    }
    if items.len() > PAGE as usize {
        return Ok(None);
    }
    Ok(Some(items))
}
