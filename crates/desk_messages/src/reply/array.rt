//! Lists of JSON, written as they stand: no value is made of what stands in them.

ghost use Rattle.std.specs.Prelude.{◌≡◌, ◌++◌, ◌∷◌, IfOk, OnOk, [], if◌then◌else◌, map};
ghost use Rattle.records.specs.List.{list_text, page_text};

use records::put_name;
use std::alloc::{AllocError, Global};

// The room that the text of a page is begun with.
const ROOM: usize = 4096;

// What stands in a list.
pub(crate) trait Element {
    ghost use Rattle.std.specs.Prelude.{ℕ, List};

    // The text that it is told by.
    ghost text_of: { Self → List ℕ };

    // Adds it.
    fn put(&self, text: &mut Vec<u8>) -> Result<(), AllocError>
        ensures { OnOk result (text.new.items ≡ text.old.items ++ text_of self.now) };
}

// The page whose list has this name.
pub(crate) fn page<T: Element>(
    alloc: Global,
    name: &str,
    elements: &[T],
) -> Result<Vec<u8>, AllocError>
    ensures { IfOk result (λ text. text.items
        ≡ page_text name.now (list_text (map T.text_of elements.now))) }
{
    let mut text = Vec::with_capacity(alloc, ROOM)?;
    text.extend_from_slice(b"{")?;
    put_name(&mut text, false, name)?;
    put_list(&mut text, elements)?;
    text.extend_from_slice(b"}")?;
    Ok(text)
}

// Adds the text of a list.
pub(crate) fn put_list<T: Element>(text: &mut Vec<u8>, elements: &[T]) -> Result<(), AllocError>
    ensures { OnOk result (text.new.items
        ≡ text.old.items ++ list_text (map T.text_of elements.now)) }
{
    text.extend_from_slice(b"[")?;
    let mut later = false;
    for element in elements {
        put_between(text, later, b',')?;
        element.put(text)?;
        later = true;
    }
    text.extend_from_slice(b"]")?;
    Ok(())
}

// Adds a byte that separates a part from those before it, where there are any.
pub(crate) fn put_between(text: &mut Vec<u8>, later: bool, separator: u8) -> Result<(), AllocError>
    ensures { OnOk result (text.new.items
        ≡ text.old.items ++ (if later then separator ∷ [] else [])) }
{
    if later {
        text.extend_from_slice(&[separator])
    } else {
        Ok(())
    }
}
