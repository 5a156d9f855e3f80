//! The printed text of a formula.
ghost use Rattle.std.specs.Prelude.{◌≡◌, IfOk};
ghost use Rattle.formula_text.specs.PrintedText.{printed_text};

use std::alloc::{AllocError, Global};
use written_items::{Item, push_count, push_item};

/// The text of the items with their counts, in their order.
pub fn printed_text(alloc: Global, items: &[(Item, u32)]) -> Result<Vec<u8>, AllocError>
    ensures { IfOk result (λ text. text.items ≡ printed_text items.now) }
{
    let mut text = Vec::new(alloc);
    for (item, count) in items {
        push_item(&mut text, item)?;
        push_count(&mut text, *count)?;
    }
    Ok(text)
}
