//! The texts of a basis's items.
ghost use Rattle.std.specs.Prelude.{◌≡◌, ◌++◌, IfOk, map, string_bytes};
ghost use Rattle.hol_document.specs.ItemTexts.{item_text, AreItemTexts};

use hol_exec::Room;
use hol_kernel::{Basis, Item, ItemNode};
use hol_types::Name;
use std::alloc::{AllocError, Global};

/// The texts of the items, in the order of their bytes.
pub(crate) fn item_texts(alloc: Global, basis: &Basis) -> Result<Vec<String>, AllocError>
    ensures { IfOk result (λ texts. AreItemTexts basis.now (map string_bytes texts.items)) }
{
    let mut texts = unsorted_texts(alloc, basis.items())?;
    texts.sort()?;
    Ok(texts)
}

fn unsorted_texts(alloc: Global, items: &[Item]) -> Result<Vec<String>, AllocError>
    ensures { IfOk result (λ texts. map string_bytes texts.items ≡ map item_text items.now) }
{
    let mut texts = Vec::with_capacity(alloc, items.len())?;
    let mut room = Room::new();
    for item in items {
        let text = item_text(alloc, item)?;
        room.take(text.as_str())?;
        texts.push(text)?;
    }
    Ok(texts)
}

fn item_text(alloc: Global, item: &Item) -> Result<String, AllocError>
    ensures { IfOk result (λ text. string_bytes text ≡ item_text item.now) }
{
    match item.node() {
        ItemNode::Axiom(name, _) => tagged(alloc, "axiom:", name),
        ItemNode::DeclaredConstant(name, _) => tagged(alloc, "const:", name),
        ItemNode::DefinedConstant(name, _) => tagged(alloc, "def:", name),
        ItemNode::DeclaredType(name, _) => tagged(alloc, "type:", name),
        ItemNode::DefinedType { name, .. } => tagged(alloc, "typedef:", name),
    }
}

// The name after what it is a name of.
fn tagged(alloc: Global, tag: &str, name: &Name) -> Result<String, AllocError>
    ensures { IfOk result (λ text. string_bytes text ≡ tag.now ++ name.now) }
{
    let mut text = String::from_str(alloc, tag)?;
    text.push_str(name.as_str())?;
    Ok(text)
}
