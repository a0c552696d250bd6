//! What a run printed.

ghost use Rattle.std.specs.Prelude.{◌≡◌, ◌++◌, OnOk};
ghost use Rattle.report_text.specs.Items.{item_text, items_text, number_of, number_text, prefix_of, width_of};

use crate::numbers::{push_byte_digits, push_decimal, push_hexadecimal, push_signed_decimal};
use ir_types::{ItemKind, Width, Word};
use run_types::OutItem;
use std::alloc::AllocError;

/// Appends printed items, parted by spaces.
pub fn push_items(text: &mut Vec<u8>, items: &[OutItem]) -> Result<(), AllocError>
    ensures { OnOk result (text.new.items ≡ text.old.items ++ items_text items.now) }
{
    let Some((first, others)) = items.split_first() else {
        return text.extend_from_slice(b"-");
    };
    push_item(text, *first)?;
    for item in others {
        text.extend_from_slice(b" ")?;
        push_item(text, *item)?;
    }
    Ok(())
}

fn push_item(text: &mut Vec<u8>, item: OutItem) -> Result<(), AllocError>
    ensures { OnOk result (text.new.items ≡ text.old.items ++ item_text item) }
{
    text.extend_from_slice(prefix(item.kind))?;
    push_number(text, item)
}

fn prefix(kind: ItemKind) -> &'static [u8]
    ensures { result.now ≡ prefix_of kind }
{
    match kind {
        ItemKind::Byte => b"b",
        ItemKind::D32 => b"d32:",
        ItemKind::D64 => b"d64:",
        ItemKind::U32 => b"u32:",
        ItemKind::U64 => b"u64:",
        ItemKind::X32 => b"x32:",
        ItemKind::X64 => b"x64:",
        ItemKind::Status => b"s",
    }
}

fn push_number(text: &mut Vec<u8>, item: OutItem) -> Result<(), AllocError>
    ensures { OnOk result (text.new.items
        ≡ text.old.items ++ number_text item.kind (number_of item)) }
{
    let word = Word::truncated(width(item.kind), item.bits);
    match item.kind {
        ItemKind::Byte => push_byte_digits(text, word.bits as u8),
        ItemKind::D32 | ItemKind::D64 => push_signed_decimal(text, word.signed()),
        ItemKind::U32 | ItemKind::U64 | ItemKind::Status => push_decimal(text, word.bits),
        ItemKind::X32 | ItemKind::X64 => push_hexadecimal(text, word.bits),
    }
}

fn width(kind: ItemKind) -> Width
    ensures { result ≡ width_of kind }
{
    match kind {
        ItemKind::Byte | ItemKind::Status => Width::W8,
        ItemKind::D32 | ItemKind::U32 | ItemKind::X32 => Width::W32,
        ItemKind::D64 | ItemKind::U64 | ItemKind::X64 => Width::W64,
    }
}
