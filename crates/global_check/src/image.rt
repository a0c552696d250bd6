//! Bytes that are written into an image.

ghost use Rattle.std.specs.Prelude.{◌≡◌, take, IfOk};
ghost use Rattle.std.specs.Int.{to_le_bytes, w64};
ghost use Rattle.ir_types.specs.Kind.{size_of};
ghost use Rattle.global_check.specs.Image as spec;

use ir_types::{Bytes, Kind, List, Operand};
use rc_base::NoMemory;
use std::alloc::Global;

/// So many bytes of 0.
pub fn zeros(alloc: Global, len: u64) -> Result<Bytes, NoMemory>
    ensures { IfOk result (λ image. image ≡ spec.zeros len) }
{
    let mut bytes = Vec::new(alloc);
    for _ in 0..len {
        bytes.push(0)?;
    }
    Ok(List { items: bytes })
}

/// Writes bytes from a place on. Those that don't lie within the image leave it as it is.
pub fn put(image: &mut [u8], place: u64, bytes: &[u8])
    ensures { image.new ≡ spec.put image.old place bytes.now }
{
    let len = bytes.len();
    if len <= image.len() && place <= (image.len() - len) as u64 {
        let start = place as usize;
        image[start..start + len].copy_from_slice(bytes);
    }
}

/// Writes a constant of the kind, the least byte first.
pub fn put_operand(image: &mut [u8], place: u64, kind: Kind, operand: Operand)
    ensures { image.new ≡ spec.put image.old place (spec.bytes_of kind operand) }
{
    match operand {
        Operand::Constant(word) => {
            let bytes = word.bits.to_le_bytes();
            put(image, place, &bytes[..kind.size() as usize]);
        }
        Operand::Register(_) => {}
    }
}
