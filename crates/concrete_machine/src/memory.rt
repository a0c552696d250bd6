//! Reading and writing the bytes of objects.

ghost use Rattle.std.specs.Prelude.{◌≡◌, ◌-◌, ◌<◌, ◌^◌, ◌≤◌, drop, length, position, take, true};
ghost use Rattle.machine_model.specs.Memory.{bytes_of, covers, is_constant, number_of, read, with_bytes, written};
ghost use Rattle.concrete_machine.specs.Memory.{Writes};

use machine_model::{Object, ObjectKind};
use run_types::Trap;

/// Whether a live object has all of the range.
fn covers(at: u64, len: u64, object: &Object) -> bool
    ensures { result ≡ covers at len object.now }
{
    if !object.live || at < object.base {
        return false;
    }
    let offset = at - object.base;
    let size = object.bytes.items.len() as u64;
    offset <= size && len <= size - offset
}

/// The place of the object that has the range.
pub fn place_of(objects: &[Object], at: u64, len: u64) -> Option<usize>
    ensures { result ≡ position (covers at len) objects.now }
{
    objects.iter().position(|object| covers(at, len, object))
}

/// The number that bytes spell, the least first.
fn number_of(bytes: &[u8]) -> u64
    requires { length bytes.now ≤ 8 }
    ensures value { result ≡ number_of bytes.now }
    ensures bound { result < 256 ^ length bytes.now }
{
    match bytes {
        [] => 0,
        [byte, rest @ ..] => u64::from(*byte) + 256 * number_of(rest),
    }
}

/// The number that a range of the object holds.
fn number_at(object: &Object, at: u64, len: u64) -> u64
    requires within { covers at len object.now ≡ true }
    requires short { len ≤ 8 }
    ensures { result ≡ number_of (take len (drop (at - object.now.base) object.now.bytes)) }
{
    let offset = (at - object.base) as usize;
    number_of(&object.bytes.items[offset..offset + len as usize])
}

/// Writes the lowest bytes of a number over bytes, the least first.
fn spell(bytes: &mut [u8], number: u64)
    ensures { bytes.new ≡ bytes_of (length bytes.old) number }
{
    let mut rest = number;
    for byte in bytes.iter_mut() {
        *byte = (rest % 256) as u8;
        rest /= 256;
    }
}

/// Writes the lowest bytes of a number to a range of the object.
fn spell_at(object: &mut Object, at: u64, len: u64, number: u64)
    requires { covers at len object.old ≡ true }
    ensures { object.new ≡ with_bytes object.old at (bytes_of len number) }
{
    let offset = (at - object.base) as usize;
    spell(
        &mut object.bytes.items[offset..offset + len as usize],
        number,
    );
}

/// The number that a valid range of bytes holds.
#[tactic(auto, unfolding(machine_model::specs::Memory::read))]
pub fn read(objects: &[Object], at: u64, len: u64) -> Result<u64, Trap>
    requires { len ≤ 8 }
    ensures { result ≡ read objects.now at len }
{
    match place_of(objects, at, len) {
        Some(place) => Ok(number_at(&objects[place], at, len)),
        None => Err(Trap::BadAddress),
    }
}

/// Whether the object's bytes stay as they are.
fn is_constant(object: &Object) -> bool
    ensures { result ≡ is_constant object.now.kind }
{
    matches!(object.kind, ObjectKind::Constant)
}

/// Writes the lowest bytes of a number to a valid range.
#[tactic(auto, unfolding(machine_model::specs::Memory::written))]
pub fn write(objects: &mut [Object], at: u64, len: u64, number: u64) -> Result<(), Trap>
    requires { len ≤ 8 }
    ensures { Writes result objects.old objects.new (written objects.old at len number) }
{
    let Some(place) = place_of(objects, at, len) else {
        return Err(Trap::BadAddress);
    };
    if is_constant(&objects[place]) {
        return Err(Trap::ReadOnly);
    }
    spell_at(&mut objects[place], at, len, number);
    Ok(())
}
