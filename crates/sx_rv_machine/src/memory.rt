//! The memory of a machine: areas of bytes, each with its permissions.
ghost use Rattle.std.specs.Prelude.{◌≡◌, ◌<◌, ◌≤◌, ◌^◌, ℕ, Some, None, length, IfSome, IfNone, true, false, if◌then◌else◌};
ghost use Rattle.sx_rv_isa.specs.Effects.{extend};
ghost use Rattle.sx_rv_machine.specs.Sizes.{IsSize};
ghost use Rattle.sx_rv_machine.specs.Step.{is_aligned, loaded_value};
ghost use Rattle.sx_rv_machine.specs.Memory.{covers, area_part, area_with, bytes_at, with_bytes, number_of, bytes_of, writable};

use std::marker::Model;
use sx_bits::sign;

/// The permission to fetch instructions (PF_X).
pub(crate) const EXECUTABLE: u32 = 1;

/// The permission to store (PF_W).
pub(crate) const WRITABLE: u32 = 2;

/// The permission to load (PF_R).
pub(crate) const READABLE: u32 = 4;

/// A part of the memory: consecutive bytes with the same permissions.
#[derive(Drop)]
pub struct MemoryArea {
    /// The address of the first byte.
    pub(crate) start: u64,
    /// The permissions, a sum of PF_X, PF_W and PF_R.
    pub(crate) flags: u32,
    pub(crate) bytes: Vec<u8>,
}

impl Model for MemoryArea {
    ghost use Rattle.sx_rv_machine.specs.Memory.{Area};

    ghost Value = { Area };

    ghost view = { λ a. record { start = a.start; flags = a.flags; bytes = a.bytes.items } };
}

impl MemoryArea {
    /// Whether `count` bytes from `address` on lie in the area, and it has the permission.
    #[inline]
    fn covers(&self, permission: u32, address: u64, count: usize) -> bool
        requires { 0 < permission }
        ensures { result ≡ covers self.now permission address count }
    {
        if self.flags / permission % 2 != 1 || address < self.start {
            return false;
        }
        let offset = address - self.start;
        let all = self.bytes.len();
        count <= all && offset <= (all - count) as u64
    }

    /// The `count` bytes from `address` on, which the area covers.
    #[inline]
    fn part(&self, permission: u32, address: u64, count: usize) -> &[u8]
        requires { covers self.now permission address count ≡ true }
        ensures bytes { area_part self.now permission address count ≡ Some result.now }
        ensures length { length result.now ≡ count }
    {
        let offset = (address - self.start) as usize;
        &self.bytes[offset..offset + count]
    }

    /// Puts other bytes in the place of those from `address` on, which the area covers.
    #[inline]
    fn put(&mut self, address: u64, new: &[u8])
        requires { covers self.old writable address (length new.now) ≡ true }
        ensures { self.new ≡ area_with self.old address new.now }
    {
        let offset = (address - self.start) as usize;
        self.bytes[offset..offset + new.len()].copy_from_slice(new);
    }
}

/// The `count` bytes from `address` on, where one area with the permission has them all.
#[inline]
pub(crate) fn bytes_at(
    areas: &[MemoryArea],
    permission: u32,
    address: u64,
    count: usize,
) -> Option<&[u8]>
    requires { 0 < permission }
    ensures some { IfSome result (λ bytes. bytes_at areas.now permission address count ≡ Some bytes.now) }
    ensures none { IfNone result (bytes_at areas.now permission address count ≡ None) }
    ensures length { IfSome result (λ bytes. length bytes.now ≡ count) }
{
    for area in areas {
        if area.covers(permission, address, count) {
            return Some(area.part(permission, address, count));
        }
    }
    None
}

/// Puts other bytes in the place of those from `address` on, and answers true, where one writable area has them all.
#[inline]
pub(crate) fn put_bytes(areas: &mut [MemoryArea], address: u64, new: &[u8]) -> bool
    ensures put { with_bytes areas.old address new.now ≡ (if result then Some areas.new else None) }
    ensures kept { result ≡ false → areas.new ≡ areas.old }
{
    for index in 0..areas.len() {
        if areas[index].covers(WRITABLE, address, new.len()) {
            areas[index].put(address, new);
            return true;
        }
    }
    false
}

/// Puts the lowest `size` bytes of the value into the memory, the lowest first, and answers true, where one writable
/// area has all their places.
#[inline]
pub(crate) fn put_number(areas: &mut [MemoryArea], address: u64, size: u8, value: u64) -> bool
    requires { IsSize size }
    ensures put { with_bytes areas.old address (bytes_of size value) ≡ (if result then Some areas.new else None) }
    ensures kept { result ≡ false → areas.new ≡ areas.old }
{
    let bytes = value.to_le_bytes();
    match size {
        1 => put_bytes(areas, address, &bytes[..1]),
        2 => put_bytes(areas, address, &bytes[..2]),
        4 => put_bytes(areas, address, &bytes[..4]),
        _ => put_bytes(areas, address, &bytes),
    }
}

/// Whether an address is a multiple of a size.
#[inline]
pub(crate) fn is_aligned(address: u64, size: u8) -> bool
    requires { IsSize size }
    ensures { result ≡ is_aligned address size }
{
    match size {
        1 => true,
        2 => address % 2 == 0,
        4 => address % 4 == 0,
        _ => address % 8 == 0,
    }
}

/// The number of four bytes.
#[inline]
pub(crate) fn word(bytes: &[u8]) -> u32
    requires { length bytes.now ≡ 4 }
    ensures { result ≡ number_of 4 bytes.now }
{
    u32::from_le_bytes([bytes[0], bytes[1], bytes[2], bytes[3]])
}

/// What a load makes of its bytes: their number, extended to 64 bits by its sign or by zeros.
#[inline]
pub(crate) fn loaded_value(bytes: &[u8], signed: bool) -> u64
    requires { IsSize (length bytes.now) }
    ensures { result ≡ loaded_value (length bytes.now) signed bytes.now }
{
    match *bytes {
        [a] => extended::<8>(u64::from(a), signed),
        [a, b] => extended::<16>(u64::from(u16::from_le_bytes([a, b])), signed),
        [a, b, c, d] => extended::<32>(u64::from(u32::from_le_bytes([a, b, c, d])), signed),
        [a, b, c, d, e, f, g, h] => {
            extended::<64>(u64::from_le_bytes([a, b, c, d, e, f, g, h]), signed)
        }
        _ => unreachable!(),
    }
}

#[inline]
fn extended<const N: u32>(value: u64, signed: bool) -> u64
    requires least { 1 ≤ N }
    requires most { N ≤ 64 }
    requires fits { value < 2 ^ N }
    ensures { result ≡ (if signed then extend N value else value) }
{
    if signed {
        sign::<N>(value).cast_unsigned()
    } else {
        value
    }
}
