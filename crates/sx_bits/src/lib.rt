//! Bit fields of a 32-bit word, and numbers in two's complement.
#![tactic(auto)]

ghost use Rattle.std.specs.Prelude.{◌≡◌, ◌+◌, ◌-◌, ◌≤◌, ◌<◌, ◌^◌};
ghost use Rattle.sx_bits.specs.Fields.{bits_at, signed};

/// Bits `LO` to `HI` of a word, both included, as a number; bit 0 is the lowest.
#[inline]
pub fn field<const HI: u32, const LO: u32>(word: u32) -> u32
    requires order { LO ≤ HI }
    requires top { HI ≤ 31 }
    ensures value { result ≡ bits_at HI LO word }
    ensures bound { result < 2 ^ (HI - LO + 1) }
{
    (word >> LO) & (u32::MAX >> (31 - (HI - LO)))
}

/// The number that `N` bits stand for in two's complement.
#[inline]
pub fn sign<const N: u32>(value: u64) -> i64
    requires least { 1 ≤ N }
    requires most { N ≤ 64 }
    requires fits { value < 2 ^ N }
    ensures { result ≡ signed N value }
{
    if value >> (N - 1) == 0 {
        value as i64
    } else {
        !(((u64::MAX >> (64 - N)) - value) as i64)
    }
}
