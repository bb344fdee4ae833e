//! The operations on two registers, and the conditions of branches. An operand is a 64-bit word,
//! taken in two's complement where the operation is signed; a word form takes its low 32 bits.
ghost use Rattle.std.specs.Prelude.{◌≡◌, ◌<◌, ◌≤◌, ◌-◌, ◌^◌, ℤ, pos, ◌*ℤ◌, unsigned_abs, not, nat_lt, int_lt, ◌==◌};
ghost use Rattle.std.specs.Int.{int_shr};
ghost use Rattle.sx_bits.specs.Fields.{signed};
ghost use Rattle.sx_rv_isa.specs.Effects.{extend, register_value, bits64, word, bit};
ghost use Rattle.sx_rv_isa.specs.declared.instructions.RegisterOp.TheVariants.{Add, Sub, Sll, Slt, Sltu, Xor, Srl, Sra, Or, And, Mul, Mulh, Mulhsu, Mulhu, Div, Divu, Rem, Remu, Addw, Subw, Sllw, Srlw, Sraw, Mulw, Divw, Divuw, Remw, Remuw};

use sx_bits::sign;

#[inline]
fn low_word(value: u64) -> u32
    ensures { result ≡ word value }
{
    (value % 0x1_0000_0000) as u32
}

#[inline]
fn signed_word(value: u64) -> i32
    ensures { result ≡ signed 32 (word value) }
{
    low_word(value).cast_signed()
}

#[inline]
fn wide_signed(value: u64) -> i128
    ensures value { result ≡ signed 64 value }
    ensures size { unsigned_abs result ≤ 2 ^ 63 }
{
    value.cast_signed() as i128
}

#[inline]
fn wide(value: u64) -> i128
    ensures value { result ≡ pos value }
    ensures size { unsigned_abs result < 2 ^ 64 }
{
    value as i128
}

#[inline]
fn product(x: i128, y: i128) -> i128
    requires x { unsigned_abs x ≤ 2 ^ 63 }
    requires y { unsigned_abs y < 2 ^ 64 }
    ensures { result ≡ x *ℤ y }
{
    x * y
}

#[inline]
fn high_half(x: i128) -> u64
    ensures { result ≡ bits64 (int_shr x 64) }
{
    ((x >> 64) as i64).cast_unsigned()
}

#[inline]
#[tactic(auto, unfolding(crate::specs::Effects::extend))]
pub fn extend_word(value: u32) -> u64
    ensures { result ≡ extend 32 value }
{
    sign::<32>(value as u64).cast_unsigned()
}

#[inline]
#[tactic(auto, unfolding(crate::specs::Effects::register_value))]
pub fn add(a: u64, b: u64) -> u64
    ensures { result ≡ register_value Add a b }
{
    a.wrapping_add(b)
}

#[inline]
#[tactic(auto, unfolding(crate::specs::Effects::register_value))]
pub fn sub(a: u64, b: u64) -> u64
    ensures { result ≡ register_value Sub a b }
{
    a.wrapping_sub(b)
}

#[inline]
#[tactic(auto, unfolding(crate::specs::Effects::register_value))]
pub fn sll(a: u64, b: u64) -> u64
    ensures { result ≡ register_value Sll a b }
{
    a << (b % 64)
}

#[inline]
#[tactic(auto, unfolding(crate::specs::Effects::register_value))]
pub fn slt(a: u64, b: u64) -> u64
    ensures { result ≡ register_value Slt a b }
{
    u64::from(a.cast_signed() < b.cast_signed())
}

#[inline]
#[tactic(auto, unfolding(crate::specs::Effects::register_value))]
pub fn sltu(a: u64, b: u64) -> u64
    ensures { result ≡ register_value Sltu a b }
{
    u64::from(a < b)
}

#[inline]
#[tactic(auto, unfolding(crate::specs::Effects::register_value))]
pub fn xor(a: u64, b: u64) -> u64
    ensures { result ≡ register_value Xor a b }
{
    a ^ b
}

#[inline]
#[tactic(auto, unfolding(crate::specs::Effects::register_value))]
pub fn srl(a: u64, b: u64) -> u64
    ensures { result ≡ register_value Srl a b }
{
    a >> (b % 64)
}

#[inline]
#[tactic(auto, unfolding(crate::specs::Effects::register_value))]
pub fn sra(a: u64, b: u64) -> u64
    ensures { result ≡ register_value Sra a b }
{
    (a.cast_signed() >> (b % 64)).cast_unsigned()
}

#[inline]
#[tactic(auto, unfolding(crate::specs::Effects::register_value))]
pub fn or(a: u64, b: u64) -> u64
    ensures { result ≡ register_value Or a b }
{
    a | b
}

#[inline]
#[tactic(auto, unfolding(crate::specs::Effects::register_value))]
pub fn and(a: u64, b: u64) -> u64
    ensures { result ≡ register_value And a b }
{
    a & b
}

#[inline]
#[tactic(auto, unfolding(crate::specs::Effects::register_value))]
pub fn mul(a: u64, b: u64) -> u64
    ensures { result ≡ register_value Mul a b }
{
    a.wrapping_mul(b)
}

#[inline]
#[tactic(auto, unfolding(crate::specs::Effects::register_value))]
pub fn mulh(a: u64, b: u64) -> u64
    ensures { result ≡ register_value Mulh a b }
{
    high_half(product(wide_signed(a), wide_signed(b)))
}

#[inline]
#[tactic(auto, unfolding(crate::specs::Effects::register_value))]
pub fn mulhsu(a: u64, b: u64) -> u64
    ensures { result ≡ register_value Mulhsu a b }
{
    high_half(product(wide_signed(a), wide(b)))
}

#[inline]
#[tactic(auto, unfolding(crate::specs::Effects::register_value))]
pub fn mulhu(a: u64, b: u64) -> u64
    ensures { result ≡ register_value Mulhu a b }
{
    ((a as u128 * b as u128) >> 64) as u64
}

#[inline]
#[tactic(auto, unfolding(crate::specs::Effects::register_value))]
pub fn div(a: u64, b: u64) -> u64
    ensures { result ≡ register_value Div a b }
{
    if b == 0 {
        u64::MAX
    } else {
        let quotient = a.cast_signed().wrapping_div(b.cast_signed());
        quotient.cast_unsigned()
    }
}

#[inline]
#[tactic(auto, unfolding(crate::specs::Effects::register_value))]
pub fn divu(a: u64, b: u64) -> u64
    ensures { result ≡ register_value Divu a b }
{
    if b == 0 { u64::MAX } else { a / b }
}

#[inline]
#[tactic(auto, unfolding(crate::specs::Effects::register_value))]
pub fn rem(a: u64, b: u64) -> u64
    ensures { result ≡ register_value Rem a b }
{
    if b == 0 {
        a
    } else {
        let remainder = a.cast_signed().wrapping_rem(b.cast_signed());
        remainder.cast_unsigned()
    }
}

#[inline]
#[tactic(auto, unfolding(crate::specs::Effects::register_value))]
pub fn remu(a: u64, b: u64) -> u64
    ensures { result ≡ register_value Remu a b }
{
    if b == 0 { a } else { a % b }
}

#[inline]
#[tactic(auto, unfolding(crate::specs::Effects::register_value))]
pub fn addw(a: u64, b: u64) -> u64
    ensures { result ≡ register_value Addw a b }
{
    extend_word(low_word(a).wrapping_add(low_word(b)))
}

#[inline]
#[tactic(auto, unfolding(crate::specs::Effects::register_value))]
pub fn subw(a: u64, b: u64) -> u64
    ensures { result ≡ register_value Subw a b }
{
    extend_word(low_word(a).wrapping_sub(low_word(b)))
}

#[inline]
#[tactic(auto, unfolding(crate::specs::Effects::register_value))]
pub fn sllw(a: u64, b: u64) -> u64
    ensures { result ≡ register_value Sllw a b }
{
    extend_word(low_word(a) << (b % 32))
}

#[inline]
#[tactic(auto, unfolding(crate::specs::Effects::register_value))]
pub fn srlw(a: u64, b: u64) -> u64
    ensures { result ≡ register_value Srlw a b }
{
    extend_word(low_word(a) >> (b % 32))
}

#[inline]
#[tactic(auto, unfolding(crate::specs::Effects::register_value))]
pub fn sraw(a: u64, b: u64) -> u64
    ensures { result ≡ register_value Sraw a b }
{
    ((signed_word(a) >> (b % 32)) as i64).cast_unsigned()
}

#[inline]
#[tactic(auto, unfolding(crate::specs::Effects::register_value))]
pub fn mulw(a: u64, b: u64) -> u64
    ensures { result ≡ register_value Mulw a b }
{
    extend_word(low_word(a).wrapping_mul(low_word(b)))
}

#[inline]
#[tactic(auto, unfolding(crate::specs::Effects::register_value))]
pub fn divw(a: u64, b: u64) -> u64
    ensures { result ≡ register_value Divw a b }
{
    if low_word(b) == 0 {
        u64::MAX
    } else {
        extend_word(signed_word(a).wrapping_div(signed_word(b)).cast_unsigned())
    }
}

#[inline]
#[tactic(auto, unfolding(crate::specs::Effects::register_value))]
pub fn divuw(a: u64, b: u64) -> u64
    ensures { result ≡ register_value Divuw a b }
{
    if low_word(b) == 0 {
        u64::MAX
    } else {
        extend_word(low_word(a) / low_word(b))
    }
}

#[inline]
#[tactic(auto, unfolding(crate::specs::Effects::register_value))]
pub fn remw(a: u64, b: u64) -> u64
    ensures { result ≡ register_value Remw a b }
{
    if low_word(b) == 0 {
        extend_word(low_word(a))
    } else {
        extend_word(signed_word(a).wrapping_rem(signed_word(b)).cast_unsigned())
    }
}

#[inline]
#[tactic(auto, unfolding(crate::specs::Effects::register_value))]
pub fn remuw(a: u64, b: u64) -> u64
    ensures { result ≡ register_value Remuw a b }
{
    if low_word(b) == 0 {
        extend_word(low_word(a))
    } else {
        extend_word(low_word(a) % low_word(b))
    }
}

#[inline]
pub fn equal(a: u64, b: u64) -> bool
    ensures { result ≡ a == b }
{
    a == b
}

#[inline]
pub fn not_equal(a: u64, b: u64) -> bool
    ensures { result ≡ not (a == b) }
{
    a != b
}

#[inline]
pub fn less(a: u64, b: u64) -> bool
    ensures { result ≡ int_lt (signed 64 a) (signed 64 b) }
{
    a.cast_signed() < b.cast_signed()
}

#[inline]
pub fn not_less(a: u64, b: u64) -> bool
    ensures { result ≡ not (int_lt (signed 64 a) (signed 64 b)) }
{
    a.cast_signed() >= b.cast_signed()
}

#[inline]
pub fn below(a: u64, b: u64) -> bool
    ensures { result ≡ nat_lt a b }
{
    a < b
}

#[inline]
pub fn not_below(a: u64, b: u64) -> bool
    ensures { result ≡ not (nat_lt a b) }
{
    a >= b
}

#[inline]
pub fn upper(_pc: u64, imm: u64) -> u64
    ensures { result ≡ imm }
{
    imm
}
