// Fields of bytes, little-endian: unsigned numbers of one, two and four bytes, and amounts, which are signed, of four; and stores of
// bytes and of zeros.
#![tactic(auto)]

ghost use Rattle.std.specs.Prelude.{◌≡◌, ◌+◌, ◌*◌, ◌-◌, ◌≤◌, ◌<◌, ◌^◌, nat_abs, length, replicate};
ghost use Rattle.rules.specs.Bytes.{to_bytes, from_unsigned, to_unsigned, field_at};
ghost use Rattle.fields.specs.Field.{stored};

use machine::sign::size;

// The number whose bytes these are, the lowest first.
fn joined(b0: u8, b1: u8, b2: u8, b3: u8) -> u64
    ensures { result ≡ b0 + 256 * b1 + 65536 * b2 + 16777216 * b3 }
{
    b0 as u64 + 256 * (b1 as u64) + 65536 * (b2 as u64) + 16777216 * (b3 as u64)
}

pub fn u8_at(s: &[u8], at: usize) -> u8
    requires { at + 1 ≤ length s.now }
    ensures { result ≡ field_at at 1 s.now }
{
    s[at]
}

pub fn u16_at(s: &[u8], at: usize) -> u64
    requires { at + 2 ≤ length s.now }
    ensures { result ≡ field_at at 2 s.now }
{
    joined(s[at], s[at + 1], 0, 0)
}

pub fn u32_at(s: &[u8], at: usize) -> u64
    requires { at + 4 ≤ length s.now }
    ensures { result ≡ field_at at 4 s.now }
{
    joined(s[at], s[at + 1], s[at + 2], s[at + 3])
}

// The amount that 32 bits stand for.
fn signed(n: u64) -> i64
    requires { n < 2 ^ 32 }
    ensures { result ≡ from_unsigned n }
{
    if n < 2147483648 {
        return n as i64;
    }
    n as i64 - 4294967296
}

pub fn amount_at(s: &[u8], at: usize) -> i64
    requires { at + 4 ≤ length s.now }
    ensures { result ≡ from_unsigned (field_at at 4 s.now) }
{
    signed(u32_at(s, at))
}

fn byte(n: u64) -> u8
    requires { n < 256 }
    ensures { result ≡ n }
{
    n as u8
}

// The lowest two bytes of n.
pub fn put_u16(s: &mut [u8], at: usize, n: u64)
    requires { at + 2 ≤ length s.old }
    ensures { s.new ≡ stored at (to_bytes 2 n) s.old }
{
    s[at] = byte(n % 256);
    s[at + 1] = byte(n / 256 % 256);
}

// The lowest four bytes of n.
pub fn put_u32(s: &mut [u8], at: usize, n: u64)
    requires { at + 4 ≤ length s.old }
    ensures { s.new ≡ stored at (to_bytes 4 n) s.old }
{
    s[at] = byte(n % 256);
    s[at + 1] = byte(n / 256 % 256);
    s[at + 2] = byte(n / 65536 % 256);
    s[at + 3] = byte(n / 16777216 % 256);
}

// The 32 bits of an amount.
fn unsigned(z: i64) -> u64
    requires { nat_abs z < 2 ^ 31 }
    ensures { result ≡ to_unsigned z }
{
    let n = size(z);
    if z < 0 {
        return 4294967296 - n;
    }
    n
}

pub fn put_amount(s: &mut [u8], at: usize, z: i64)
    requires at_in_bounds { at + 4 ≤ length s.old }
    requires z_bound { nat_abs z < 2 ^ 31 }
    ensures { s.new ≡ stored at (to_bytes 4 (to_unsigned z)) s.old }
{
    put_u32(s, at, unsigned(z));
}

// Other bytes over those from a place on.
pub fn put_bytes(s: &mut [u8], at: usize, bytes: &[u8])
    requires { at + length bytes.now ≤ length s.old }
    ensures { s.new ≡ stored at bytes.now s.old }
{
    let mut j: usize = 0;
    while j < bytes.len() {
        s[at + j] = bytes[j];
        j += 1;
    }
}

// Zeros over the bytes from one place up to another.
pub fn put_zeros(s: &mut [u8], from: usize, to: usize)
    requires from_le_to { from ≤ to }
    requires to_in_bounds { to ≤ length s.old }
    ensures { s.new ≡ stored from (replicate (to - from) 0) s.old }
{
    let mut j = from;
    while j < to {
        s[j] = 0;
        j += 1;
    }
}
