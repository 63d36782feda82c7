// Steps on the parts of a fraction: whole numbers with a sign and a size below 2^127.

ghost use Rattle.std.specs.Prelude.{◌≡◌, ℤ, pos, ◌*◌, ◌/◌, ◌<◌, ◌^◌, ◌*ℤ◌, ◌+ℤ◌, neg_ℤ, unsigned_abs};
ghost use Rattle.std.specs.Option.{SomeIff};
ghost use Rattle.algebra.specs.Sign.{signs_differ, is_negative};

// The largest number of one word.
const WORD: u128 = 0xffff_ffff_ffff_ffff;

/// The first size that is no part of a fraction: 2^127.
pub const LIMIT: u128 = 0x8000_0000_0000_0000_0000_0000_0000_0000;

// The quotient, by the shortest division that serves.
fn quotient(a: u128, g: u128) -> u128
    requires { 0 < g }
    ensures { result ≡ a / g }
{
    if g == 1 {
        a
    } else if a <= WORD && g <= WORD {
        (a as u64 / g as u64) as u128
    } else {
        a / g
    }
}

/// The product of two quotients, where it is below 2^128.
pub fn quotient_product(a: u128, g: u128, c: u128, h: u128) -> Option<u128>
    requires left { 0 < g }
    requires right { 0 < h }
    ensures { SomeIff result (a / g * (c / h) < 2 ^ 128) (a / g * (c / h)) }
{
    quotient(a, g).checked_mul(quotient(c, h))
}

/// Whether exactly one of the two is below 0.
pub fn differ(n: i128, m: i128) -> bool
    ensures { result ≡ signs_differ n m }
{
    if n < 0 { m >= 0 } else { m < 0 }
}

/// Whether the number is below 0.
pub fn negative(t: i128) -> bool
    ensures { result ≡ is_negative t }
{
    t < 0
}

// The product, where its size is below 2^127.
fn scaled(n: i128, k: u128) -> Option<i128>
    requires { unsigned_abs n < 2 ^ 127 }
    ensures { SomeIff result (unsigned_abs (n *ℤ pos k) < 2 ^ 127) (n *ℤ pos k) }
{
    let size = n.unsigned_abs().checked_mul(k)?;
    if size >= LIMIT {
        return None;
    }
    let whole = size as i128;
    Some(if n < 0 { -whole } else { whole })
}

/// The product with a quotient, where its size is below 2^127.
pub fn scaled_quotient(n: i128, k: u128, g: u128) -> Option<i128>
    requires size { unsigned_abs n < 2 ^ 127 }
    requires some { 0 < g }
    ensures { SomeIff result (unsigned_abs (n *ℤ pos (k / g)) < 2 ^ 127) (n *ℤ pos (k / g)) }
{
    scaled(n, quotient(k, g))
}

/// The sum, where its size is below 2^127.
pub fn total(p: i128, q: i128) -> Option<i128>
    ensures { SomeIff result (unsigned_abs (p +ℤ q) < 2 ^ 127) (p +ℤ q) }
{
    let sum = p.checked_add(q)?;
    if sum == i128::MIN { None } else { Some(sum) }
}

/// The negative, whose size is the same.
pub fn negated(n: i128) -> i128
    requires { unsigned_abs n < 2 ^ 127 }
    ensures value { result ≡ neg_ℤ n }
    ensures size { unsigned_abs result ≡ unsigned_abs n }
{
    -n
}
