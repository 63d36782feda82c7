// The greatest common divisor by shifts and differences (J. Stein 1967; Knuth, The Art of Computer Programming, volume 2, section 4.5.2,
// algorithm B). Divisions of 128-bit numbers are slow, so there is at most one, and numbers that fit a word stay in words.

ghost use Rattle.std.specs.Prelude.{◌≡◌, ℕ, ◌<◌, ◌≤◌, ◌%◌, ◌*◌, ◌/◌, ◌^◌};
ghost use Rattle.algebra.specs.Gcd.{gcd};

// The number without its factors 2.
fn odd_part(n: u64) -> u64
    requires { 0 < n }
    ensures odd { result % 2 ≡ 1 }
    ensures less { result ≤ n }
    ensures same { (o : ℕ) → o % 2 ≡ 1 → gcd o result ≡ gcd o n }
{
    n >> n.trailing_zeros()
}

// The greatest common divisor of an odd word and another.
fn odd_divisor(a: u64, b: u64) -> u64
    requires { a % 2 ≡ 1 }
    ensures { result ≡ gcd a b }
{
    let mut x = a;
    let mut y = b;
    while y != 0 {
        let z = odd_part(y);
        if z < x {
            y = x - z;
            x = z;
        } else {
            y = z - x;
        }
    }
    x
}

// The wider number without its factors 2.
fn wide_odd_part(n: u128) -> u128
    requires { 0 < n }
    ensures odd { result % 2 ≡ 1 }
    ensures less { result ≤ n }
    ensures same { (o : ℕ) → o % 2 ≡ 1 → gcd o result ≡ gcd o n }
{
    n >> n.trailing_zeros()
}

// The largest number of one word.
const WORD: u128 = 0xffff_ffff_ffff_ffff;

// The greatest common divisor of an odd number and another, in words as soon as both fit.
fn wide_odd_divisor(a: u128, b: u128) -> u128
    requires { a % 2 ≡ 1 }
    ensures { result ≡ gcd a b }
{
    let mut x = a;
    let mut y = b;
    while y != 0 {
        if x <= WORD && y <= WORD {
            return odd_divisor(x as u64, y as u64) as u128;
        }
        let z = wide_odd_part(y);
        if z < x {
            y = x - z;
            x = z;
        } else {
            y = z - x;
        }
    }
    x
}

// The greatest common divisor where i is the place of a's lowest bit and b has none below it.
fn shifted_divisor(a: u128, b: u128, i: u32) -> u128
    requires small { i < 128 }
    requires some { 0 < a }
    requires odd { a / 2 ^ i % 2 ≡ 1 }
    requires first { 2 ^ i * (a / 2 ^ i) ≡ a }
    requires second { 2 ^ i * (b / 2 ^ i) ≡ b }
    ensures { result ≡ gcd a b }
{
    wide_odd_divisor(a >> i, b >> i) << i
}

// The greatest common divisor without any division.
fn binary_divisor(a: u128, b: u128) -> u128
    ensures { result ≡ gcd a b }
{
    if a == 0 {
        return b;
    }
    if b == 0 {
        return a;
    }
    let i = a.trailing_zeros();
    let j = b.trailing_zeros();
    if i <= j {
        shifted_divisor(a, b, i)
    } else {
        shifted_divisor(b, a, j)
    }
}

/// The greatest common divisor; that of 0 and n is n.
pub fn greatest_common_divisor(a: u128, b: u128) -> u128
    ensures { result ≡ gcd a b }
{
    if a == 1 {
        return 1;
    }
    if b == 1 {
        return 1;
    }
    if b != 0 && b <= WORD && a > WORD {
        return binary_divisor(b, a % b);
    }
    if a != 0 && a <= WORD && b > WORD {
        return binary_divisor(a, b % a);
    }
    binary_divisor(a, b)
}
