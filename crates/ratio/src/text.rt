// The text of a number.

ghost use Rattle.std.specs.Prelude.{◌≡◌, ◌+◌, ◌≤◌, ◌++◌, ◌∷◌, length, Bool, true, OnSome, is_ok, if◌then◌else◌};
ghost use Rattle.std.specs.Str.Parse.{IsNumeral};
ghost use Rattle.algebra.specs.Fraction.{Fraction};
ghost use Rattle.algebra.specs.Steps.{fits};
ghost use Rattle.ratio.specs.NumberText.{IsReadAs, Decimal, IsDecimal, IsMagnitude, IsNumber, Magnitude, decimal_value, magnitude_value, number_value, quotient_value};
ghost use Rattle.ratio.specs.Value.{fraction_of, valued};
ghost use Rattle.ratio.specs.WrittenText.{text_of};

use crate::decimal;
use crate::digits::{appended, split_digits, strip_byte};
use crate::reduced::Ratio;
use itoa::Buffer;
use std::alloc::AllocError;

// Appends both texts with a slash between them, or nothing.
fn append_quotient(out: &mut Vec<u8>, top: &[u8], bottom: &[u8]) -> Result<(), AllocError>
    requires top_len { length top.now ≤ 40 }
    requires bottom_len { length bottom.now ≤ 40 }
    ensures { out.new.items ≡ (if is_ok result then out.old.items ++ (top.now ++ 47 ∷ bottom.now) else out.old.items) }
{
    out.reserve(top.len() + 1 + bottom.len())?;
    out.extend_from_slice(top)?;
    out.push(b'/')?;
    out.extend_from_slice(bottom)?;
    Ok(())
}

// Digits, a slash and digits: both at most 2^127 - 1, the second above 0.
fn read_quotient(above: &[u8], below: &[u8]) -> Option<Ratio>
    ensures value { IsNumeral 10 above.now → IsNumeral 10 below.now → valued result ≡ quotient_value above.now below.now }
    ensures lawful { OnSome result (IsNumeral 10 above.now × IsNumeral 10 below.now) }
{
    if above.is_empty() || below.is_empty() {
        return None;
    }
    let top = appended(0, above)?;
    let bottom = appended(0, below)?;
    Ratio::new(top as i128, bottom as i128)
}

// A number without its sign.
fn read_magnitude(text: &[u8]) -> Option<Ratio>
    ensures value { (m : Magnitude) → IsMagnitude text.now m → valued result ≡ magnitude_value m }
    ensures lawful { OnSome result ((m : Magnitude) × IsMagnitude text.now m) }
{
    let (above, rest) = split_digits(text);
    match strip_byte(rest, b'/') {
        Some(below) => read_quotient(above, below),
        None => decimal::read_decimal(text),
    }
}

impl Ratio {
    /// Appends the number's text: the numerator, and behind a slash the denominator where it is not 1. On failure `out` is unchanged.
    pub fn write(self, out: &mut Vec<u8>) -> Result<(), AllocError>
        ensures { out.new.items ≡ (if is_ok result then out.old.items ++ text_of (fraction_of self) else out.old.items) }
    {
        let mut top = Buffer::new();
        let mut bottom = Buffer::new();
        let num = self.num();
        let den = self.den();
        if den == 1 {
            out.extend_from_slice(top.format(num).as_bytes())
        } else {
            append_quotient(
                out,
                top.format(num).as_bytes(),
                bottom.format(den).as_bytes(),
            )
        }
    }

    /// The number that the whole text is, or `None` exactly where it is no number or does not fit.
    ///
    /// A number is `-` or nothing, then either digits, `/` and digits, or a decimal as `read_decimal` takes it.
    pub fn read(text: &[u8]) -> Option<Ratio>
        ensures value { (below_zero : Bool) (m : Magnitude) → IsNumber text.now below_zero m → valued result ≡ number_value below_zero m }
        ensures lawful { OnSome result ((below_zero : Bool) × ((m : Magnitude) × IsNumber text.now below_zero m)) }
    {
        match strip_byte(text, b'-') {
            Some(size) => Some(read_magnitude(size)?.neg()),
            None => read_magnitude(text),
        }
    }

    /// The decimal that the whole text is, or `None` exactly where it is none or does not fit.
    ///
    /// A decimal is digits, or digits with one point before, between or behind them, then perhaps `e` or `E`, a sign or none, and one to
    /// three digits. It has no sign and no slash.
    pub fn read_decimal(text: &[u8]) -> Option<Ratio>
        ensures value { (d : Decimal) → IsDecimal text.now d → valued result ≡ decimal_value d }
        ensures lawful { OnSome result ((d : Decimal) × IsDecimal text.now d) }
    {
        decimal::read_decimal(text)
    }
}

/// The law between `write` and `read`: what `write` appends for a value is a number that stands for it, so `read` gives that value.
pub fn written_is_read()
    ensures { (x : Fraction) → fits x ≡ true → IsReadAs (text_of x) x }
{}

#[cfg(test)]
mod tests {
    use super::*;

    const MOST: i128 = 170_141_183_460_469_231_731_687_303_715_884_105_727;

    #[test]
    fn reads_each_spelling(rt: HostRuntime) {
        let lawful: [(&[u8], i128, i128); 16] = [
            (b"0", 0, 1),
            (b"-0.0e-7", 0, 1),
            (b"12", 12, 1),
            (b"007", 7, 1),
            (b"1.", 1, 1),
            (b".5", 1, 2),
            (b"-2.50", -5, 2),
            (b"1e3", 1000, 1),
            (b"1E+03", 1000, 1),
            (b"125e-003", 1, 8),
            (b"2/4", 1, 2),
            (b"-6/4", -3, 2),
            (b"0/170141183460469231731687303715884105727", 0, 1),
            (b"170141183460469231731687303715884105727", MOST, 1),
            (
                b"170141183460469231731687303715884105727/170141183460469231731687303715884105727",
                1,
                1,
            ),
            (
                b"0.00000000000000000000000000000000000000000000000000000000000000001e65",
                1,
                1,
            ),
        ];
        for (text, num, den) in lawful {
            let read = Ratio::read(text);
            assert!(rt; read == Ratio::new(num, den));
            assert!(rt; read.is_some());
        }
    }

    #[test]
    fn refuses_what_is_no_number_or_does_not_fit(rt: HostRuntime) {
        let unlawful: [&[u8]; 16] = [
            b"",
            b"-",
            b".",
            b"+1",
            b"1e",
            b"1e1234",
            b"1 ",
            b"1/",
            b"/1",
            b"1/-2",
            b"1/0",
            b"1.5/2",
            b"--1",
            b"170141183460469231731687303715884105728",
            b"340282366920938463463374607431768211456/340282366920938463463374607431768211456",
            b"1e39",
        ];
        for text in unlawful {
            assert!(rt; Ratio::read(text).is_none());
        }
    }

    // Zeros without limit: 1 with 600 zeros behind it and e-600, and 600 zeros behind the point.
    #[test]
    fn reads_zeros_without_limit(rt: HostRuntime) {
        let zeros = [b'0'; 600];
        let mut text = Vec::new(rt.alloc());
        text.extend_from_slice(b"1").expect(&rt, "room");
        text.extend_from_slice(&zeros).expect(&rt, "room");
        assert!(rt; Ratio::read(&text).is_none());
        text.extend_from_slice(b"e-600").expect(&rt, "room");
        assert!(rt; Ratio::read(&text) == Some(Ratio::one()));
        text.clear();
        text.extend_from_slice(b"-0.").expect(&rt, "room");
        text.extend_from_slice(&zeros).expect(&rt, "room");
        text.extend_from_slice(b"3E+601").expect(&rt, "room");
        assert!(rt; Ratio::read(&text) == Ratio::new(-3, 1));
    }

    #[test]
    fn writes_what_it_reads(rt: HostRuntime) {
        let texts: [&[u8]; 4] = [
            b"0",
            b"-170141183460469231731687303715884105727",
            b"-7/3",
            b"1/170141183460469231731687303715884105727",
        ];
        for text in texts {
            let mut out = Vec::new(rt.alloc());
            let number = Ratio::read(text).expect(&rt, "a number");
            number.write(&mut out).expect(&rt, "room");
            assert!(rt; out.as_slice() == text);
        }
    }
}
