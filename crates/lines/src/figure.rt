// Figures: what one field can say, and how it is spelled there.
ghost use Rattle.std.specs.Prelude.{◌≡◌, ℕ, ◌+◌, ◌≤◌, List, length, IfSome, if◌then◌else◌, Some, None, Option, decimal};
ghost use Rattle.std.specs.Str.{all_ascii_digits};
ghost use Rattle.std.specs.Fmt.{signed_decimal};
ghost use Rattle.lines.specs.Said.{most_digits, Short, ShortSigned};
ghost use Rattle.lines.specs.Numbers.{number, value_after, negative, signed};
ghost use Rattle.lines.specs.Written.{Wrote};

use crate::writer::Pen;

// What can be read from a field and written into one.
pub(crate) trait Figure: Copy {
    // What a field's bytes say, what can stand in a field, and how it is spelled there.
    ghost reads: { List ℕ → Option Self };

    ghost fits: { Self → Type 0 };

    ghost spelled: { Self → List ℕ };

    fn read(field: &[u8]) -> Option<Self>
        ensures { result ≡ reads field.now };

    fn put(self, pen: &mut Pen<'_>)
        requires fit { fits self }
        requires room { pen.old.at + length (spelled self) ≤ length pen.old.out.now }
        ensures same_bytes { pen.new.out.ghost_name ≡ pen.old.out.ghost_name }
        ensures wrote { Wrote pen.old.out.now pen.old.at (spelled self) pen.new.out.now pen.new.at };
}

// Numbers, prices and base amounts.
impl Figure for u64 {
    ghost reads = { number };

    ghost fits = { Short };

    ghost spelled = { decimal };

    fn read(field: &[u8]) -> Option<u64> {
        read_number(field)
    }

    fn put(self, pen: &mut Pen<'_>) {
        pen.decimal(self);
    }
}

// Points.
impl Figure for i64 {
    ghost reads = { signed };

    ghost fits = { ShortSigned };

    ghost spelled = { signed_decimal };

    fn read(field: &[u8]) -> Option<i64> {
        read_signed(field)
    }

    fn put(self, pen: &mut Pen<'_>) {
        pen.signed(self);
    }
}

// A number has no more digits than this.
const MOST_DIGITS: usize = 10;

// A number: 1 to 10 decimal digits, with no leading zero but for 0 itself.
fn read_number(field: &[u8]) -> Option<u64>
    ensures value { result ≡ number field.now }
    ensures short { IfSome result Short }
{
    match field {
        [] | [b'0', _, ..] => None,
        _ if field.len() > MOST_DIGITS => None,
        digits => read_digits(digits),
    }
}

// The number that decimal digits write; none where a byte is no digit.
// No `try_fold`: its closure would not know how large the value is.
fn read_digits(digits: &[u8]) -> Option<u64>
    requires { length digits.now ≤ most_digits }
    ensures { result ≡ (if all_ascii_digits digits.now then Some (value_after 0 digits.now) else None) }
{
    let mut value = 0;
    for digit in digits {
        if !digit.is_ascii_digit() {
            return None;
        }
        value = value * 10 + u64::from(*digit - b'0');
    }
    Some(value)
}

// A number that may bear a minus, and is never -0. `as`: a number of 10 digits fits, and std has no
// `From` between the two types.
fn read_signed(field: &[u8]) -> Option<i64>
    ensures { result ≡ signed field.now }
{
    match field.strip_prefix(b"-") {
        Some(digits) => read_negative(digits),
        None => read_number(field).map(|number| number as i64),
    }
}

// The number below zero that digits write after a minus. `as`: as above.
fn read_negative(digits: &[u8]) -> Option<i64>
    ensures { result ≡ negative (number digits.now) }
{
    match read_number(digits)? {
        0 => None,
        number => Some(-(number as i64)),
    }
}
