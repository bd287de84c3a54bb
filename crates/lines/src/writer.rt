// The writer of event lines.
ghost use Rattle.std.specs.Prelude.{◌≡◌, ℕ, ◌+◌, ◌<◌, ◌≤◌, true, [], ◌∷◌, ◌++◌, length, take, drop, Ok, decimal};
ghost use Rattle.std.specs.Fmt.{signed_decimal};
ghost use Rattle.std.specs.List.{AllByRecursion};
ghost use Rattle.lines.specs.Fields.{listed};
ghost use Rattle.lines.specs.Said.{ShortSigned};
ghost use Rattle.lines.specs.Lines.{said, text, may_stand, parsed, methods_text};
ghost use Rattle.lines.specs.Written.{Wrote};

use crate::counts::Counts;
use crate::event::Event;
use crate::figure::Figure;

// Bytes that are written, and where the next byte goes.
#[derive(Drop)]
pub(crate) struct Pen<'a> {
    out: &'a mut [u8],
    at: usize,
}

// The decimal digits of a number, from a place on; tells where they end. The place is handed on from digit to digit, which takes
// less time than a pen's, which lies in memory. `as`: a digit fits a byte.
fn put_decimal(out: &mut [u8], at: usize, number: u64) -> usize
    requires room { at + length (decimal number) ≤ length out.old }
    ensures { Wrote out.old at (decimal number) out.new result }
{
    let last = b'0' + (number % 10) as u8;
    if number < 10 {
        out[at] = last;
        return at + 1;
    }
    let end = put_decimal(out, at, number / 10);
    out[end] = last;
    end + 1
}

impl Pen<'_> {
    // One byte. This and the writers below leave every other byte as it was. Each asks for room for its own text, and no two
    // texts are as long: a type would say it no shorter.
    fn byte(&mut self, byte: u8)
        requires room { self.old.at < length self.old.out.now }
        ensures same_bytes { self.new.out.ghost_name ≡ self.old.out.ghost_name }
        ensures wrote { Wrote self.old.out.now self.old.at (byte ∷ []) self.new.out.now self.new.at }
    {
        self.out[self.at] = byte;
        self.at += 1;
    }

    // Several bytes.
    fn bytes(&mut self, bytes: &[u8])
        requires room { self.old.at + length bytes.now ≤ length self.old.out.now }
        ensures same_bytes { self.new.out.ghost_name ≡ self.old.out.ghost_name }
        ensures wrote { Wrote self.old.out.now self.old.at bytes.now self.new.out.now self.new.at }
    {
        let end = self.at + bytes.len();
        self.out[self.at..end].copy_from_slice(bytes);
        self.at = end;
    }

    // The decimal digits of a number.
    pub(crate) fn decimal(&mut self, number: u64)
        requires room { self.old.at + length (decimal number) ≤ length self.old.out.now }
        ensures same_bytes { self.new.out.ghost_name ≡ self.old.out.ghost_name }
        ensures wrote { Wrote self.old.out.now self.old.at (decimal number) self.new.out.now self.new.at }
    {
        self.at = put_decimal(self.out, self.at, number);
    }

    // A number that may be below zero.
    pub(crate) fn signed(&mut self, number: i64)
        requires room { self.old.at + length (signed_decimal number) ≤ length self.old.out.now }
        ensures same_bytes { self.new.out.ghost_name ≡ self.old.out.ghost_name }
        ensures wrote { Wrote self.old.out.now self.old.at (signed_decimal number) self.new.out.now self.new.at }
    {
        if number < 0 {
            self.byte(b'-');
        }
        self.decimal(number.unsigned_abs());
    }

    // Each figure of a table, with a comma before it.
    fn table<T: Figure>(&mut self, table: &[T])
        requires fit { AllByRecursion T.Figure.fits table.now }
        requires room { self.old.at + length (listed T.Figure.spelled table.now) ≤ length self.old.out.now }
        ensures same_bytes { self.new.out.ghost_name ≡ self.old.out.ghost_name }
        ensures wrote { Wrote self.old.out.now self.old.at (listed T.Figure.spelled table.now) self.new.out.now self.new.at }
    {
        for figure in table {
            self.byte(b',');
            figure.put(self);
        }
    }

    // The field of an opening's methods, after a comma; nothing for another event. `as`: an event's accounts are 64 at most.
    fn methods(&mut self, event: &Event)
        requires room { self.old.at + length (methods_text (said event.now)) ≤ length self.old.out.now }
        ensures same_bytes { self.new.out.ghost_name ≡ self.old.out.ghost_name }
        ensures wrote { Wrote self.old.out.now self.old.at (methods_text (said event.now)) self.new.out.now self.new.at }
    {
        if event.kind == b'O' {
            let accounts = event.numbers[0] as usize;
            self.byte(b',');
            self.bytes(&event.methods[..accounts]);
        }
    }

    // All of an event's line.
    fn line(&mut self, event: &Event)
        requires room { self.old.at + length (text (said event.now)) ≤ length self.old.out.now }
        ensures same_bytes { self.new.out.ghost_name ≡ self.old.out.ghost_name }
        ensures wrote { Wrote self.old.out.now self.old.at (text (said event.now)) self.new.out.now self.new.at }
    {
        let counts = Counts::of(event.kind);
        self.byte(event.kind);
        self.table(&event.numbers[..counts.numbers]);
        self.methods(event);
        self.table(&event.prices[..counts.prices]);
        self.table(&event.points[..counts.points]);
        self.byte(b'\n');
    }
}

// Bytes with room for every line.
pub type LineBuffer = [u8; 400];

// Writes an event's line into the front of `out`, tells its length and leaves the other bytes: a rule
// of the project.
pub fn write(event: &Event, out: &mut LineBuffer) -> usize
    ensures length { result ≡ length (text (said event.now)) }
    ensures front { out.new ≡ text (said event.now) ++ drop result out.old }
    ensures reads_back { (at : ℕ) → may_stand at event.now.kind ≡ true → parsed at (take result out.new) ≡ Ok (said event.now) }
{
    let mut pen = Pen { out, at: 0 };
    pen.line(event);
    pen.at
}
