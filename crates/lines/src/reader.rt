// The reader of event lines.
ghost use Rattle.std.specs.Prelude.{◌≡◌, ◌+◌, ◌<◌, ◌≤◌, true, [], ◌∷◌, length, take, if◌then◌else◌, Some, None, Ok, ◌==◌, ◌||◌, position, slice_index};
ghost use Rattle.lines.specs.Letters.{opening_letter, schedule_letter, trade_letter, declaration_letter, deposit_letter, withdrawal_letter, rollover_letter, report_letter, oldest_first_letter, designated_letter, comma};
ghost use Rattle.lines.specs.Said.{is_call, is_kind, is_methods, Plain};
ghost use Rattle.lines.specs.Fields.{split, fields_after, ended, body};
ghost use Rattle.lines.specs.Figures.{figures};
ghost use Rattle.lines.specs.Lines.{said, field_count, may_stand, is_letter, meant, parsed, text, filled, InFormat};
ghost use Rattle.lines.specs.Readings.{Reading, Filling};
ghost use Rattle.lines.specs.Rests.{AfterLetter, Past};

use crate::counts::field_count;
use crate::event::Event;
use crate::figure::Figure;
use refusals::Refusal;

// A field is a part of the line, with its place, a rule of the project: the letter is field 1.
#[derive(Clone, Copy)]
struct Field<'a> {
    part: &'a [u8],
    place: u64,
}

// The fields that are still to be read: nothing, or a comma and more fields, of which the first has
// the place `place`. That places stay below 100 is asked where fields are cut: in this type the bound
// would have to fall with each cut, and be no plainer.
#[derive(Clone, Copy)]
struct Fields<'a> {
    rest: &'a [u8],
    place: u64,
}

// A field, and the fields after it.
#[derive(Clone, Copy)]
struct Cut<'a> {
    field: Field<'a>,
    after: Fields<'a>,
}

// Where the first comma of a text stands, if it has one.
fn first_comma(text: &[u8]) -> Option<usize>
    ensures { result ≡ position (λ b. b == comma) text.now }
{
    text.iter().position(|byte| *byte == b',')
}

// The first field of a text, which has the place `place`.
fn first_field<'a>(text: &'a [u8], place: u64) -> Cut<'a>
    requires few { place < 100 }
    ensures cut { split text.now ≡ result.field.part.now ∷ fields_after result.after.rest.now }
    ensures here { result.field.place ≡ place }
    ensures place { result.after.place ≡ place + 1 }
{
    let end = first_comma(text).unwrap_or(text.len());
    let (part, rest) = text.split_at(end);
    Cut {
        field: Field { part, place },
        after: Fields {
            rest,
            place: place + 1,
        },
    }
}

impl<'a> Fields<'a> {
    // Cuts off the next field.
    fn next(&mut self) -> Field<'a>
        requires some { 0 < length self.old.rest.now }
        requires few { self.old.place < 100 }
        ensures cut { fields_after self.old.rest.now ≡ result.part.now ∷ fields_after self.new.rest.now }
        ensures here { result.place ≡ self.old.place }
        ensures place { self.new.place ≡ self.old.place + 1 }
    {
        let cut = first_field(&self.rest[1..], self.place);
        *self = cut.after;
        cut.field
    }

    // Fills a table from as many fields, or refuses the first that is bad.
    fn read_table<T: Figure>(&mut self, table: &mut [T]) -> Result<(), Refusal>
        requires enough { length table.old ≤ length (fields_after self.old.rest.now) }
        requires few { self.old.place + length table.old < 100 }
        ensures { Filling (figures T.Figure.reads self.old.place (take (length table.old) (fields_after self.old.rest.now))) result table.new (λ _. Past (length table.old) self.old self.new) }
    {
        for slot in table.iter_mut() {
            let field = self.next();
            *slot = T::read(field.part).ok_or(Refusal::Line(field.place))?;
        }
        Ok(())
    }
}

// How many fields a text has.
fn count_fields(text: &[u8]) -> usize
    ensures { result ≡ length (split text.now) }
{
    text.iter().filter(|byte| **byte == b',').count() + 1
}

// The line's last byte is a line feed.
fn is_ended(line: &[u8]) -> bool
    ensures { result ≡ ended line.now }
{
    line.ends_with(b"\n")
}

// A line without the line feed at its end, if it has one.
fn body_of<'a>(line: &'a [u8]) -> &'a [u8]
    ensures { result.now ≡ body line.now }
{
    line.strip_suffix(b"\n").unwrap_or(line)
}

// A letter of the calls that follow the opening and the schedule. Letters are matched against
// character literals, a rule of the project: so the `as char`.
fn is_call(letter: u8) -> bool
    ensures { result ≡ is_call letter }
{
    matches!(letter as char, 'T' | 'C' | 'D' | 'W' | 'R' | 'M')
}

// The opening stands on line 1, the schedule on line 2, the other calls elsewhere. A call is known
// by its letter, a rule of the project.
fn may_stand(letter: u8, line_number: usize) -> bool
    ensures { result ≡ may_stand line_number letter }
{
    match line_number {
        1 => letter == b'O',
        2 => letter == b'S',
        _ => is_call(letter),
    }
}

// The letter of a field that is one letter, which may stand on that line.
fn letter_of(field: &[u8], line_number: usize) -> Option<u8>
    ensures { result ≡ (if is_letter line_number field.now then Some (slice_index field.now 0) else None) }
{
    match field {
        [letter] if may_stand(*letter, line_number) => Some(*letter),
        _ => None,
    }
}

// The letter of a method. An event keeps the methods as the line has them: it is a plain struct, a
// rule of the project.
fn is_method(letter: u8) -> bool
    ensures { result ≡ (letter == oldest_first_letter || letter == designated_letter) }
{
    matches!(letter as char, 'F' | 'D')
}

// The methods of an opening: F or D for each of 1 to 64 accounts.
fn is_methods(field: &[u8], accounts: u64) -> bool
    ensures { result ≡ is_methods accounts field.now }
{
    // `as`: std has no `From` between them.
    field.len() as u64 == accounts
        && (1..=64).contains(&accounts)
        && field.iter().all(|letter| is_method(*letter))
}

// The fields of a call that has numbers alone. Each letter leads to its own field reader, a rule of
// the project, so the five below stay apart. What each asks is one fact with its count of fields: a
// type of its own for each count would say it no shorter.
fn read_numbers(
    kind: u8,
    count: usize,
    mut fields: Fields<'_>,
    event: &mut Event,
) -> Result<(), Refusal>
    requires plain { Plain kind count }
    requires after { AfterLetter fields count }
    ensures { Reading (meant kind (fields_after fields.entry.rest.now)) result (said event.old) (said event.new) }
{
    let mut numbers = [0; 5];
    fields.read_table(&mut numbers[..count])?;
    *event = Event {
        kind,
        numbers,
        methods: [0; 64],
        prices: [0; 16],
        points: [0; 16],
    };
    Ok(())
}

// T,buyer,seller,product,quantity,price
fn read_trade(fields: Fields<'_>, event: &mut Event) -> Result<(), Refusal>
    requires after { AfterLetter fields 5 }
    ensures { Reading (meant trade_letter (fields_after fields.entry.rest.now)) result (said event.old) (said event.new) }
{
    read_numbers(b'T', 5, fields, event)
}

// C,account,product,bought number,sold number,quantity
fn read_declaration(fields: Fields<'_>, event: &mut Event) -> Result<(), Refusal>
    requires after { AfterLetter fields 5 }
    ensures { Reading (meant declaration_letter (fields_after fields.entry.rest.now)) result (said event.old) (said event.new) }
{
    read_numbers(b'C', 5, fields, event)
}

// D,account,yen
fn read_deposit(fields: Fields<'_>, event: &mut Event) -> Result<(), Refusal>
    requires after { AfterLetter fields 2 }
    ensures { Reading (meant deposit_letter (fields_after fields.entry.rest.now)) result (said event.old) (said event.new) }
{
    read_numbers(b'D', 2, fields, event)
}

// W,account,yen
fn read_withdrawal(fields: Fields<'_>, event: &mut Event) -> Result<(), Refusal>
    requires after { AfterLetter fields 2 }
    ensures { Reading (meant withdrawal_letter (fields_after fields.entry.rest.now)) result (said event.old) (said event.new) }
{
    read_numbers(b'W', 2, fields, event)
}

// M,account
fn read_report(fields: Fields<'_>, event: &mut Event) -> Result<(), Refusal>
    requires after { AfterLetter fields 1 }
    ensures { Reading (meant report_letter (fields_after fields.entry.rest.now)) result (said event.old) (said event.new) }
{
    read_numbers(b'M', 1, fields, event)
}

// S,16 amounts
fn read_schedule(mut fields: Fields<'_>, event: &mut Event) -> Result<(), Refusal>
    requires after { AfterLetter fields 16 }
    ensures { Reading (meant schedule_letter (fields_after fields.entry.rest.now)) result (said event.old) (said event.new) }
{
    let mut prices = [0; 16];
    fields.read_table(&mut prices)?;
    *event = Event {
        kind: b'S',
        numbers: [0; 5],
        methods: [0; 64],
        prices,
        points: [0; 16],
    };
    Ok(())
}

// R,mark,16 prices,16 points
fn read_rollover(mut fields: Fields<'_>, event: &mut Event) -> Result<(), Refusal>
    requires after { AfterLetter fields 33 }
    ensures { Reading (meant rollover_letter (fields_after fields.entry.rest.now)) result (said event.old) (said event.new) }
{
    let mut numbers = [0; 5];
    let mut prices = [0; 16];
    let mut points = [0; 16];
    fields.read_table(&mut numbers[..1])?;
    fields.read_table(&mut prices)?;
    fields.read_table(&mut points)?;
    *event = Event {
        kind: b'R',
        numbers,
        methods: [0; 64],
        prices,
        points,
    };
    Ok(())
}

// O,accounts,methods,16 prices
fn read_opening(mut fields: Fields<'_>, event: &mut Event) -> Result<(), Refusal>
    requires after { AfterLetter fields 18 }
    ensures { Reading (meant opening_letter (fields_after fields.entry.rest.now)) result (said event.old) (said event.new) }
{
    let mut numbers = [0; 5];
    let mut methods = [0; 64];
    let mut prices = [0; 16];
    fields.read_table(&mut numbers[..1])?;
    let letters = fields.next();
    if !is_methods(letters.part, numbers[0]) {
        return Err(Refusal::Line(letters.place));
    }
    methods[..letters.part.len()].copy_from_slice(letters.part);
    fields.read_table(&mut prices)?;
    *event = Event {
        kind: b'O',
        numbers,
        methods,
        prices,
        points: [0; 16],
    };
    Ok(())
}

// The fields of a call, by its letter: each letter has a reader of its own, a rule of the project.
fn read_call(letter: u8, fields: Fields<'_>, event: &mut Event) -> Result<(), Refusal>
    requires known { is_kind letter ≡ true }
    requires after { AfterLetter fields (field_count letter) }
    ensures { Reading (meant letter (fields_after fields.entry.rest.now)) result (said event.old) (said event.new) }
{
    match letter as char {
        'O' => read_opening(fields, event),
        'S' => read_schedule(fields, event),
        'T' => read_trade(fields, event),
        'C' => read_declaration(fields, event),
        'D' => read_deposit(fields, event),
        'W' => read_withdrawal(fields, event),
        'R' => read_rollover(fields, event),
        'M' => read_report(fields, event),
        _ => Err(Refusal::Line(1)),
    }
}

// Reads a line into the caller's event (filled in place, a rule of the project), or refuses it, names
// the first field that is bad (0 for the count of fields or the line feed) and leaves the event as it
// was. Lines are counted from 1.
pub fn read(line: &[u8], line_number: usize, event: &mut Event) -> Result<(), Refusal>
    ensures reading { Reading (parsed line_number line.now) result (said event.old) (said event.new) }
    ensures writes_back { result ≡ Ok tt → text (said event.new) ≡ line.now }
    ensures only_format { result ≡ Ok tt → InFormat line_number line.now }
    ensures all_format { InFormat line_number line.now → result ≡ Ok tt }
{
    let text = body_of(line);
    let Cut { field, after } = first_field(text, 1);
    let letter = letter_of(field.part, line_number).ok_or(Refusal::Line(field.place))?;
    if !is_ended(line) || count_fields(text) != field_count(letter) + 1 {
        return Err(Refusal::Line(0));
    }
    read_call(letter, after, event)
}

// The event of the line M,0: something for a first line to be read into.
pub fn blank() -> Event
    ensures says { said result ≡ filled report_letter (0 ∷ []) [] [] [] }
{
    Event {
        kind: b'M',
        numbers: [0; 5],
        methods: [0; 64],
        prices: [0; 16],
        points: [0; 16],
    }
}
