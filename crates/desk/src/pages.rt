// A page from its first line to its last.
ghost use Rattle.std.specs.Prelude.{◌≡◌, ◌≤◌, map, length, string_bytes, IfOk};
ghost use Rattle.refusals.specs.Ranges.{accepted_as};
ghost use Rattle.lines.specs.Lines.{said, parsed};
ghost use Rattle.report.specs.State.{State};
ghost use Rattle.book.specs.Opening.{opened, over_places};
ghost use Rattle.book.specs.View.{terms};
ghost use Rattle.desk.specs.Answers.{answer_text};
ghost use Rattle.desk.specs.Pages.{Page, mark_of, rule_by, methods_rule, opening_terms, so_far, nothing, lines_of, print, call_of, at_call, at_line, page_of, schedule_page, opening_page, page};
ghost use Rattle.desk.specs.Served.{GoesOn, rule_of, schedule_of, state_of, line_told, amounts_told};

use crate::answers::{Accepted, Answer, Stop, Unserved};
use crate::input::{Line, Lines};
use book::{Book, Opening};
use closing::{ByAccount, Designated, Marks, OldestFirst};
use lines::{Event, blank, read};
use records::lots::{Lot, Slip};
use refusals::Refusal;
use schedules::{Amounts, Published};
use std::alloc::{AllocError, Global};

const MOST_BYTES: usize = 65_536;

const LOT_PLACES: usize = 1_024;

const SLIP_PLACES: usize = 2_000;

// What is printed, and how it ended: with the input, or at a call that is not served yet.
#[derive(Drop)]
pub struct Output {
    pub text: String,
    pub ending: Result<(), Unserved>,
}

// Prints the answer to a line.
fn print(line: usize, told: Result<Accepted, Refusal>, out: &mut String) -> Result<(), Stop>
    ensures { (rest : Page) → GoesOn result (string_bytes out.new) (print (string_bytes out.old) (print (answer_text line told) rest)) rest }
{
    let answer = Answer { line, told };
    write!(out, "{answer}")?;
    Ok(())
}

// Each account by its method.
type MethodRule = ByAccount<OldestFirst, Designated>;

// A letter for each account.
type Methods = [u8; 64];

// The mark that a method's letter gives. Marks are numbers, since a rule's marks may be refused: a rule of the project.
fn mark_of(method: u8) -> u64
    ensures { result ≡ mark_of method }
{
    if method == b'D' { 1 } else { 0 }
}

// Oldest first for method F, designated for method D.
fn method_rule(methods: Methods) -> MethodRule
    ensures { result.marks.table ≡ map mark_of methods }
{
    let table = methods.map(mark_of);
    let marks = Marks::check(table).unwrap();
    ByAccount {
        marks,
        first: OldestFirst,
        second: Designated,
    }
}

// What a line says, or why it is refused.
fn event_on(line: &Line<'_>) -> Result<Event, Refusal>
    ensures { accepted_as said result ≡ line_told (parsed line.now.number line.now.bytes.now) }
{
    let mut event = blank();
    read(line.bytes, line.number, &mut event)?;
    Ok(event)
}

// The opening on a line, with the rule that its methods give.
fn opening_on(line: &Line<'_>) -> Result<(Opening, MethodRule), Refusal>
    ensures terms { accepted_as (λ o. terms o.0) result ≡ opening_terms (parsed line.now.number line.now.bytes.now) }
    ensures rule { IfOk result (λ o. rule_by o.1.marks.table ≡ methods_rule (parsed line.now.number line.now.bytes.now)) }
{
    let event = event_on(line)?;
    let accounts = event.numbers[0];
    let opening = Opening::check(accounts, &event.prices, LOT_PLACES, SLIP_PLACES)?;
    Ok((opening, method_rule(event.methods)))
}

// The published schedule on a line.
fn schedule_on(line: &Line<'_>) -> Result<Published, Refusal>
    ensures { accepted_as (λ s. s.amounts.table) result ≡ amounts_told (parsed line.now.number line.now.bytes.now) }
{
    let event = event_on(line)?;
    let amounts = Amounts::check(event.prices)?;
    Ok(Published { amounts })
}

// An open book, with the rule and the schedule that its calls go by.
#[derive(Drop)]
struct Desk<'a> {
    book: Book<'a>,
    rule: MethodRule,
    schedule: Published,
}

impl Desk<'_> {
    // Serves the call that an event makes. Its letter is matched against character literals, a rule of the project.
    fn serve_event(&mut self, line: usize, event: &Event, out: &mut String) -> Result<(), Stop>
        ensures served { (rest : State → Page) → GoesOn result (string_bytes out.new) (print (string_bytes out.old) (at_call (rule_of self.old) (schedule_of self.old) line (state_of self.old) (said event.now) (call_of (said event.now)) rest)) (rest (state_of self.new)) }
        ensures rule { self.new.rule ≡ self.old.rule }
        ensures schedule { self.new.schedule ≡ self.old.schedule }
    {
        let [first, second, third, fourth, fifth] = event.numbers;
        let told = match event.kind as char {
            'T' => self
                .book
                .trade(&self.rule, first, second, third, fourth, fifth)
                .map(Accepted::Entry),
            'C' => self
                .book
                .declare(&self.rule, first, second, third, fourth, fifth)
                .map(Accepted::Entry),
            'D' => self.book.deposit(first, second).map(Accepted::Entry),
            'W' => self
                .book
                .withdraw(&self.schedule, first, second)
                .map(Accepted::Entry),
            'M' => self
                .book
                .report(&self.schedule, first)
                .map(|report| Accepted::Figures(first, report)),
            _ => {
                let letter = event.kind;
                return Err(Stop::Unserved(Unserved { line, letter }));
            }
        };
        print(line, told, out)
    }

    // Serves a line: it is read, and its call is served or its refusal told.
    fn serve_line(&mut self, line: &Line<'_>, out: &mut String) -> Result<(), Stop>
        ensures served { (rest : State → Page) → GoesOn result (string_bytes out.new) (print (string_bytes out.old) (at_line (rule_of self.old) (schedule_of self.old) line.now.number (state_of self.old) (parsed line.now.number line.now.bytes.now) rest)) (rest (state_of self.new)) }
        ensures rule { self.new.rule ≡ self.old.rule }
        ensures schedule { self.new.schedule ≡ self.old.schedule }
    {
        match event_on(line) {
            Ok(event) => self.serve_event(line.number, &event, out),
            Err(refusal) => print(line.number, Err(refusal), out),
        }
    }

    // Serves the lines that are left, and prints each answer.
    fn serve_lines(&mut self, lines: &mut Lines<'_>, out: &mut String) -> Result<(), Stop>
        ensures { GoesOn result (string_bytes out.new) (print (string_bytes out.old) (page_of (rule_of self.old) (schedule_of self.old) lines.old.number (state_of self.old) (lines_of lines.old.rest.now))) nothing }
    {
        for line in lines {
            self.serve_line(&line, out)?;
        }
        Ok(())
    }
}

// Serves the lines from the second on: that is the published schedule. The book lies in places of its own. The opening is
// served alike but for what follows: one function for both would take two closures that borrow the same lines and text, and
// be no plainer.
fn serve_schedule(
    opening: Opening,
    rule: MethodRule,
    lines: &mut Lines<'_>,
    out: &mut String,
) -> Result<(), Stop>
    requires { lines.old.number ≡ 2 }
    ensures { GoesOn result (string_bytes out.new) (print (string_bytes out.old) (schedule_page (rule_by rule.marks.table) (opened (over_places (terms opening) 1024 2000)) (lines_of lines.old.rest.now))) nothing }
{
    let Some(line) = lines.next() else {
        return Ok(());
    };
    match schedule_on(&line) {
        Err(refusal) => print(line.number, Err(refusal), out),
        Ok(schedule) => {
            print(line.number, Ok(Accepted::Entry(0)), out)?;
            let mut lots = [Lot::EMPTY; LOT_PLACES];
            let mut slips = [Slip::EMPTY; SLIP_PLACES];
            let mut desk = Desk {
                book: Book::open(opening, &mut lots, &mut slips),
                rule,
                schedule,
            };
            desk.serve_lines(lines, out)
        }
    }
}

// Serves an input from its first line on: that is the opening.
fn serve_opening(lines: &mut Lines<'_>, out: &mut String) -> Result<(), Stop>
    requires { lines.old.number ≡ 1 }
    ensures { GoesOn result (string_bytes out.new) (print (string_bytes out.old) (opening_page (lines_of lines.old.rest.now))) nothing }
{
    let Some(line) = lines.next() else {
        return Ok(());
    };
    match opening_on(&line) {
        Err(refusal) => print(line.number, Err(refusal), out),
        Ok((opening, rule)) => {
            print(line.number, Ok(Accepted::Entry(0)), out)?;
            serve_schedule(opening, rule, lines, out)
        }
    }
}

// Serves an input: one that is too long is refused as a whole.
fn serve_input(input: &[u8], out: &mut String) -> Result<(), Stop>
    ensures { GoesOn result (string_bytes out.new) (print (string_bytes out.old) (page input.now)) nothing }
{
    if input.len() > MOST_BYTES {
        return print(0, Err(Refusal::Line(0)), out);
    }
    let mut lines = Lines {
        rest: input,
        number: 1,
    };
    serve_opening(&mut lines, out)
}

// Everything that is printed for an input, and how it ended. It fails only for want of memory.
pub fn serve(heap: Global, input: &[u8]) -> Result<Output, AllocError>
    ensures { IfOk result (λ output. so_far (string_bytes output.text) output.ending ≡ page input.now) }
{
    let mut text = String::new(heap);
    let ending = match serve_input(input, &mut text) {
        Ok(()) => Ok(()),
        Err(Stop::Unserved(unserved)) => Err(unserved),
        Err(Stop::OutOfMemory(error)) => return Err(error),
    };
    Ok(Output { text, ending })
}
