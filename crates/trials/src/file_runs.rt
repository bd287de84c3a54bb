// How whole files are run: an input is put together, served, and what is printed is compared.
mod files;
mod trade_files;

use book::Book;
use desk::{Unserved, serve};
use money::PriceTable;
use refusals::Refusal;
use std::alloc::{AllocError, Global};
use std::process::Abort;
use std::test::Fail;

// Every product at the least price.
pub(super) const PRICES: PriceTable = [1; 16];

// Line 1 of most files: two accounts.
const LINE_1: &[u8] =
    b"O,2,FD,150000,100000,100000,100000,100000,100000,100000,100000,100000,100000,100000,100000,100000,100000,100000,100000\n";

// Lines 1 and 2 of most files. Account 1 closes oldest first and account 2 declares; a base amount in product 1 only.
const TWO: &[u8] =
    b"O,2,FD,150000,100000,100000,100000,100000,100000,100000,100000,100000,100000,100000,100000,100000,100000,100000,100000\nS,60000,0,0,0,0,0,0,0,0,0,0,0,0,0,0,0\n";

// Lines below the first ones, what is printed for them and how the page ends there. They stand at this place of their table.
#[derive(Clone, Copy)]
struct Case<'a> {
    place: usize,
    lines: &'a [u8],
    text: &'a [u8],
    ending: Result<(), Unserved>,
}

// A file that begins with these lines, which are accepted, and goes on with those of the case is answered as the case says.
fn is_answered(
    rt: &(impl Abort + AllocGlobal),
    first_lines: &[u8],
    case: &Case,
) -> Result<(), Fail> {
    let heap = rt.alloc();
    let input = joined(heap, &[first_lines, case.lines])?;
    let mut text = all_accepted(heap, first_lines)?;
    text.extend_from_slice(case.text)?;
    let place = case.place;
    let output = serve(heap, input.as_slice())?;
    assert_eq!(rt; output.text.as_bytes(), text.as_slice(), "case {place}");
    assert_eq!(rt; output.ending, case.ending, "case {place}");
    Ok(())
}

// Runs a table of lines and what is printed for them, and names the place of a case that fails. They stand below these first
// lines, and their pages end with the input.
fn run(
    rt: &(impl Abort + AllocGlobal),
    first_lines: &[u8],
    cases: &[(&[u8], &[u8])],
) -> Result<(), Fail> {
    for (place, (lines, text)) in cases.iter().enumerate() {
        let case = Case {
            place,
            lines,
            text,
            ending: Ok(()),
        };
        is_answered(rt, first_lines, &case)?;
    }
    Ok(())
}

// The same of lines below lines 1 and 2, with the number and letter of the line where the page ends, since its call is not
// served yet.
fn run_unserved(
    rt: &(impl Abort + AllocGlobal),
    cases: &[(&[u8], &[u8], usize, u8)],
) -> Result<(), Fail> {
    for (place, (lines, text, line, letter)) in cases.iter().enumerate() {
        let unserved = Unserved {
            line: *line,
            letter: *letter,
        };
        let case = Case {
            place,
            lines,
            text,
            ending: Err(unserved),
        };
        is_answered(rt, TWO, &case)?;
    }
    Ok(())
}

// Runs a file that is given by its parts, and so is what is printed for it below the first lines: some lines so many times,
// and so on; and accepted entries from the first to the last, then this text, and so on.
fn run_parts(
    rt: &(impl Abort + AllocGlobal),
    first_lines: &[u8],
    lines: &[(&[u8], u32)],
    text: &[(u32, u32, &[u8])],
) -> Result<(), Fail> {
    let heap = rt.alloc();
    let mut all_lines = Vec::new(heap);
    for (part, times) in lines {
        repeat(&mut all_lines, part, *times)?;
    }
    let mut all_text = Vec::new(heap);
    for (first, last, after) in text {
        all_text.extend_from_slice(accepted(heap, *first, *last)?.as_slice())?;
        all_text.extend_from_slice(after)?;
    }
    run(
        rt,
        first_lines,
        &[(all_lines.as_slice(), all_text.as_slice())],
    )
}

// OK,0 for each of these lines.
fn all_accepted(heap: Global, lines: &[u8]) -> Result<Vec<u8>, AllocError> {
    let mut text = Vec::new(heap);
    for byte in lines {
        if *byte == b'\n' {
            text.extend_from_slice(b"OK,0\n")?;
        }
    }
    Ok(text)
}

// Entries from the first to the last are accepted.
fn accepted(heap: Global, first: u32, last: u32) -> Result<Vec<u8>, AllocError> {
    each(heap, first, last, |entry| format!(in heap; "OK,{entry}\n"))
}

// A text for each number from the first to the last.
fn each<F: Fn(u32) -> Result<String, AllocError>>(
    heap: Global,
    first: u32,
    last: u32,
    text: F,
) -> Result<Vec<u8>, AllocError>
    requires { F.IsAlwaysCallable text }
{
    let mut all = Vec::new(heap);
    for n in first..=last {
        put(&mut all, text(n)?)?;
    }
    Ok(all)
}

// An account's report with these seven figures.
fn report(heap: Global, account: u32, figures: [i64; 7]) -> Result<String, AllocError> {
    let [
        deposit,
        settled,
        unsettled,
        base,
        required,
        shortfall,
        withdrawable,
    ] = figures;
    format!(in heap;
        "M,{account},{deposit},{settled},{unsettled},{base},{required},{shortfall},{withdrawable}\n"
    )
}

// Puts text last.
fn put(bytes: &mut Vec<u8>, text: String) -> Result<(), AllocError> {
    bytes.extend_from_slice(text.as_bytes())
}

// So many of one sequence of bytes, put last.
fn repeat(bytes: &mut Vec<u8>, part: &[u8], times: u32) -> Result<(), AllocError> {
    for _ in 0..times {
        bytes.extend_from_slice(part)?;
    }
    Ok(())
}

// Parts in a row.
fn joined(heap: Global, parts: &[&[u8]]) -> Result<Vec<u8>, AllocError> {
    let mut bytes = Vec::new(heap);
    for part in parts {
        bytes.extend_from_slice(part)?;
    }
    Ok(bytes)
}

// Takes the entries from this one to the last by deposits of 1 yen.
fn take_entries(rt: &impl Abort, book: &mut Book, from: u32) {
    for entry in from..=20_000 {
        assert_eq!(rt; book.deposit(1, 1), Ok(entry));
    }
}

// Each call of a table is refused for its cause: `call` makes a call, and gives its answer and the cause.
fn each_is_refused<T, F: FnMut(&T) -> (Result<u32, Refusal>, Refusal)>(
    rt: &impl Abort,
    cases: &[T],
    mut call: F,
)
    requires { F.IsAlwaysCallable call }
{
    for (i, case) in cases.iter().enumerate() {
        let (answer, cause) = call(case);
        assert_eq!(rt; answer, Err(cause), "{}", i);
    }
}
