// Event lines: the reader on good and damaged lines, and the writer on what was read.
use lines::{Event, blank, read, write};
use refusals::Refusal;
use std::process::Abort;
use std::test::Fail;

// A line, where it stands, and what the reader must answer.
#[derive(Clone, Copy)]
struct Case<'a> {
    line: &'a [u8],
    number: usize,
    answer: Result<(), Refusal>,
}

fn good<'a>(line: &'a [u8], number: usize) -> Case<'a> {
    Case {
        line,
        number,
        answer: Ok(()),
    }
}

fn bad<'a>(line: &'a [u8], number: usize, field: u64) -> Case<'a> {
    Case {
        line,
        number,
        answer: Err(Refusal::Line(field)),
    }
}

// The event of the case at this place is written as that line, and the bytes after it are left as they were.
fn is_written(rt: &impl Abort, place: usize, event: &Event, line: &[u8]) {
    let mut out = [b'#'; 400];
    let end = write(event, &mut out);
    assert!(rt; end <= out.len(), "case {place}: the length");
    let (written, after) = out.split_at(end);
    assert_eq!(rt; written, line, "case {place}");
    assert!(rt;
        after.iter().all(|byte| *byte == b'#'),
        "case {place}: the bytes after it"
    );
}

// A good line is written again as it was; a refused one leaves the event as it was, that of M,0.
fn run_case(rt: &impl Abort, place: usize, case: &Case) {
    let mut event = blank();
    assert_eq!(rt;
        read(case.line, case.number, &mut event),
        case.answer,
        "case {place}"
    );
    match case.answer {
        Ok(()) => is_written(rt, place, &event, case.line),
        Err(_) => is_written(rt, place, &event, b"M,0\n"),
    }
}

// Runs a table, and names the place of a case that fails.
fn run(rt: &impl Abort, cases: &[Case]) -> Result<(), Fail> {
    for (i, case) in cases.iter().enumerate() {
        run_case(rt, i, case);
    }
    Ok(())
}

// Each letter, with ordinary fields.
#[test]
fn every_letter(rt: HostRuntime) -> Result<(), Fail> {
    let cases = [
        good(b"O,2,FD,1,2,3,4,5,6,7,8,9,10,11,12,13,14,15,16\n", 1),
        good(b"S,60000,0,0,0,0,0,0,0,0,0,0,0,0,0,0,9\n", 2),
        good(b"T,2,1,1,3,150000\n", 3),
        good(b"C,2,1,7,12,3\n", 4),
        good(b"D,2,500000\n", 5),
        good(b"W,2,10\n", 6),
        good(
            b"R,1,1,2,3,4,5,6,7,8,9,10,11,12,13,14,15,16,-20,0,1,-1,2,3,4,5,6,7,8,9,10,11,12,-10000\n",
            7,
        ),
        good(b"M,2\n", 8),
        good(b"M,0\n", 20002),
    ];
    run(&rt, &cases)
}

// The longest line of each letter.
#[test]
fn longest_lines(rt: HostRuntime) -> Result<(), Fail> {
    let cases = [
        good(
            b"O,64,FDFDFDFDFDFDFDFDFDFDFDFDFDFDFDFDFDFDFDFDFDFDFDFDFDFDFDFDFDFDFDFD,9999999999,9999999999,9999999999,9999999999,9999999999,9999999999,9999999999,9999999999,9999999999,9999999999,9999999999,9999999999,9999999999,9999999999,9999999999,9999999999\n",
            1,
        ),
        good(
            b"S,9999999999,9999999999,9999999999,9999999999,9999999999,9999999999,9999999999,9999999999,9999999999,9999999999,9999999999,9999999999,9999999999,9999999999,9999999999,9999999999\n",
            2,
        ),
        good(
            b"T,9999999999,9999999999,9999999999,9999999999,9999999999\n",
            3,
        ),
        good(
            b"C,9999999999,9999999999,9999999999,9999999999,9999999999\n",
            3,
        ),
        good(b"D,9999999999,9999999999\n", 3),
        good(b"W,9999999999,9999999999\n", 3),
        good(
            b"R,9999999999,9999999999,9999999999,9999999999,9999999999,9999999999,9999999999,9999999999,9999999999,9999999999,9999999999,9999999999,9999999999,9999999999,9999999999,9999999999,9999999999,-9999999999,-9999999999,-9999999999,-9999999999,-9999999999,-9999999999,-9999999999,-9999999999,-9999999999,-9999999999,-9999999999,-9999999999,-9999999999,-9999999999,-9999999999,-9999999999\n",
            3,
        ),
        good(b"M,9999999999\n", 3),
    ];
    run(&rt, &cases)
}

// The letter is tested before all else: field 1.
#[test]
fn letters(rt: HostRuntime) -> Result<(), Fail> {
    let cases = [
        bad(b"X,1\n", 3, 1),
        bad(b"m,1\n", 3, 1),
        bad(b"MM,1\n", 3, 1),
        bad(b"M ,1\n", 3, 1),
        bad(b"\xff,1\n", 3, 1),
        bad(b"", 3, 1),
        bad(b"\n", 3, 1),
        bad(b",1\n", 3, 1),
        bad(b"1\n", 3, 1),
        bad(b"O,2,FD,1,2,3,4,5,6,7,8,9,10,11,12,13,14,15,16\n", 3, 1),
        bad(b"D,2,500000\n", 1, 1),
        bad(b"T,2,1,1,3,150000\n", 2, 1),
        bad(b"S,1,2,3,4,5,6,7,8,9,10,11,12,13,14,15,16\n", 5, 1),
        bad(b"O,2,FD,1,2,3,4,5,6,7,8,9,10,11,12,13,14,15,16\n", 2, 1),
        bad(b"S,1,2,3,4,5,6,7,8,9,10,11,12,13,14,15,16\n", 1, 1),
        bad(b"X,1", 3, 1),
        bad(b"O,1\n", 3, 1),
        bad(b"x", 1, 1),
    ];
    run(&rt, &cases)
}

// The count of fields and the line feed at the end come next: field 0.
#[test]
fn counts(rt: HostRuntime) -> Result<(), Fail> {
    let cases = [
        bad(b"M\n", 3, 0),
        bad(b"M", 3, 0),
        bad(b"M,1", 3, 0),
        bad(b"D,x,1", 3, 0),
        bad(b"T,1,2,3,4\n", 3, 0),
        bad(b"T,1,2,3,4,5,6\n", 3, 0),
        bad(b"M,1,\n", 3, 0),
        bad(b"D,1\n", 3, 0),
        bad(b"C,1,2,3,4\n", 3, 0),
        bad(b"W,1,2,3\n", 3, 0),
        bad(b"O,2,FD,1,2,3\n", 1, 0),
        bad(b"S,1,2,3\n", 2, 0),
        bad(b"S,1,2,3,4,5,6,7,8,9,10,11,12,13,14,15,16,17\n", 2, 0),
        bad(b"R,1,1,2,3,4,5,6,7,8,9,10,11,12,13,14,15,16\n", 3, 0),
        bad(b"M,1\nM,2\n", 3, 0),
        bad(b"O", 1, 0),
    ];
    run(&rt, &cases)
}

// A number has 1 to 10 digits and no leading zero; the first bad field is named.
#[test]
fn numbers(rt: HostRuntime) -> Result<(), Fail> {
    let cases = [
        bad(b"M,\n", 3, 2),
        bad(b"D,,1\n", 3, 2),
        bad(b"D,1,\n", 3, 3),
        bad(b"M,12345678901\n", 3, 2),
        bad(b"D,1,12345678901\n", 3, 3),
        bad(b"D,02,5\n", 3, 2),
        bad(b"M,00\n", 3, 2),
        bad(b"M,-1\n", 3, 2),
        bad(b"M,-\n", 3, 2),
        bad(b"M,+1\n", 3, 2),
        bad(b"M, 1\n", 3, 2),
        bad(b"M,1 \n", 3, 2),
        bad(b"M,1\r\n", 3, 2),
        bad(b"M,1\0\n", 3, 2),
        bad(b"M,\xff\n", 3, 2),
        bad(b"M,/\n", 3, 2),
        bad(b"M,:\n", 3, 2),
        bad(b"M,1a\n", 3, 2),
        bad(b"M,1\n\n", 3, 2),
        bad(b"D,1\n,5\n", 3, 2),
        bad(b"D,x,y\n", 3, 2),
        bad(b"T,1,2,x,4,y\n", 3, 4),
        bad(b"C,1,2,3,4,05\n", 3, 6),
        bad(b"W,1,1.5\n", 3, 3),
        bad(b"S,1,2,3,4,5,6,7,8,9,10,11,12,13,14,15,016\n", 2, 17),
        bad(b"S,-1,2,3,4,5,6,7,8,9,10,11,12,13,14,15,16\n", 2, 2),
    ];
    run(&rt, &cases)
}

// Points may bear a minus, and are never -0.
#[test]
fn points(rt: HostRuntime) -> Result<(), Fail> {
    let cases = [
        bad(
            b"R,-1,1,2,3,4,5,6,7,8,9,10,11,12,13,14,15,16,0,0,0,0,0,0,0,0,0,0,0,0,0,0,0,0\n",
            3,
            2,
        ),
        bad(
            b"R,1,-1,2,3,4,5,6,7,8,9,10,11,12,13,14,15,16,0,0,0,0,0,0,0,0,0,0,0,0,0,0,0,0\n",
            3,
            3,
        ),
        bad(
            b"R,1,1,2,3,4,5,6,7,8,9,10,11,12,13,14,15,16,-,0,0,0,0,0,0,0,0,0,0,0,0,0,0,0\n",
            3,
            19,
        ),
        bad(
            b"R,1,1,2,3,4,5,6,7,8,9,10,11,12,13,14,15,16,--1,0,0,0,0,0,0,0,0,0,0,0,0,0,0,0\n",
            3,
            19,
        ),
        bad(
            b"R,1,1,2,3,4,5,6,7,8,9,10,11,12,13,14,15,16,+1,0,0,0,0,0,0,0,0,0,0,0,0,0,0,0\n",
            3,
            19,
        ),
        bad(
            b"R,1,1,2,3,4,5,6,7,8,9,10,11,12,13,14,15,16,-01,0,0,0,0,0,0,0,0,0,0,0,0,0,0,0\n",
            3,
            19,
        ),
        bad(
            b"R,1,1,2,3,4,5,6,7,8,9,10,11,12,13,14,15,16,-12345678901,0,0,0,0,0,0,0,0,0,0,0,0,0,0,0\n",
            3,
            19,
        ),
        bad(
            b"R,1,1,2,3,4,5,6,7,8,9,10,11,12,13,14,15,16,12345678901,0,0,0,0,0,0,0,0,0,0,0,0,0,0,0\n",
            3,
            19,
        ),
        bad(
            b"R,1,1,2,3,4,5,6,7,8,9,10,11,12,13,14,15,16,,0,0,0,0,0,0,0,0,0,0,0,0,0,0,0\n",
            3,
            19,
        ),
        bad(
            b"R,1,1,2,3,4,5,6,7,8,9,10,11,12,13,14,15,16,0,0,0,0,0,0,0,0,0,0,0,0,0,0,0,-0\n",
            3,
            34,
        ),
        bad(
            b"R,1,1,2,3,4,5,6,7,8,9,10,11,12,13,14,15,16,0,0,0,0,0,0,0,0,0,0,0,0,0,0,0,1-\n",
            3,
            34,
        ),
        bad(
            b"R,1,1,2,3,4,5,6,7,8,9,10,11,12,13,14,15,x,-0,0,0,0,0,0,0,0,0,0,0,0,0,0,0,0\n",
            3,
            18,
        ),
    ];
    run(&rt, &cases)
}

// An opening has a letter F or D for each of 1 to 64 accounts.
#[test]
fn methods(rt: HostRuntime) -> Result<(), Fail> {
    let cases = [
        good(b"O,1,F,1,2,3,4,5,6,7,8,9,10,11,12,13,14,15,16\n", 1),
        good(
            b"O,64,FFFFFFFFFFFFFFFFFFFFFFFFFFFFFFFFFFFFFFFFFFFFFFFFFFFFFFFFFFFFFFFF,1,2,3,4,5,6,7,8,9,10,11,12,13,14,15,16\n",
            1,
        ),
        bad(b"O,2,F,1,2,3,4,5,6,7,8,9,10,11,12,13,14,15,16\n", 1, 3),
        bad(b"O,1,FD,1,2,3,4,5,6,7,8,9,10,11,12,13,14,15,16\n", 1, 3),
        bad(b"O,2,FX,1,2,3,4,5,6,7,8,9,10,11,12,13,14,15,16\n", 1, 3),
        bad(b"O,2,fd,1,2,3,4,5,6,7,8,9,10,11,12,13,14,15,16\n", 1, 3),
        bad(b"O,0,,1,2,3,4,5,6,7,8,9,10,11,12,13,14,15,16\n", 1, 3),
        bad(b"O,0,F,1,2,3,4,5,6,7,8,9,10,11,12,13,14,15,16\n", 1, 3),
        bad(
            b"O,65,FFFFFFFFFFFFFFFFFFFFFFFFFFFFFFFFFFFFFFFFFFFFFFFFFFFFFFFFFFFFFFFFF,1,2,3,4,5,6,7,8,9,10,11,12,13,14,15,16\n",
            1,
            3,
        ),
        bad(b"O,2,,1,2,3,4,5,6,7,8,9,10,11,12,13,14,15,16\n", 1, 3),
        bad(b"O,02,FD,1,2,3,4,5,6,7,8,9,10,11,12,13,14,15,16\n", 1, 2),
        bad(b"O,x,X,1,2,3,4,5,6,7,8,9,10,11,12,13,14,15,16\n", 1, 2),
        bad(b"O,,FD,1,2,3,4,5,6,7,8,9,10,11,12,13,14,15,16\n", 1, 2),
        bad(b"O,2,FD,01,2,3,4,5,6,7,8,9,10,11,12,13,14,15,16\n", 1, 4),
        bad(b"O,2,XX,01,2,3,4,5,6,7,8,9,10,11,12,13,14,15,16\n", 1, 3),
        bad(b"O,2,FD,1,2,3,4,5,6,7,8,9,10,11,12,13,14,15,-1\n", 1, 19),
    ];
    run(&rt, &cases)
}
