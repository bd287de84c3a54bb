// Whole files: what is printed for each, and how it ends. The answers were worked out from the rules by hand and by a
// program in another language, never by the book itself.
use super::{
    LINE_1, PRICES, TWO, accepted, all_accepted, each, each_is_refused, joined, repeat, report,
    run, run_unserved, take_entries,
};
use book::{Book, Opening};
use money::Yen;
use records::lots::{Lot, Slip};
use refusals::Refusal;
use report::MarginReport;
use schedules::{Amounts, Published};
use std::alloc::{AllocError, Global};
use std::process::Abort;
use std::test::Fail;

// Files that end before line 1 does.
const SHORTEST_CASES: &[(&[u8], &[u8])] = &[
    // no input prints nothing
    (b"", b""),
    // the right letter, but no other field and no line feed
    (b"O", b"NO,1,L,15,0\n"),
    // a wrong letter comes before the missing line feed
    (b"x", b"NO,1,L,15,1\n"),
    (b"1", b"NO,1,L,15,1\n"),
    (b" ", b"NO,1,L,15,1\n"),
    (b"\0", b"NO,1,L,15,1\n"),
    (b"\xff", b"NO,1,L,15,1\n"),
    // field 1 is empty
    (b",", b"NO,1,L,15,1\n"),
    // an empty line is a line; the run stops at line 1, so the second prints nothing
    (b"\n", b"NO,1,L,15,1\n"),
    (b"\n\n", b"NO,1,L,15,1\n"),
    (b"\r\n", b"NO,1,L,15,1\n"),
    // one field of nineteen
    (b"O\n", b"NO,1,L,15,0\n"),
    (b"O,", b"NO,1,L,15,0\n"),
    // field 1 is all bytes up to the first comma: not one letter
    (b"O\r\n", b"NO,1,L,15,1\n"),
    // nineteen good fields without a line feed
    (
        b"O,1,F,1,2,3,4,5,6,7,8,9,10,11,12,13,14,15,16",
        b"NO,1,L,15,0\n",
    ),
    // the same with a bad field: the missing line feed comes first
    (
        b"O,x,F,1,2,3,4,5,6,7,8,9,10,11,12,13,14,15,16",
        b"NO,1,L,15,0\n",
    ),
    // line 1 alone is accepted
    (b"O,1,F,1,2,3,4,5,6,7,8,9,10,11,12,13,14,15,16\n", b"OK,0\n"),
];

#[test]
fn shortest_files(rt: HostRuntime) -> Result<(), Fail> {
    run(&rt, b"", SHORTEST_CASES)
}

// Line 1 refused by its form: 15 and the field. Line 2 below it is never answered.
const LINE_1_FORM_CASES: &[(&[u8], &[u8])] = &[
    // any letter but O
    (
        b"S,1,F,1,2,3,4,5,6,7,8,9,10,11,12,13,14,15,16\nS,0,0,0,0,0,0,0,0,0,0,0,0,0,0,0,0\n",
        b"NO,1,L,15,1\n",
    ),
    (b"T,1,2,1,1,100\n", b"NO,1,L,15,1\n"),
    (b"M,1\n", b"NO,1,L,15,1\n"),
    (
        b"o,1,F,1,2,3,4,5,6,7,8,9,10,11,12,13,14,15,16\n",
        b"NO,1,L,15,1\n",
    ),
    (
        b"OO,1,F,1,2,3,4,5,6,7,8,9,10,11,12,13,14,15,16\n",
        b"NO,1,L,15,1\n",
    ),
    (
        b" O,1,F,1,2,3,4,5,6,7,8,9,10,11,12,13,14,15,16\n",
        b"NO,1,L,15,1\n",
    ),
    // a byte order mark before the letter
    (
        b"\xef\xbb\xbfO,1,F,1,2,3,4,5,6,7,8,9,10,11,12,13,14,15,16\n",
        b"NO,1,L,15,1\n",
    ),
    // an empty line above a good one is line 1
    (
        b"\nO,1,F,1,2,3,4,5,6,7,8,9,10,11,12,13,14,15,16\n",
        b"NO,1,L,15,1\n",
    ),
    // 15 prices
    (
        b"O,1,F,1,2,3,4,5,6,7,8,9,10,11,12,13,14,15\nS,0,0,0,0,0,0,0,0,0,0,0,0,0,0,0,0\n",
        b"NO,1,L,15,0\n",
    ),
    // 17 prices
    (
        b"O,1,F,1,2,3,4,5,6,7,8,9,10,11,12,13,14,15,16,17\n",
        b"NO,1,L,15,0\n",
    ),
    // a comma at the end begins a twentieth field
    (
        b"O,1,F,1,2,3,4,5,6,7,8,9,10,11,12,13,14,15,16,\n",
        b"NO,1,L,15,0\n",
    ),
    // the count comes before field 2
    (b"O,x,F\n", b"NO,1,L,15,0\n"),
    // field 2 is no number; it comes before field 3
    (
        b"O,,F,1,2,3,4,5,6,7,8,9,10,11,12,13,14,15,16\nS,0,0,0,0,0,0,0,0,0,0,0,0,0,0,0,0\n",
        b"NO,1,L,15,2\n",
    ),
    (
        b"O,01,X,1,2,3,4,5,6,7,8,9,10,11,12,13,14,15,16\n",
        b"NO,1,L,15,2\n",
    ),
    (
        b"O,-1,F,1,2,3,4,5,6,7,8,9,10,11,12,13,14,15,16\n",
        b"NO,1,L,15,2\n",
    ),
    // 11 digits
    (
        b"O,10000000000,F,1,2,3,4,5,6,7,8,9,10,11,12,13,14,15,16\n",
        b"NO,1,L,15,2\n",
    ),
    // field 3: a letter that is no method, none, too few, too many
    (
        b"O,1,X,1,2,3,4,5,6,7,8,9,10,11,12,13,14,15,16\n",
        b"NO,1,L,15,3\n",
    ),
    (
        b"O,1,f,1,2,3,4,5,6,7,8,9,10,11,12,13,14,15,16\n",
        b"NO,1,L,15,3\n",
    ),
    (
        b"O,1,,1,2,3,4,5,6,7,8,9,10,11,12,13,14,15,16\n",
        b"NO,1,L,15,3\n",
    ),
    (
        b"O,2,F,1,2,3,4,5,6,7,8,9,10,11,12,13,14,15,16\nS,0,0,0,0,0,0,0,0,0,0,0,0,0,0,0,0\n",
        b"NO,1,L,15,3\n",
    ),
    (
        b"O,1,FD,1,2,3,4,5,6,7,8,9,10,11,12,13,14,15,16\n",
        b"NO,1,L,15,3\n",
    ),
    // no accounts have no methods, and methods are 1 to 64: never cause 1
    (
        b"O,0,,1,2,3,4,5,6,7,8,9,10,11,12,13,14,15,16\n",
        b"NO,1,L,15,3\n",
    ),
    (
        b"O,0,F,1,2,3,4,5,6,7,8,9,10,11,12,13,14,15,16\n",
        b"NO,1,L,15,3\n",
    ),
    (
        b"O,65,FFFFFFFFFFFFFFFFFFFFFFFFFFFFFFFFFFFFFFFFFFFFFFFFFFFFFFFFFFFFFFFFF,1,2,3,4,5,6,7,8,9,10,11,12,13,14,15,16\n",
        b"NO,1,L,15,3\n",
    ),
    (
        b"O,9999999999,F,1,2,3,4,5,6,7,8,9,10,11,12,13,14,15,16\n",
        b"NO,1,L,15,3\n",
    ),
    // field 3 comes before field 4
    (
        b"O,1,X,x,2,3,4,5,6,7,8,9,10,11,12,13,14,15,16\n",
        b"NO,1,L,15,3\n",
    ),
    // prices: 11 digits, a leading zero, a minus, none
    (
        b"O,1,F,10000000000,2,3,4,5,6,7,8,9,10,11,12,13,14,15,16\n",
        b"NO,1,L,15,4\n",
    ),
    (
        b"O,1,F,1,02,3,4,5,6,7,8,9,10,11,12,13,14,15,16\n",
        b"NO,1,L,15,5\n",
    ),
    (
        b"O,1,F,1,2,3,4,5,6,7,-8,9,10,11,12,13,14,15,16\n",
        b"NO,1,L,15,11\n",
    ),
    (
        b"O,1,F,1,2,3,4,5,6,7,8,9,10,11,12,13,14,15,\n",
        b"NO,1,L,15,19\n",
    ),
    // a carriage return belongs to the last field
    (
        b"O,1,F,1,2,3,4,5,6,7,8,9,10,11,12,13,14,15,16\r\nS,0,0,0,0,0,0,0,0,0,0,0,0,0,0,0,0\r\n",
        b"NO,1,L,15,19\n",
    ),
];

#[test]
fn line_1_form(rt: HostRuntime) -> Result<(), Fail> {
    run(&rt, b"", LINE_1_FORM_CASES)
}

// Line 1 tested for 5, after its form.
const LINE_1_PRICE_CASES: &[(&[u8], &[u8])] = &[
    // the smallest and the largest price
    (
        b"O,1,F,1,999999,1,1,1,1,1,1,1,1,1,1,1,1,1,999999\n",
        b"OK,0\n",
    ),
    // 0 and 1,000,000 steps, first and last; line 2 is never answered
    (
        b"O,1,F,0,1,1,1,1,1,1,1,1,1,1,1,1,1,1,1\nS,0,0,0,0,0,0,0,0,0,0,0,0,0,0,0,0\n",
        b"NO,1,B,5,0\n",
    ),
    (b"O,1,F,1,1,1,1,1,1,1,1,1,1,1,1,1,1,1,0\n", b"NO,1,B,5,0\n"),
    (
        b"O,1,F,1000000,1,1,1,1,1,1,1,1,1,1,1,1,1,1,1\n",
        b"NO,1,B,5,0\n",
    ),
    (
        b"O,1,F,1,1,1,1,1,1,1,1,1,1,1,1,1,1,1,1000000\nS,0,0,0,0,0,0,0,0,0,0,0,0,0,0,0,0\nD,1,1\n",
        b"NO,1,B,5,0\n",
    ),
    // 10 digits are a number, and out of range
    (
        b"O,1,F,1,1,1,1,1,1,1,9999999999,1,1,1,1,1,1,1,1\n",
        b"NO,1,B,5,0\n",
    ),
    // the whole line is tested for its form before any range
    (
        b"O,1,F,0,1,1,1,1,1,1,1,1,1,1,1,1,1,1,x\n",
        b"NO,1,L,15,19\n",
    ),
    (b"O,1,F,0,1,1,1,1,1,1,1,1,1,1,1,1,1,1,1", b"NO,1,L,15,0\n"),
    (b"O,2,F,0,1,1,1,1,1,1,1,1,1,1,1,1,1,1,1\n", b"NO,1,L,15,3\n"),
];

#[test]
fn line_1_prices(rt: HostRuntime) -> Result<(), Fail> {
    run(&rt, b"", LINE_1_PRICE_CASES)
}

// Line 2: missing, refused by its form, tested for 16. Refused there, it stops.
const LINE_2_CASES: &[(&[u8], &[u8])] = &[
    // no line 2
    (b"", b""),
    // any letter but S
    (b"\n", b"NO,2,L,15,1\n"),
    (
        b"O,2,FD,1,2,3,4,5,6,7,8,9,10,11,12,13,14,15,16\n",
        b"NO,2,L,15,1\n",
    ),
    (
        b"T,1,2,1,1,100\nS,0,0,0,0,0,0,0,0,0,0,0,0,0,0,0,0\n",
        b"NO,2,L,15,1\n",
    ),
    (b"D,1,5\nM,1\n", b"NO,2,L,15,1\n"),
    (b"s,0,0,0,0,0,0,0,0,0,0,0,0,0,0,0,0\n", b"NO,2,L,15,1\n"),
    (b"\xff", b"NO,2,L,15,1\n"),
    // 15 amounts, 17, none, a comma at the end, no line feed
    (b"S,0,0,0,0,0,0,0,0,0,0,0,0,0,0,0\nM,1\n", b"NO,2,L,15,0\n"),
    (b"S,0,0,0,0,0,0,0,0,0,0,0,0,0,0,0,0,0\n", b"NO,2,L,15,0\n"),
    (b"S\n", b"NO,2,L,15,0\n"),
    (b"S", b"NO,2,L,15,0\n"),
    (b"S,0,0,0,0,0,0,0,0,0,0,0,0,0,0,0,0,\n", b"NO,2,L,15,0\n"),
    (b"S,0,0,0,0,0,0,0,0,0,0,0,0,0,0,0,0", b"NO,2,L,15,0\n"),
    // a bad field
    (b"S,,0,0,0,0,0,0,0,0,0,0,0,0,0,0,0\n", b"NO,2,L,15,2\n"),
    (b"S,0,-1,0,0,0,0,0,0,0,0,0,0,0,0,0,0\n", b"NO,2,L,15,3\n"),
    (b"S,0,0,0,0,0,0,00,0,0,0,0,0,0,0,0,0\n", b"NO,2,L,15,8\n"),
    // 11 digits
    (
        b"S,0,0,0,0,0,0,0,0,0,0,0,0,0,0,0,10000000000\n",
        b"NO,2,L,15,17\n",
    ),
    (
        b"S,0,0,0,0,0,0,0,0,0,0,0,0,0,0,0,0\r\nM,1\r\n",
        b"NO,2,L,15,17\n",
    ),
    // 1,000,000,000 yen are a base amount
    (
        b"S,1000000000,0,0,0,0,0,0,0,0,0,0,0,0,0,0,1000000000\nM,1\n",
        b"OK,0\nM,1,0,0,0,0,0,0,0\n",
    ),
    // one yen more is not, first or last; the run stops
    (
        b"S,1000000001,0,0,0,0,0,0,0,0,0,0,0,0,0,0,0\nM,1\n",
        b"NO,2,S,16,0\n",
    ),
    (
        b"S,0,0,0,0,0,0,0,0,0,0,0,0,0,0,0,1000000001\nD,1,5\n",
        b"NO,2,S,16,0\n",
    ),
    (
        b"S,0,0,0,0,0,9999999999,0,0,0,0,0,0,0,0,0,0\n",
        b"NO,2,S,16,0\n",
    ),
    // the whole line is tested for its form before any range
    (
        b"S,1000000001,0,0,0,0,0,0,0,0,0,0,0,0,0,0,01\n",
        b"NO,2,L,15,17\n",
    ),
    (
        b"S,1000000001,0,0,0,0,0,0,0,0,0,0,0,0,0,0,0",
        b"NO,2,L,15,0\n",
    ),
];

#[test]
fn line_2(rt: HostRuntime) -> Result<(), Fail> {
    run(&rt, LINE_1, LINE_2_CASES)
}

// From line 3 on a line is refused by its form and the run goes on: letters and counts.
const LETTER_CASES: &[(&[u8], &[u8])] = &[
    // each refusal is followed by a good line, which is answered
    (b"\nD,1,5\n", b"NO,3,L,15,1\nOK,1\n"),
    (b"\r\nD,1,5\n", b"NO,3,L,15,1\nOK,1\n"),
    (b",1,5\nD,1,5\n", b"NO,3,L,15,1\nOK,1\n"),
    (b"X,1,5\nD,1,5\n", b"NO,3,L,15,1\nOK,1\n"),
    (b"d,1,5\nD,1,5\n", b"NO,3,L,15,1\nOK,1\n"),
    (b"DD,1,5\nD,1,5\n", b"NO,3,L,15,1\nOK,1\n"),
    (b" D,1,5\nD,1,5\n", b"NO,3,L,15,1\nOK,1\n"),
    (b"D ,1,5\nD,1,5\n", b"NO,3,L,15,1\nOK,1\n"),
    (b"D\0,1,5\nD,1,5\n", b"NO,3,L,15,1\nOK,1\n"),
    (b"\0\nD,1,5\n", b"NO,3,L,15,1\nOK,1\n"),
    (b"\xff,1,5\nD,1,5\n", b"NO,3,L,15,1\nOK,1\n"),
    // D with its high bit set
    (b"\xc4,1,5\nD,1,5\n", b"NO,3,L,15,1\nOK,1\n"),
    // no comma, so all is field 1
    (b"D;1;5\nD,1,5\n", b"NO,3,L,15,1\nOK,1\n"),
    // O and S stand nowhere else, however they go on
    (
        b"O,2,FD,1,2,3,4,5,6,7,8,9,10,11,12,13,14,15,16\nD,1,5\n",
        b"NO,3,L,15,1\nOK,1\n",
    ),
    (
        b"S,0,0,0,0,0,0,0,0,0,0,0,0,0,0,0,0\nD,1,5\n",
        b"NO,3,L,15,1\nOK,1\n",
    ),
    (b"O\nS\nD,1,5\n", b"NO,3,L,15,1\nNO,4,L,15,1\nOK,1\n"),
    // too few fields, too many, a comma at the end
    (b"D\nD,1,5\n", b"NO,3,L,15,0\nOK,1\n"),
    (b"D,1\nD,1,5\n", b"NO,3,L,15,0\nOK,1\n"),
    (b"D,1,5,6\nD,1,5\n", b"NO,3,L,15,0\nOK,1\n"),
    (b"D,1,5,\nD,1,5\n", b"NO,3,L,15,0\nOK,1\n"),
    (
        b"W\nW,1\nW,1,2,3\nD,1,5\n",
        b"NO,3,L,15,0\nNO,4,L,15,0\nNO,5,L,15,0\nOK,1\n",
    ),
    (
        b"M\nM,1,2\nM,1,\nD,1,5\n",
        b"NO,3,L,15,0\nNO,4,L,15,0\nNO,5,L,15,0\nOK,1\n",
    ),
    // the count comes before a bad field
    (b"D,x\nM,x,y\nD,1,5\n", b"NO,3,L,15,0\nNO,4,L,15,0\nOK,1\n"),
];

#[test]
fn later_letters(rt: HostRuntime) -> Result<(), Fail> {
    run(&rt, TWO, LETTER_CASES)
}

// From line 3 on: bad fields. A line is tested for them before any other cause.
const FIELD_CASES: &[(&[u8], &[u8])] = &[
    (b"D,,5\nD,1,5\n", b"NO,3,L,15,2\nOK,1\n"),
    (b"D,1,\nD,1,5\n", b"NO,3,L,15,3\nOK,1\n"),
    (b"D,,\nM,\n", b"NO,3,L,15,2\nNO,4,L,15,2\n"),
    // leading zeros
    (
        b"D,01,5\nD,1,05\nD,1,00\nM,01\n",
        b"NO,3,L,15,2\nNO,4,L,15,3\nNO,5,L,15,3\nNO,6,L,15,2\n",
    ),
    // signs
    (
        b"D,-1,5\nD,1,-5\nW,1,+5\nD,1,-0\n",
        b"NO,3,L,15,2\nNO,4,L,15,3\nNO,5,L,15,3\nNO,6,L,15,3\n",
    ),
    // spaces and a tab
    (
        b"D, 1,5\nD,1 ,5\nD,1, 5\nD,1,5 \nM,\t1\n",
        b"NO,3,L,15,2\nNO,4,L,15,2\nNO,5,L,15,3\nNO,6,L,15,3\nNO,7,L,15,2\n",
    ),
    // the zero byte
    (
        b"D,1\0,5\nD,1,5\0\nM,\0\nD,1,\x005\n",
        b"NO,3,L,15,2\nNO,4,L,15,3\nNO,5,L,15,2\nNO,6,L,15,3\n",
    ),
    // high bytes: 255, a digit with its high bit set, a wide digit
    (
        b"D,\xff,5\nD,1,\xb5\nM,\xef\xbc\x91\n",
        b"NO,3,L,15,2\nNO,4,L,15,3\nNO,5,L,15,2\n",
    ),
    // lines that end in carriage return and line feed
    (
        b"D,1,5\r\nM,1\r\nD,1,5\n",
        b"NO,3,L,15,3\nNO,4,L,15,2\nOK,1\n",
    ),
    // the bytes just below and above the digits, and other ways to write a number
    (
        b"M,/\nM,:\nD,1,1e3\nD,1,0x1\nD,1,1.0\nD,1,1_0\n",
        b"NO,3,L,15,2\nNO,4,L,15,2\nNO,5,L,15,3\nNO,6,L,15,3\nNO,7,L,15,3\nNO,8,L,15,3\n",
    ),
    // 11 digits
    (
        b"D,10000000000,5\nD,1,10000000000\nM,18446744073709551617\n",
        b"NO,3,L,15,2\nNO,4,L,15,3\nNO,5,L,15,2\n",
    ),
    // before cause 2 and cause 13
    (
        b"D,0,x\nW,3,00\nD,9999999999,\n",
        b"NO,3,L,15,3\nNO,4,L,15,3\nNO,5,L,15,3\n",
    ),
    // the first bad field
    (b"D,x,y\nW,01,02\n", b"NO,3,L,15,2\nNO,4,L,15,2\n"),
];

#[test]
fn later_fields(rt: HostRuntime) -> Result<(), Fail> {
    run(&rt, TWO, FIELD_CASES)
}

// Deposits: 2, then 13.
const DEPOSIT_CASES: &[(&[u8], &[u8])] = &[
    // the smallest and the largest amount, to both accounts
    (
        b"D,1,1\nD,2,1000000000\nM,1\nM,2\n",
        b"OK,1\nOK,2\nM,1,1,0,0,0,0,0,1\nM,2,1000000000,0,0,0,0,0,1000000000\n",
    ),
    // 2 alone: 0, the first number above the accounts, the largest number
    (
        b"D,0,1\nD,3,1\nD,9999999999,1\n",
        b"NO,3,B,2,0\nNO,4,B,2,3\nNO,5,B,2,9999999999\n",
    ),
    // numbers that a narrower integer would take for account 1
    (
        b"D,257,1\nD,65537,1\nD,4294967297,1\nM,1\n",
        b"NO,3,B,2,257\nNO,4,B,2,65537\nNO,5,B,2,4294967297\nM,1,0,0,0,0,0,0,0\n",
    ),
    // 13 alone
    (
        b"D,1,0\nD,1,1000000001\nD,1,4294967297\nD,1,9999999999\nM,1\n",
        b"NO,3,B,13,0\nNO,4,B,13,0\nNO,5,B,13,0\nNO,6,B,13,0\nM,1,0,0,0,0,0,0,0\n",
    ),
    // 2 before 13
    (
        b"D,0,0\nD,3,1000000001\nD,9999999999,9999999999\n",
        b"NO,3,B,2,0\nNO,4,B,2,3\nNO,5,B,2,9999999999\n",
    ),
    // deposits add up past what one may be, and past 32 bits
    (
        b"D,1,1000000000\nD,1,1000000000\nD,1,1000000000\nD,1,1000000000\nD,1,1000000000\nM,1\n",
        b"OK,1\nOK,2\nOK,3\nOK,4\nOK,5\nM,1,5000000000,0,0,0,0,0,5000000000\n",
    ),
    // refused lines take no entry number and leave the yen as they were
    (
        b"D,1,10\nD,0,1\nD,2,20\nD,1,0\nx\nM,1\nD,1,30\nD,1,1,1\nM,9\nM,2\nD,2,40\nM,1\nM,2\n",
        b"OK,1\nNO,4,B,2,0\nOK,2\nNO,6,B,13,0\nNO,7,L,15,1\nM,1,10,0,0,0,0,0,10\nOK,3\nNO,10,L,15,0\nNO,11,B,2,9\nM,2,20,0,0,0,0,0,20\nOK,4\nM,1,40,0,0,0,0,0,40\nM,2,60,0,0,0,0,0,60\n",
    ),
];

#[test]
fn deposits(rt: HostRuntime) -> Result<(), Fail> {
    run(&rt, TWO, DEPOSIT_CASES)
}

// Withdrawals: 2, then 13, then 14.
const WITHDRAWAL_CASES: &[(&[u8], &[u8])] = &[
    // part of a deposit, then the rest, then one yen too many
    (
        b"D,1,100\nW,1,40\nM,1\nW,1,60\nM,1\nW,1,1\n",
        b"OK,1\nOK,2\nM,1,60,0,0,0,0,0,60\nOK,3\nM,1,0,0,0,0,0,0,0\nNO,8,B,14,0\n",
    ),
    // 14 alone: its detail is what may be withdrawn; the other account's yen do not count
    (
        b"W,1,1\nD,1,100\nD,2,1000\nW,1,101\nW,1,1000000000\nW,1,100\nW,2,1001\nM,2\n",
        b"NO,3,B,14,0\nOK,1\nOK,2\nNO,6,B,14,100\nNO,7,B,14,100\nOK,3\nNO,9,B,14,1000\nM,2,1000,0,0,0,0,0,1000\n",
    ),
    // 2 alone
    (
        b"D,1,5\nW,0,1\nW,3,1\nW,9999999999,1\nM,1\n",
        b"OK,1\nNO,4,B,2,0\nNO,5,B,2,3\nNO,6,B,2,9999999999\nM,1,5,0,0,0,0,0,5\n",
    ),
    // 13 alone: 0 yen; and more than 1,000,000,000 of 2,000,000,000
    (
        b"D,1,1000000000\nD,1,1000000000\nW,1,0\nW,1,1000000001\nW,1,1000000000\nM,1\n",
        b"OK,1\nOK,2\nNO,5,B,13,0\nNO,6,B,13,0\nOK,3\nM,1,1000000000,0,0,0,0,0,1000000000\n",
    ),
    // 2 before 13
    (
        b"W,0,0\nW,3,1000000001\nW,9999999999,0\n",
        b"NO,3,B,2,0\nNO,4,B,2,3\nNO,5,B,2,9999999999\n",
    ),
    // 2 before 14: nothing may be withdrawn by an account that is not in the book
    (b"W,0,1000000000\nW,3,1\n", b"NO,3,B,2,0\nNO,4,B,2,3\n"),
    // 13 before 14
    (
        b"W,1,1000000001\nD,1,5\nW,1,9999999999\nW,1,0\nM,1\n",
        b"NO,3,B,13,0\nOK,1\nNO,5,B,13,0\nNO,6,B,13,0\nM,1,5,0,0,0,0,0,5\n",
    ),
    // the detail of 14 may be past 32 bits
    (
        b"D,2,1000000000\nD,2,1000000000\nD,2,1000000000\nD,2,1000000000\nD,2,1000000000\nW,2,999999999\nW,2,1000000000\nW,2,1000000000\nW,2,1000000000\nW,2,1000000000\nW,2,3\nM,2\n",
        b"OK,1\nOK,2\nOK,3\nOK,4\nOK,5\nOK,6\nOK,7\nOK,8\nOK,9\nOK,10\nNO,13,B,14,1\nM,2,1,0,0,0,0,0,1\n",
    ),
    // refused withdrawals take no entry number
    (
        b"D,1,10\nW,1,11\nW,1,0\nW,3,1\nW,1\nW,1,4\nW,1,7\nW,1,6\nD,2,1\n",
        b"OK,1\nNO,4,B,14,10\nNO,5,B,13,0\nNO,6,B,2,3\nNO,7,L,15,0\nOK,2\nNO,9,B,14,6\nOK,3\nOK,4\n",
    ),
];

#[test]
fn withdrawals(rt: HostRuntime) -> Result<(), Fail> {
    run(&rt, TWO, WITHDRAWAL_CASES)
}

// Reports: 2, and the seven figures where nothing is open.
const REPORT_CASES: &[(&[u8], &[u8])] = &[
    // fresh accounts
    (b"M,1\nM,2\n", b"M,1,0,0,0,0,0,0,0\nM,2,0,0,0,0,0,0,0\n"),
    // accounts that are not in the book
    (
        b"M,0\nM,3\nM,65\nM,9999999999\n",
        b"NO,3,B,2,0\nNO,4,B,2,3\nNO,5,B,2,65\nNO,6,B,2,9999999999\n",
    ),
    (
        b"M,258\nM,4294967298\n",
        b"NO,3,B,2,258\nNO,4,B,2,4294967298\n",
    ),
    // funded, then drawn out; reports take no entry number and alter nothing
    (
        b"D,2,500000\nM,2\nM,2\nM,1\nW,2,500000\nM,2\nD,2,1\nM,2\n",
        b"OK,1\nM,2,500000,0,0,0,0,0,500000\nM,2,500000,0,0,0,0,0,500000\nM,1,0,0,0,0,0,0,0\nOK,2\nM,2,0,0,0,0,0,0,0\nOK,3\nM,2,1,0,0,0,0,0,1\n",
    ),
];

// Reports of other books.
const OTHER_BOOK_CASES: &[(&[u8], &[u8])] = &[
    // a base amount asks nothing of an account without lots
    (
        b"O,2,DF,1,1,1,1,1,1,1,1,1,1,1,1,1,1,1,1\nS,1000000000,1000000000,1000000000,1000000000,1000000000,1000000000,1000000000,1000000000,1000000000,1000000000,1000000000,1000000000,1000000000,1000000000,1000000000,1000000000\nD,1,7\nM,1\nW,1,8\nW,1,7\n",
        b"OK,0\nOK,0\nOK,1\nM,1,7,0,0,0,0,0,7\nNO,5,B,14,7\nOK,2\n",
    ),
    // a book of one account
    (
        b"O,1,D,1,1,1,1,1,1,1,1,1,1,1,1,1,1,1,1\nS,0,0,0,0,0,0,0,0,0,0,0,0,0,0,0,0\nM,1\nM,2\nD,2,1\nD,1,1\nW,2,1\nW,1,1\n",
        b"OK,0\nOK,0\nM,1,0,0,0,0,0,0,0\nNO,4,B,2,2\nNO,5,B,2,2\nOK,1\nNO,7,B,2,2\nOK,2\n",
    ),
];

#[test]
fn reports(rt: HostRuntime) -> Result<(), Fail> {
    run(&rt, TWO, REPORT_CASES)?;
    run(&rt, b"", OTHER_BOOK_CASES)
}

// A last line without a line feed is refused with 0, or with 1 for its letter, and is not served.
const LAST_LINE_CASES: &[(&[u8], &[u8])] = &[
    // lines 1 and 2 alone
    (b"", b""),
    // the earlier lines are served
    (b"D,1,5\nD,1,6", b"OK,1\nNO,4,L,15,0\n"),
    (b"D,1,5\nM,1", b"OK,1\nNO,4,L,15,0\n"),
    (b"D,1,5\nW,1,5", b"OK,1\nNO,4,L,15,0\n"),
    // 0 comes before a bad field and before every later cause
    (b"D,1,5\nD,x,y", b"OK,1\nNO,4,L,15,0\n"),
    (b"D,1,5\nD,9,0", b"OK,1\nNO,4,L,15,0\n"),
    (b"M", b"NO,3,L,15,0\n"),
    // a wrong letter comes first
    (b"D,1,5\nX", b"OK,1\nNO,4,L,15,1\n"),
    (b"D,1,5\n\r", b"OK,1\nNO,4,L,15,1\n"),
    (
        b"D,1,5\nS,0,0,0,0,0,0,0,0,0,0,0,0,0,0,0,0",
        b"OK,1\nNO,4,L,15,1\n",
    ),
    // trades, declarations and rollovers alike
    (b"D,1,5\nT,1,2,1,1,100", b"OK,1\nNO,4,L,15,0\n"),
    (b"D,1,5\nC,2,1,1,1,1", b"OK,1\nNO,4,L,15,0\n"),
    (
        b"R,1,1,2,3,4,5,6,7,8,9,10,11,12,13,14,15,16,0,0,0,0,0,0,0,0,0,0,0,0,0,0,0,0",
        b"NO,3,L,15,0\n",
    ),
    // nothing after the last line feed is no line, but an empty line is one
    (b"D,1,5\n", b"OK,1\n"),
    (b"D,1,5\n\n", b"OK,1\nNO,4,L,15,1\n"),
    (b"\n\n\n", b"NO,3,L,15,1\nNO,4,L,15,1\nNO,5,L,15,1\n"),
];

#[test]
fn last_lines(rt: HostRuntime) -> Result<(), Fail> {
    run(&rt, TWO, LAST_LINE_CASES)
}

// At a well-formed R the run ends; one that is not well formed is refused and the run goes on.
const UNSERVED_CASES: &[(&[u8], &[u8], usize, u8)] = &[
    // the answers above it are printed, and nothing below
    (
        b"R,1,1,2,3,4,5,6,7,8,9,10,11,12,13,14,15,16,0,0,0,0,0,0,0,0,0,0,0,0,0,0,0,0\n",
        b"",
        3,
        b'R',
    ),
    (
        b"D,1,5\nR,1,1,2,3,4,5,6,7,8,9,10,11,12,13,14,15,16,0,0,0,0,0,0,0,0,0,0,0,0,0,0,0,0\nD,1,6\nM,1\n",
        b"OK,1\n",
        4,
        b'R',
    ),
    (
        b"D,1,5\nx\nT,1,2,2,1,100000\nM,1\nR,1,1,2,3,4,5,6,7,8,9,10,11,12,13,14,15,16,0,0,0,0,0,0,0,0,0,0,0,0,0,0,0,0\nM,1\n",
        b"OK,1\nNO,4,L,15,1\nOK,2\nM,1,5,0,0,0,0,0,5\n",
        7,
        b'R',
    ),
    (
        b"M,2\nR,1,1,2,3,4,5,6,7,8,9,10,11,12,13,14,15,16,-20,0,0,0,0,0,0,0,0,0,0,0,0,0,0,-10000\nM,2\n",
        b"M,2,0,0,0,0,0,0,0\n",
        4,
        b'R',
    ),
    // no other cause is tested there
    (
        b"R,2,0,0,0,0,0,0,0,0,0,0,0,0,0,0,0,0,-10001,0,0,0,0,0,0,0,0,0,0,0,0,0,0,9999999999\n",
        b"",
        3,
        b'R',
    ),
    // the first such line ends the run
    (
        b"R,1,1,2,3,4,5,6,7,8,9,10,11,12,13,14,15,16,0,0,0,0,0,0,0,0,0,0,0,0,0,0,0,0\nT,1,2,1,1,100\nR,1,1,2,3,4,5,6,7,8,9,10,11,12,13,14,15,16,0,0,0,0,0,0,0,0,0,0,0,0,0,0,0,0\n",
        b"",
        3,
        b'R',
    ),
    // a last line without a line feed below it is never read
    (
        b"R,1,1,2,3,4,5,6,7,8,9,10,11,12,13,14,15,16,0,0,0,0,0,0,0,0,0,0,0,0,0,0,0,0\nD,1",
        b"",
        3,
        b'R',
    ),
    // a badly formed one, then a well-formed one
    (
        b"R,1\nR,1,1,2,3,4,5,6,7,8,9,10,11,12,13,14,15,16,0,0,0,0,0,0,0,0,0,0,0,0,0,0,0,0\n",
        b"NO,3,L,15,0\n",
        4,
        b'R',
    ),
];

const REFUSED_CASES: &[(&[u8], &[u8])] = &[
    // refused by its form
    (
        b"T,1,2,1,1\nT,1,2,1,1,100,1\nT\nD,1,5\n",
        b"NO,3,L,15,0\nNO,4,L,15,0\nNO,5,L,15,0\nOK,1\n",
    ),
    (
        b"T,x,2,1,1,100\nT,1,2,1,1,-100\nT,1,2,01,1,100\nD,1,5\n",
        b"NO,3,L,15,2\nNO,4,L,15,6\nNO,5,L,15,4\nOK,1\n",
    ),
    (
        b"C,2,1,1,1\nC,2,1,1,1,1,1\nC,2,1,-1,1,1\nC,2,1,1,1,\nD,1,5\n",
        b"NO,3,L,15,0\nNO,4,L,15,0\nNO,5,L,15,4\nNO,6,L,15,6\nOK,1\n",
    ),
    (
        b"R,1\nR,1,1,2,3,4,5,6,7,8,9,10,11,12,13,14,15,16,0,0,0,0,0,0,0,0,0,0,0,0,0,0,0,-0\nM,1\n",
        b"NO,3,L,15,0\nNO,4,L,15,34\nM,1,0,0,0,0,0,0,0\n",
    ),
    (
        b"R,-1,1,2,3,4,5,6,7,8,9,10,11,12,13,14,15,16,0,0,0,0,0,0,0,0,0,0,0,0,0,0,0,0\nM,1\n",
        b"NO,3,L,15,2\nM,1,0,0,0,0,0,0,0\n",
    ),
];

#[test]
fn calls_not_served(rt: HostRuntime) -> Result<(), Fail> {
    run_unserved(&rt, UNSERVED_CASES)?;
    run(&rt, TWO, REFUSED_CASES)
}

// Lines 1 and 2 of a book of 64 accounts.
const SIXTY_FOUR: &[u8] =
    b"O,64,FDFDFDFDFDFDFDFDFDFDFDFDFDFDFDFDFDFDFDFDFDFDFDFDFDFDFDFDFDFDFDFD,1,1,1,1,1,1,1,1,1,1,1,1,1,1,1,1\nS,0,0,0,0,0,0,0,0,0,0,0,0,0,0,0,0\n";

// Lines 67 to 71, below 64 deposits, and what is printed for them.
const BETWEEN: &[u8] = b"D,65,1\nW,65,1\nM,65\nW,64,65\nW,33,3\n";

const ANSWERS_BETWEEN: &[u8] = b"NO,67,B,2,65\nNO,68,B,2,65\nNO,69,B,2,65\nNO,70,B,14,64\nOK,65\n";

// 64 accounts are paid as many yen as their number and reported, but account 33 draws 3 of its 33 in between; account 65 is
// not in the book.
#[test]
fn sixty_four_accounts(rt: HostRuntime) -> Result<(), Fail> {
    let heap = rt.alloc();
    let paid = each(
        heap,
        1,
        64,
        |account| format!(in heap; "D,{account},{account}\n"),
    )?;
    let asked = each(heap, 1, 64, |account| format!(in heap; "M,{account}\n"))?;
    let reported = each(heap, 1, 64, |account| {
        let yen = if account == 33 {
            30
        } else {
            i64::from(account)
        };
        report(heap, account, [yen, 0, 0, 0, 0, 0, yen])
    })?;
    let lines = joined(heap, &[paid.as_slice(), BETWEEN, asked.as_slice()])?;
    let deposits = accepted(heap, 1, 64)?;
    let text = joined(
        heap,
        &[deposits.as_slice(), ANSWERS_BETWEEN, reported.as_slice()],
    )?;
    run(&rt, SIXTY_FOUR, &[(lines.as_slice(), text.as_slice())])
}

// A file of 65,536 bytes: 157 of lines 1 and 2, 10,890 deposits of 6 bytes, 5 of 7 and a report of 4.
fn largest_file(heap: Global) -> Result<Vec<u8>, AllocError> {
    let mut input = TWO.to_vec(heap)?;
    repeat(&mut input, b"D,1,1\n", 10_890)?;
    repeat(&mut input, b"D,2,10\n", 5)?;
    input.extend_from_slice(b"M,1\n")?;
    Ok(input)
}

// It is served in full.
#[test]
fn at_the_limit(rt: HostRuntime) -> Result<(), Fail> {
    let heap = rt.alloc();
    let input = largest_file(heap)?;
    assert_eq!(rt; input.len(), 65_536);
    let deposits = accepted(heap, 1, 10_895)?;
    let text = joined(
        heap,
        &[
            b"OK,0\nOK,0\n",
            deposits.as_slice(),
            b"M,1,10890,0,0,0,0,0,10890\n",
        ],
    )?;
    run(&rt, b"", &[(input.as_slice(), text.as_slice())])
}

// One byte more, whichever it is, and nothing is served.
#[test]
fn above_the_limit(rt: HostRuntime) -> Result<(), Fail> {
    let heap = rt.alloc();
    for byte in [b'\n', b'x', 0] {
        let mut input = largest_file(heap)?;
        input.push(byte)?;
        assert_eq!(rt; input.len(), 65_537);
        run(&rt, b"", &[(input.as_slice(), b"NO,0,L,15,0\n")])?;
    }
    let mut input = largest_file(heap)?;
    repeat(&mut input, b"D,1,1\n", 60_000)?;
    run(&rt, b"", &[(input.as_slice(), b"NO,0,L,15,0\n")])
}

// 65,536 bytes without a line feed are one line, which wants its line feed; 65,537 are too many.
#[test]
fn one_line(rt: HostRuntime) -> Result<(), Fail> {
    let heap = rt.alloc();
    let mut input = b"O,".to_vec(heap)?;
    repeat(&mut input, b"1", 65_534)?;
    run(&rt, b"", &[(input.as_slice(), b"NO,1,L,15,0\n")])?;
    input.push(b'1')?;
    run(&rt, b"", &[(input.as_slice(), b"NO,0,L,15,0\n")])
}

// 65,536 commas: field 1 is empty.
#[test]
fn only_commas(rt: HostRuntime) -> Result<(), Fail> {
    let heap = rt.alloc();
    let mut input = Vec::new(heap);
    repeat(&mut input, b",", 65_536)?;
    run(&rt, b"", &[(input.as_slice(), b"NO,1,L,15,1\n")])
}

// An amount of 60,000 digits is a bad field 3, and 3,001 fields are a wrong count.
#[test]
fn longest_lines(rt: HostRuntime) -> Result<(), Fail> {
    let heap = rt.alloc();
    let mut lines = b"D,1,".to_vec(heap)?;
    repeat(&mut lines, b"1", 60_000)?;
    lines.extend_from_slice(b"\nD,1,5\nM")?;
    repeat(&mut lines, b",", 3_000)?;
    lines.extend_from_slice(b"\nD,1,6\n")?;
    run(
        &rt,
        TWO,
        &[(lines.as_slice(), b"NO,3,L,15,3\nOK,1\nNO,5,L,15,0\nOK,2\n")],
    )
}

// The most lines: 65,536 bytes, where after lines 1 and 2 all but six are line feeds, each an empty line, and a deposit
// comes last.
#[test]
fn most_lines(rt: HostRuntime) -> Result<(), Fail> {
    let heap = rt.alloc();
    let mut lines = Vec::new(heap);
    repeat(&mut lines, b"\n", 65_536 - 157 - 6)?;
    lines.extend_from_slice(b"D,1,1\n")?;
    let mut text = each(
        heap,
        3,
        65_375,
        |line| format!(in heap; "NO,{line},L,15,1\n"),
    )?;
    text.extend_from_slice(b"OK,1\n")?;
    run(&rt, TWO, &[(lines.as_slice(), text.as_slice())])
}

// Account, yen and cause, where all entries are taken.
const DEPOSITS_TOO_LATE: &[(u64, u64, Refusal)] = &[
    // good but for the entries
    (1, 1, Refusal::Entries),
    // 9 before 13
    (1, 0, Refusal::Entries),
    (1, 1_000_000_001, Refusal::Entries),
    // 2 before 9
    (2, 0, Refusal::Account(2)),
    (0, 1, Refusal::Account(0)),
];

// The same for withdrawals of 20,000 yen that are there.
const WITHDRAWALS_TOO_LATE: &[(u64, u64, Refusal)] = &[
    // good but for the entries
    (1, 1, Refusal::Entries),
    (1, 20_000, Refusal::Entries),
    // 9 before 13
    (1, 0, Refusal::Entries),
    (1, 1_000_000_001, Refusal::Entries),
    // 9 before 14
    (1, 20_001, Refusal::Entries),
    // 2 before 9
    (2, 0, Refusal::Account(2)),
    (0, 1, Refusal::Account(0)),
];

// What is left after 20,000 deposits of 1 yen.
const PAID: MarginReport = MarginReport {
    deposit: Yen(20_000),
    settled: Yen(0),
    unsettled: Yen(0),
    base: Yen(0),
    required: Yen(0),
    shortfall: Yen(0),
    withdrawable: Yen(20_000),
};

// Each is refused for its cause, and the reports are as before.
fn is_full(rt: &impl Abort, book: &mut Book, schedule: &Published) {
    each_is_refused(
        rt,
        DEPOSITS_TOO_LATE,
        |(account, yen, cause)| (book.deposit(*account, *yen), *cause),
    );
    each_is_refused(
        rt,
        WITHDRAWALS_TOO_LATE,
        |(account, yen, cause)| (book.withdraw(schedule, *account, *yen), *cause),
    );
    assert_eq!(rt; book.report(schedule, 1), Ok(PAID));
    assert_eq!(rt; book.report(schedule, 2), Err(Refusal::Account(2)));
}

// No file holds 20,000 entries, so the book itself is asked: after them, 9 comes before 13 and 14 and after 2.
#[test]
fn all_entries(rt: HostRuntime) -> Result<(), Fail> {
    let mut lots = [Lot::EMPTY; 2];
    let mut slips = [Slip::EMPTY; 1_000];
    let schedule = Published {
        amounts: Amounts::check([0; 16])?,
    };
    let opening = Opening::check(1, &PRICES, 2, 1_000)?;
    let mut book = Book::open(opening, &mut lots, &mut slips);
    take_entries(&rt, &mut book, 1);
    is_full(&rt, &mut book, &schedule);
    Ok(())
}

// Accounts, last price, lot places, slip places, and why an opening with them is refused, if it is.
const OPENING_CASES: &[(u64, u64, usize, usize, Option<Refusal>)] = &[
    // the ends of each range
    (1, 1, 2, 1_000, None),
    (64, 999_999, 4_096, 8_192, None),
    // 1: just past them
    (0, 1, 2, 1_000, Some(Refusal::Opening)),
    (65, 1, 2, 1_000, Some(Refusal::Opening)),
    (4_294_967_297, 1, 2, 1_000, Some(Refusal::Opening)),
    (1, 1, 1, 1_000, Some(Refusal::Opening)),
    (1, 1, 4_097, 1_000, Some(Refusal::Opening)),
    (1, 1, 2, 999, Some(Refusal::Opening)),
    (1, 1, 2, 8_193, Some(Refusal::Opening)),
    // 5
    (1, 0, 2, 1_000, Some(Refusal::Figure)),
    (1, 1_000_000, 2, 1_000, Some(Refusal::Figure)),
    // 1 before 5
    (65, 0, 2, 1_000, Some(Refusal::Opening)),
    (1, 0, 1, 1_000, Some(Refusal::Opening)),
    (1, 1_000_000, 2, 999, Some(Refusal::Opening)),
];

// No file is refused for 1, so the library is asked.
#[test]
fn openings(rt: HostRuntime) {
    for (i, (accounts, price, lots, slips, cause)) in OPENING_CASES.iter().enumerate() {
        let mut prices = PRICES;
        prices[15] = *price;
        let found = Opening::check(*accounts, &prices, *lots, *slips);
        assert_eq!(rt; found.err(), *cause, "{}", i);
    }
}
