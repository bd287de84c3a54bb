// What is answered to the lines of an input, and why serving stops at one.
ghost use Rattle.std.specs.Prelude.{◌≡◌, Some};
ghost use Rattle.desk.specs.Answers.{accepted_text, answer_text, three_text, unserved_text};
ghost use Rattle.desk.specs.declared.answers.Stop.TheVariants.{OutOfMemory};

use refusals::Refusal;
use report::MarginReport;
use std::alloc::AllocError;
use std::error::Error;
use std::fmt;

// The line of a call that is not served yet, and the letter of the call: a call is known by its letter, a rule of the project.
#[derive(Clone, Copy, PartialEq, Eq, Debug)]
pub struct Unserved {
    pub line: usize,
    pub letter: u8,
}

impl fmt::Display for Unserved {
    ghost output = { λ u. Some (unserved_text u) };

    fn fmt<W: fmt::Write>(&self, f: &mut fmt::Formatter<W>) -> fmt::Result {
        let line = self.line;
        let letter = char::from(self.letter);
        write!(f, "line {line}: the call {letter} is not served yet")
    }
}

impl Error for Unserved {}

// Why serving stops before the input ends.
#[derive(Clone, Copy)]
pub(super) enum Stop {
    Unserved(Unserved),
    OutOfMemory(AllocError),
}

impl From<AllocError> for Stop {
    ghost from_gives = { λ error stop. stop ≡ OutOfMemory error };

    fn from(error: AllocError) -> Stop {
        Stop::OutOfMemory(error)
    }
}

// What is told where a line is accepted: an entry number, or an account and its report.
#[derive(Clone, Copy)]
pub(super) enum Accepted {
    Entry(u32),
    Figures(u64, MarginReport),
}

// Three figures, each with a comma before it.
#[derive(Clone, Copy)]
struct Three(i64, i64, i64);

impl fmt::Display for Three {
    ghost output = { λ t. Some (three_text t.0 t.1 t.2) };

    fn fmt<W: fmt::Write>(&self, f: &mut fmt::Formatter<W>) -> fmt::Result {
        write!(f, ",{},{},{}", self.0, self.1, self.2)
    }
}

// OK,entry, or M,account and the seven figures.
impl fmt::Display for Accepted {
    ghost output = { λ a. Some (accepted_text a) };

    fn fmt<W: fmt::Write>(&self, f: &mut fmt::Formatter<W>) -> fmt::Result {
        match self {
            Accepted::Entry(entry) => writeln!(f, "OK,{entry}"),
            Accepted::Figures(account, report) => {
                let held = Three(report.deposit.0, report.settled.0, report.unsettled.0);
                let asked = Three(report.base.0, report.required.0, report.shortfall.0);
                let withdrawable = report.withdrawable.0;
                writeln!(f, "M,{account}{held}{asked},{withdrawable}")
            }
        }
    }
}

// The answer to a line.
#[derive(Clone, Copy)]
pub(super) struct Answer {
    pub line: usize,
    pub told: Result<Accepted, Refusal>,
}

// A refusal is NO,line,layer,number,detail.
impl fmt::Display for Answer {
    ghost output = { λ a. Some (answer_text a.line a.told) };

    fn fmt<W: fmt::Write>(&self, f: &mut fmt::Formatter<W>) -> fmt::Result {
        match self.told {
            Ok(accepted) => write!(f, "{accepted}"),
            Err(refusal) => writeln!(f, "NO,{},{refusal}", self.line),
        }
    }
}
