//! A day under way: its register and sheets, and what is printed of it so far.
ghost use Rattle.std.specs.Prelude.{◌≡◌, ◌<◌, ◌^◌, [], ◌∷◌, IfOk, OnOk};
ghost use Rattle.pool.specs.Held.{held};
ghost use Rattle.day.specs.Law.{Goes};
ghost use Rattle.day_file.specs.Lines.{lines};
ghost use Rattle.day_file.specs.Courses.{IsBlank, Makes, MakesOne};

use crate::calls::call_of;
use crate::lines::Lines;
use crate::tally::Tally;
use answer_text::answer_line;
use day::claims::lists_go_on;
use day::lent::make_all;
use day_text::pairs::pairs_of;
use day_text::parse::parse;
use ledger::accounts::Ledger;
use pool::call::{Answer, Call};
use refusals::Refusal;
use sheets::register::Register;
use sheets::row::Row;
use std::alloc::{AllocError, Global};

/// A day under way.
#[derive(Drop)]
pub struct Course {
    /// The facilities and the prices so far.
    pub register: Register,
    /// The sheets, one for each interval.
    pub rows: Vec<Row>,
    /// What is printed so far.
    pub text: Vec<u8>,
    /// The calls so far.
    pub tally: Tally,
}

// Makes a single call.
fn made<L: Ledger>(
    register: &mut Register,
    rows: &mut [Row],
    ledger: &mut L,
    call: Call,
) -> Result<Answer, Refusal>
    ensures { Goes L.view L.took (held register.old rows.old) ledger.old
        (call.entry ∷ []) (result ∷ []) (held register.new rows.new) ledger.new }
{
    let mut answers = [Err(Refusal::Sequence)];
    make_all(register, rows, ledger, &[call], &mut answers).unwrap();
    answers[0]
}

impl Course {
    /// No call is made yet.
    pub fn blank(heap: Global, sheets: usize) -> Result<Course, AllocError>
        ensures { IfOk result (λ c. IsBlank sheets c) }
    {
        Ok(Course {
            register: Register::blank(),
            rows: vec![in heap; Row::blank(); sheets]?,
            text: Vec::new(heap),
            tally: Tally::none(),
        })
    }

    // Makes the call of line number, and tells what it is answered.
    fn make<L: Ledger>(&mut self, ledger: &mut L, number: u64, call: Call) -> Result<(), AllocError>
        requires { self.old.tally.calls < 2 ^ 63 }
        ensures { OnOk result
            (MakesOne L.view L.took number call.entry self.old ledger.old self.new ledger.new) }
    {
        let answer = made(&mut self.register, self.rows.as_mut_slice(), ledger, call);
        self.tally = self.tally.with(answer);
        self.text
            .extend_from_slice(answer_line(number, answer).bytes())?;
        Ok(())
    }

    // Makes the call of the line, if it is one.
    fn take<L: Ledger>(
        &mut self,
        heap: Global,
        ledger: &mut L,
        number: u64,
        line: &[u8],
    ) -> Result<(), AllocError>
        requires { self.old.tally.calls < 2 ^ 63 }
        ensures { OnOk result (Makes L.view L.took number (line.now ∷ [])
            self.old ledger.old self.new ledger.new) }
    {
        let Ok(said) = parse(line) else {
            return Ok(());
        };
        let pairs = pairs_of(heap, line)?;
        match call_of(said, pairs.as_slice()) {
            Some(call) => self.make(ledger, number, call),
            None => Ok(()),
        }
    }

    /// Makes the calls of all lines, one after the other.
    pub fn run<L: Ledger>(
        &mut self,
        heap: Global,
        ledger: &mut L,
        file: &[u8],
    ) -> Result<(), AllocError>
        requires { self.old.tally.calls ≡ 0 }
        ensures { OnOk result (Makes L.view L.took 1 (lines file.now)
            self.old ledger.old self.new ledger.new) }
    {
        lists_go_on::<L>();
        let mut lines = Lines::of(file);
        while let Some((number, line)) = lines.next() {
            self.take(heap, ledger, number, line)?;
        }
        Ok(())
    }
}
