//! A day from blank.
ghost use Rattle.std.specs.Prelude.{◌≡◌, List, length, IfOk, Option, OnErr};
ghost use Rattle.sheets.specs.declared.facility.Facility.{Facility};
ghost use Rattle.sheets.specs.declared.facility.Prices.{Prices};
ghost use Rattle.day.specs.Book.{blank};
ghost use Rattle.day.specs.Law.{Law, written};

use crate::lent::make_all;
use crate::unanswered::unanswered;
use ledger::accounts::Ledger;
use pool::call::{Answer, Call};
use refusals::Refusal;
use sheets::register::Register;
use sheets::row::Row;
use std::alloc::{AllocError, Global};

/// Makes the calls of a whole day, on sheets made blank and a register of its own, and answers what
/// each was answered. An error means that memory for the answers was wanting, which is found before
/// the sheets are made blank; then nothing is done.
pub fn whole_day<L: Ledger>(
    heap: Global,
    sheets: &mut [Row],
    ledger: &mut L,
    calls: &[Call],
) -> Result<Vec<Result<Answer, Refusal>>, AllocError>
    ensures law { IfOk result (λ answers. (fs : List Facility) × ((o : Option Prices)
        × Law L.view L.took (length sheets.old) ledger.old calls.now answers.items
        (record { facilities = fs; prices = o; rows = sheets.new }) ledger.new)) }
    ensures written { IfOk result (λ answers. L.took ledger.old
        (written (blank (length sheets.old)) calls.now answers.items)
        ledger.new) }
    ensures unmade { OnErr result ((sheets.new ≡ sheets.old) × (ledger.new ≡ ledger.old)) }
{
    let mut answers = unanswered(heap, calls)?;
    let mut register = Register::blank();
    sheets.fill(Row::blank());
    make_all(&mut register, sheets, ledger, calls, answers.as_mut_slice()).unwrap();
    Ok(answers)
}
