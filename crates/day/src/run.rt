//! Any list of calls, with their answers in memory of their own.
ghost use Rattle.std.specs.Prelude.{◌≡◌, length, IfOk, OnErr};
ghost use Rattle.pool.specs.Held.{held};
ghost use Rattle.day.specs.Book.{blank, told};
ghost use Rattle.day.specs.Law.{Goes, Law, written, posts_made};

use crate::lent::make_all;
use crate::unanswered::unanswered;
use ledger::accounts::Ledger;
use pool::call::{Answer, Call};
use refusals::Refusal;
use sheets::register::Register;
use sheets::row::Row;
use std::alloc::{AllocError, Global};

/// Makes the calls one after the other, and answers what each was answered. An error means that
/// memory for the answers was wanting, which is found before the first call; then nothing is done.
pub fn run<L: Ledger>(
    heap: Global,
    register: &mut Register,
    sheets: &mut [Row],
    ledger: &mut L,
    calls: &[Call],
) -> Result<Vec<Result<Answer, Refusal>>, AllocError>
    ensures law { held register.old sheets.old ≡ told (blank (length sheets.old)) →
        IfOk result (λ answers. Law L.view L.took (length sheets.old)
        ledger.old calls.now answers.items
        (held register.new sheets.new) ledger.new) }
    ensures goes { IfOk result (λ answers. Goes L.view L.took (held register.old sheets.old)
        ledger.old calls.now answers.items
        (held register.new sheets.new) ledger.new) }
    ensures written { held register.old sheets.old ≡ told (blank (length sheets.old)) →
        IfOk result (λ answers. L.took ledger.old
        (written (blank (length sheets.old)) calls.now answers.items)
        ledger.new) }
    ensures posts { IfOk result (λ answers. L.took ledger.old
        (posts_made (held register.old sheets.old) calls.now answers.items)
        ledger.new) }
    ensures untouched { OnErr result ((register.new ≡ register.old)
        × ((sheets.new ≡ sheets.old) × (ledger.new ≡ ledger.old))) }
{
    let mut answers = unanswered(heap, calls)?;
    make_all(register, sheets, ledger, calls, answers.as_mut_slice()).unwrap();
    Ok(answers)
}
