//! Any list of calls, with their answers in lent memory.
ghost use Rattle.std.specs.Prelude.{◌≡◌, ◌≤◌, ◌↔◌, length, take, drop, IsOk, OnOk, OnErr, IfErr};
ghost use Rattle.pool.specs.Held.{held};
ghost use Rattle.day.specs.Book.{blank, told};
ghost use Rattle.day.specs.Law.{Goes, Law, written, posts_made};

use crate::step::step;
use ledger::accounts::Ledger;
use pool::call::{Answer, Call};
use refusals::Refusal;
use sheets::register::Register;
use sheets::row::Row;
use thiserror::Error;

/// The memory is shorter than the list of calls.
#[derive(Clone, Copy, PartialEq, Eq, Debug, Error)]
#[error("the answers of the calls need memory for {needed}")]
pub struct AnswersTooShort {
    /// How many answers it must hold: as many as there are calls.
    pub needed: usize,
}

/// Makes the calls one after the other. Their answers stand at the front of the lent memory, and
/// what is behind them stays. An error means that it is shorter than the list of calls, which is
/// found before the first call; then nothing is done.
pub fn make_all<L: Ledger>(
    register: &mut Register,
    sheets: &mut [Row],
    ledger: &mut L,
    calls: &[Call],
    answers: &mut [Result<Answer, Refusal>],
) -> Result<(), AnswersTooShort>
    ensures room { IsOk result ↔ (length calls.now ≤ length answers.old) }
    ensures law { held register.old sheets.old ≡ told (blank (length sheets.old)) →
        OnOk result (Law L.view L.took (length sheets.old)
        ledger.old calls.now (take (length calls.now) answers.new)
        (held register.new sheets.new) ledger.new) }
    ensures goes { OnOk result (Goes L.view L.took (held register.old sheets.old)
        ledger.old calls.now (take (length calls.now) answers.new)
        (held register.new sheets.new) ledger.new) }
    ensures written { held register.old sheets.old ≡ told (blank (length sheets.old)) →
        OnOk result (L.took ledger.old
        (written (blank (length sheets.old)) calls.now (take (length calls.now) answers.new))
        ledger.new) }
    ensures posts { OnOk result (L.took ledger.old
        (posts_made (held register.old sheets.old) calls.now
        (take (length calls.now) answers.new))
        ledger.new) }
    ensures behind { OnOk result
        (drop (length calls.now) answers.new ≡ drop (length calls.now) answers.old) }
    ensures needed { IfErr result (λ short. short.needed ≡ length calls.now) }
    ensures untouched { OnErr result ((register.new ≡ register.old)
        × ((sheets.new ≡ sheets.old)
        × ((ledger.new ≡ ledger.old) × (answers.new ≡ answers.old)))) }
{
    if answers.len() < calls.len() {
        return Err(AnswersTooShort {
            needed: calls.len(),
        });
    }
    for (i, call) in calls.iter().enumerate() {
        answers[i] = step(register, sheets, ledger, call);
    }
    Ok(())
}
