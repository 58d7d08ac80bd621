//! A sheet: a row that has a state, under its register.
ghost use Rattle.std.specs.Prelude.{◌≡◌, true, length};
ghost use Rattle.sheets.specs.Sheets.{sheet_sound};
ghost use Rattle.sheets.specs.Held.{known};

use crate::register::Register;
use crate::row::Row;

/// A sheet: a row that has a state, under its register.
#[derive(Clone, Copy)]
pub struct Sheet<'a> {
    register: &'a Register,
    row: Row,
    ghost sound: { sheet_sound (known register.now) register.now.prices row ≡ true },
    ghost slots: { length row.figures ≡ 12 },
}

pub mod acts;
pub mod changes;
