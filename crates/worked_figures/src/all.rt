//! All worked figures, and what is printed of them.
ghost use Rattle.std.specs.Prelude.{◌≡◌, ◌++◌, IfOk, OnOk};
ghost use Rattle.worked_figures.specs.All as all;

use crate::cases::{
    ADJUSTED, ADJUSTMENTS, CORRECTIONS, Case, ENERGIES, INTAKE, LEVIES, METERED, PRICED, SETTLED,
    WRITTEN,
};
use crate::figure::Figure;
use crate::intakes::intake_figure;
use crate::report::report;
use crate::worked::work_all;
use std::alloc::{AllocError, Global};

#[tactic(auto, unfolding(crate::specs::All::prices_listed))]
fn push_prices(heap: Global, figures: &mut Vec<Figure>) -> Result<(), AllocError>
    ensures { OnOk result (figures.new.items ≡ figures.old.items ++ all.prices_listed) }
{
    work_all(heap, figures, &ADJUSTED)
}

#[tactic(auto, unfolding(crate::specs::All::energies_listed))]
fn push_energies(heap: Global, figures: &mut Vec<Figure>) -> Result<(), AllocError>
    ensures { OnOk result (figures.new.items ≡ figures.old.items ++ all.energies_listed) }
{
    work_all(heap, figures, &ENERGIES)
}

#[tactic(auto, unfolding(crate::specs::All::levies_listed))]
fn push_levies(heap: Global, figures: &mut Vec<Figure>) -> Result<(), AllocError>
    ensures { OnOk result (figures.new.items ≡ figures.old.items ++ all.levies_listed) }
{
    work_all(heap, figures, &LEVIES)
}

#[tactic(auto, unfolding(crate::specs::All::sheet_prices_listed))]
fn push_sheet_prices(heap: Global, figures: &mut Vec<Figure>) -> Result<(), AllocError>
    ensures { OnOk result (figures.new.items ≡ figures.old.items ++ all.sheet_prices_listed) }
{
    work_all(heap, figures, &PRICED)
}

#[tactic(auto, unfolding(crate::specs::All::nets_listed))]
fn push_nets(heap: Global, figures: &mut Vec<Figure>) -> Result<(), AllocError>
    ensures { OnOk result (figures.new.items ≡ figures.old.items ++ all.nets_listed) }
{
    work_all(heap, figures, &METERED)
}

#[tactic(auto, unfolding(crate::specs::All::corrections_listed))]
fn push_corrections(heap: Global, figures: &mut Vec<Figure>) -> Result<(), AllocError>
    ensures { OnOk result (figures.new.items ≡ figures.old.items ++ all.corrections_listed) }
{
    work_all(heap, figures, &CORRECTIONS)
}

#[tactic(auto, unfolding(crate::specs::All::settles_listed))]
fn push_settles(heap: Global, figures: &mut Vec<Figure>) -> Result<(), AllocError>
    ensures { OnOk result (figures.new.items ≡ figures.old.items ++ all.settles_listed) }
{
    work_all(heap, figures, &SETTLED)
}

#[tactic(auto, unfolding(crate::specs::All::adjustments_listed))]
fn push_adjustments(heap: Global, figures: &mut Vec<Figure>) -> Result<(), AllocError>
    ensures { OnOk result (figures.new.items ≡ figures.old.items ++ all.adjustments_listed) }
{
    work_all(heap, figures, &ADJUSTMENTS)
}

#[tactic(auto, unfolding(crate::specs::All::intakes_listed))]
fn push_intakes(heap: Global, figures: &mut Vec<Figure>) -> Result<(), AllocError>
    ensures { OnOk result (figures.new.items ≡ figures.old.items ++ all.intakes_listed) }
{
    figures.push(intake_figure(heap, INTAKE, WRITTEN)?)?;
    Ok(())
}

// Every list once, in the order in which the figures are shown.
fn all_figures(heap: Global, stations: &[Case]) -> Result<Vec<Figure>, AllocError>
    ensures { IfOk result (λ figures. figures.items ≡ all.all_figures stations.now) }
{
    let mut figures = Vec::new(heap);
    push_prices(heap, &mut figures)?;
    push_energies(heap, &mut figures)?;
    work_all(heap, &mut figures, stations)?;
    push_levies(heap, &mut figures)?;
    push_sheet_prices(heap, &mut figures)?;
    push_nets(heap, &mut figures)?;
    push_corrections(heap, &mut figures)?;
    push_settles(heap, &mut figures)?;
    push_adjustments(heap, &mut figures)?;
    push_intakes(heap, &mut figures)?;
    Ok(figures)
}

/// The report of all worked figures: each on a line of its own, and how many of them differ. The
/// stations are handed in. An error means that memory was wanting.
pub fn worked_report(heap: Global, stations: &[Case]) -> Result<Vec<u8>, AllocError>
    ensures { IfOk result (λ text. text.items ≡ all.worked_report stations.now) }
{
    let figures = all_figures(heap, stations)?;
    report(heap, figures.as_slice())
}
