//! What every list of cases has in common: each case shows its figures.
ghost use Rattle.std.specs.Prelude.{◌≡◌, List, ◌++◌, OnOk};
ghost use Rattle.std.specs.List.{flat_map};
ghost use Rattle.worked_figures.specs.Reports.{Shown};

use crate::figure::Figure;
use std::alloc::{AllocError, Global};

/// A case that shows its figures.
pub trait Worked {
    /// The figures that a case shows.
    ghost shows: { Self → List Shown };

    /// Works the case out, and puts its figures behind those so far. An error means that memory was
    /// wanting.
    fn work(&self, heap: Global, figures: &mut Vec<Figure>) -> Result<(), AllocError>
        ensures { OnOk result (figures.new.items ≡ figures.old.items ++ Self.shows self.now) };
}

/// Works the cases out one after another, and puts their figures behind those so far. An error
/// means that memory was wanting.
pub fn work_all<W: Worked>(
    heap: Global,
    figures: &mut Vec<Figure>,
    cases: &[W],
) -> Result<(), AllocError>
    ensures { OnOk result (figures.new.items ≡ figures.old.items ++ flat_map W.shows cases.now) }
{
    for case in cases {
        case.work(heap, figures)?;
    }
    Ok(())
}
