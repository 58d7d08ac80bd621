//! Which way a station was out of merit.
ghost use Rattle.std.specs.Prelude.{◌≡◌};
ghost use Rattle.schedule.specs.Stations.{energy_out};

/// The energy out of merit: which way it counts, and how much of it.
// Kept: an Option round the first two would only take the third case its name.
#[derive(Clone, Copy, PartialEq, Eq, Debug)]
pub enum OutOfMerit {
    /// The reading less the upper schedule counts, so much in kWmin.
    Upward(u64),
    /// The lower schedule less the reading counts, so much in kWmin.
    Downward(u64),
    /// Neither counts.
    Neither,
}

impl OutOfMerit {
    /// The energy that counts either way, in kWmin; 0 where none does.
    pub fn energy(self) -> u64
        ensures { result ≡ energy_out self }
    {
        match self {
            OutOfMerit::Upward(x) | OutOfMerit::Downward(x) => x,
            OutOfMerit::Neither => 0,
        }
    }
}
