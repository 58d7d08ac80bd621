//! The ramp from a start level toward a target.
ghost use Rattle.std.specs.Prelude.{◌≡◌};
ghost use Rattle.schedule.specs.Ramps as ramps;

/// A start level and the rates of moving away from it.
#[derive(Clone, Copy)]
pub struct Ramp {
    /// The start level in kW; of a station 0 to 1,000,000.
    pub start: u32,
    /// The rate of rising in kW per minute; of a station 1 to 1,000,000.
    pub up: u32,
    /// The rate of falling in kW per minute; of a station 1 to 1,000,000.
    pub down: u32,
}

impl Ramp {
    /// The level in kW of a minute, 1 to 30 in half an hour, on the way to a target in kW.
    pub fn level(self, target: u32, minute: u32) -> u32
        ensures { result ≡ ramps.level self.start self.up self.down target minute }
    {
        if self.start <= target {
            (self.start as u64 + self.up as u64 * minute as u64).min(target as u64) as u32
        } else {
            (self.start as u64)
                .saturating_sub(self.down as u64 * minute as u64)
                .max(target as u64) as u32
        }
    }

    /// The energy of half an hour in kWmin, on the way to a target in kW: the sum of the levels of
    /// minutes 1 to 30.
    pub fn energy(self, target: u32) -> u64
        ensures { result ≡ ramps.energy self.start self.up self.down target }
    {
        (1..31)
            .map(|minute| u64::from(self.level(target, minute)))
            .sum()
    }
}
