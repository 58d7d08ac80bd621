//! What is worked out, and what it should come to.
use offers::curve::Curve;
use offers::pair::Pair;
use offers::submission::Submission;
use schedule::ramp::Ramp;

/// A price at a loss factor, and its adjusted price.
pub struct Adjusting {
    /// The price, in cents per MWh.
    pub price: i32,
    /// The loss factor in ten-thousandths, 8,000 to 12,500 or out of its span.
    pub factor: u32,
    /// The adjusted price, in cents per MWh; `None` where the loss factor is out of its span.
    pub adjusted: Option<i64>,
}

/// Prices and loss factors, also at the ends of their spans and past them.
pub const ADJUSTED: [Adjusting; 13] = [
    Adjusting {
        price: 3_550,
        factor: 10_500,
        adjusted: Some(3_381),
    },
    Adjusting {
        price: 2,
        factor: 8_000,
        adjusted: Some(3),
    },
    Adjusting {
        price: -2,
        factor: 8_000,
        adjusted: Some(-2),
    },
    Adjusting {
        price: 100_000,
        factor: 8_000,
        adjusted: Some(125_000),
    },
    Adjusting {
        price: -100_000,
        factor: 8_000,
        adjusted: Some(-125_000),
    },
    Adjusting {
        price: 100_000,
        factor: 12_500,
        adjusted: Some(80_000),
    },
    Adjusting {
        price: -500,
        factor: 9_500,
        adjusted: Some(-526),
    },
    Adjusting {
        price: 2,
        factor: 12_500,
        adjusted: Some(2),
    },
    Adjusting {
        price: 3,
        factor: 12_500,
        adjusted: Some(2),
    },
    Adjusting {
        price: 0,
        factor: 10_000,
        adjusted: Some(0),
    },
    Adjusting {
        price: 2_147_483_647,
        factor: 8_000,
        adjusted: Some(2_684_354_559),
    },
    Adjusting {
        price: 3_550,
        factor: 7_999,
        adjusted: None,
    },
    Adjusting {
        price: 3_550,
        factor: 12_501,
        adjusted: None,
    },
];

/// A ramp toward a target, and the energy of half an hour on it.
pub struct Ramping {
    /// Where the ramp starts, and its rates.
    pub ramp: Ramp,
    /// The target, in kW.
    pub target: u32,
    /// The energy, in kWmin.
    pub energy: u64,
}

/// Ramps up, down and at their target.
pub const ENERGIES: [Ramping; 7] = [
    Ramping {
        ramp: Ramp {
            start: 10_000,
            up: 2_000,
            down: 2_500,
        },
        target: 20_000,
        energy: 580_000,
    },
    Ramping {
        ramp: Ramp {
            start: 10_000,
            up: 2_000,
            down: 2_500,
        },
        target: 35_000,
        energy: 906_000,
    },
    Ramping {
        ramp: Ramp {
            start: 10_000,
            up: 2_000,
            down: 2_500,
        },
        target: 0,
        energy: 15_000,
    },
    Ramping {
        ramp: Ramp {
            start: 10_000,
            up: 2_000,
            down: 2_500,
        },
        target: 10_000,
        energy: 300_000,
    },
    Ramping {
        ramp: Ramp {
            start: 40_000,
            up: 2_000,
            down: 2_500,
        },
        target: 20_000,
        energy: 670_000,
    },
    Ramping {
        ramp: Ramp {
            start: 0,
            up: 1,
            down: 1,
        },
        target: 1_000_000,
        energy: 465,
    },
    Ramping {
        ramp: Ramp {
            start: 1_000_000,
            up: 1_000_000,
            down: 1_000_000,
        },
        target: 1_000_000,
        energy: 30_000_000,
    },
];

/// A station as it stands in an interval, but for its reading.
pub struct Setting {
    /// Its loss factor, in ten-thousandths, 8,000 to 12,500.
    pub factor: u32,
    /// Its tolerance, in kWmin, 0 to 30,000,000.
    pub tolerance: u32,
    /// Its start level in kW, 0 to 1,000,000, and its ramps in kW per minute, 1 to 1,000,000.
    pub ramp: Ramp,
    /// What it offers, as the pairs of its curve, at most 8.
    pub pairs: &'static [Pair],
}

impl Setting {
    ghost use Rattle.std.specs.Prelude.{◌≡◌};
    ghost use Rattle.worked_figures.specs.Stations.{submission_of};

    /// The submission that the ramps and the pairs make. `None` where the pairs make no curve.
    pub fn submission(&self) -> Option<Submission>
        ensures { result ≡ submission_of self.now }
    {
        Some(Submission {
            ramp_up: self.ramp.up,
            ramp_down: self.ramp.down,
            curve: Curve::of(self.pairs)?,
        })
    }
}

const WORKED_CURVE: [Pair; 2] = [
    Pair {
        price: 3_200,
        kw: 20_000,
    },
    Pair {
        price: 6_000,
        kw: 15_000,
    },
];

const NEGATIVE_CURVE: [Pair; 3] = [
    Pair {
        price: -500,
        kw: 8_000,
    },
    Pair {
        price: 100,
        kw: 4_000,
    },
    Pair {
        price: 900,
        kw: 3_000,
    },
];

const COINCIDING_CURVE: [Pair; 3] = [
    Pair {
        price: 2,
        kw: 5_000,
    },
    Pair {
        price: 3,
        kw: 5_000,
    },
    Pair {
        price: 10,
        kw: 5_000,
    },
];

const EIGHT_PAIRS: [Pair; 8] = [
    Pair {
        price: 1_000,
        kw: 1_000,
    },
    Pair {
        price: 2_000,
        kw: 1_000,
    },
    Pair {
        price: 3_000,
        kw: 1_000,
    },
    Pair {
        price: 4_000,
        kw: 1_000,
    },
    Pair {
        price: 5_000,
        kw: 1_000,
    },
    Pair {
        price: 6_000,
        kw: 1_000,
    },
    Pair {
        price: 7_000,
        kw: 1_000,
    },
    Pair {
        price: 8_000,
        kw: 1_000,
    },
];

/// The worked station.
pub const WORKED: Setting = Setting {
    factor: 10_000,
    tolerance: 10_000,
    ramp: Ramp {
        start: 10_000,
        up: 2_000,
        down: 2_500,
    },
    pairs: &WORKED_CURVE,
};

// The same at either end of the loss factors.
const LOWEST_FACTOR: Setting = Setting {
    factor: 8_000,
    tolerance: 10_000,
    ramp: Ramp {
        start: 10_000,
        up: 2_000,
        down: 2_500,
    },
    pairs: &WORKED_CURVE,
};

const HIGHEST_FACTOR: Setting = Setting {
    factor: 12_500,
    tolerance: 10_000,
    ramp: Ramp {
        start: 10_000,
        up: 2_000,
        down: 2_500,
    },
    pairs: &WORKED_CURVE,
};

// Prices below zero.
const NEGATIVE: Setting = Setting {
    factor: 9_500,
    tolerance: 0,
    ramp: Ramp {
        start: 12_000,
        up: 300,
        down: 700,
    },
    pairs: &NEGATIVE_CURVE,
};

// The first two pairs have one adjusted price.
const COINCIDING: Setting = Setting {
    factor: 12_500,
    tolerance: 0,
    ramp: Ramp {
        start: 5_000,
        up: 1_000,
        down: 1_000,
    },
    pairs: &COINCIDING_CURVE,
};

// The worked curve from a start above it, and from one at its first target.
const FROM_ABOVE: Setting = Setting {
    factor: 10_000,
    tolerance: 0,
    ramp: Ramp {
        start: 40_000,
        up: 2_000,
        down: 2_500,
    },
    pairs: &WORKED_CURVE,
};

const AT_TARGET: Setting = Setting {
    factor: 10_000,
    tolerance: 0,
    ramp: Ramp {
        start: 20_000,
        up: 2_000,
        down: 2_500,
    },
    pairs: &WORKED_CURVE,
};

// Eight pairs, reached in one minute.
const EIGHT_UP: Setting = Setting {
    factor: 10_000,
    tolerance: 0,
    ramp: Ramp {
        start: 0,
        up: 1_000_000,
        down: 1_000_000,
    },
    pairs: &EIGHT_PAIRS,
};

const EIGHT_DOWN: Setting = Setting {
    factor: 10_000,
    tolerance: 0,
    ramp: Ramp {
        start: 8_000,
        up: 1_000_000,
        down: 1_000_000,
    },
    pairs: &EIGHT_PAIRS,
};

// Nothing on offer.
const NO_PAIRS: Setting = Setting {
    factor: 10_000,
    tolerance: 0,
    ramp: Ramp {
        start: 10_000,
        up: 2_000,
        down: 2_500,
    },
    pairs: &[],
};

/// A station at a balancing price and a reading, and what should come of them.
pub struct Case {
    /// The name of the case.
    pub what: &'static str,
    /// The station, but for its reading.
    pub setting: Setting,
    /// The balancing price in cents per MWh, -125,000 to 125,000.
    pub price: i64,
    /// The reading in kWmin, 0 to 30,000,000.
    pub reading: u32,
    /// The upper schedule, in kWmin.
    pub upper: u64,
    /// The lower schedule, in kWmin.
    pub lower: u64,
    /// The energy out of merit in kWmin: upward positive, downward negative.
    pub out_of_merit: i64,
    /// The energy of each block in its order, in kWmin.
    pub taken: &'static [u64],
    /// The non-qualifying energy, in kWmin.
    pub rest: u64,
    /// The compensation of the station by itself, in cents.
    pub cents: u64,
}

/// Stations at the edges of the rules, the worked one first.
pub const CASES: [Case; 25] = [
    Case {
        what: "worked station, upward",
        setting: WORKED,
        price: 4_000,
        reading: 700_000,
        upper: 580_000,
        lower: 580_000,
        out_of_merit: 120_000,
        taken: &[120_000],
        rest: 0,
        cents: 4_000,
    },
    Case {
        what: "its block exhausted",
        setting: WORKED,
        price: 4_000,
        reading: 950_000,
        upper: 580_000,
        lower: 580_000,
        out_of_merit: 370_000,
        taken: &[326_000],
        rest: 44_000,
        cents: 10_867,
    },
    Case {
        what: "upward by exactly the tolerance",
        setting: WORKED,
        price: 4_000,
        reading: 590_000,
        upper: 580_000,
        lower: 580_000,
        out_of_merit: 0,
        taken: &[],
        rest: 0,
        cents: 0,
    },
    Case {
        what: "upward by one more",
        setting: WORKED,
        price: 4_000,
        reading: 590_001,
        upper: 580_000,
        lower: 580_000,
        out_of_merit: 10_001,
        taken: &[10_001],
        rest: 0,
        cents: 333,
    },
    Case {
        what: "worked station, downward",
        setting: WORKED,
        price: 7_000,
        reading: 500_000,
        upper: 906_000,
        lower: 906_000,
        out_of_merit: -406_000,
        taken: &[326_000, 80_000],
        rest: 0,
        cents: 10_500,
    },
    Case {
        what: "downward by exactly the tolerance",
        setting: WORKED,
        price: 7_000,
        reading: 896_000,
        upper: 906_000,
        lower: 906_000,
        out_of_merit: 0,
        taken: &[],
        rest: 0,
        cents: 0,
    },
    Case {
        what: "downward by one more",
        setting: WORKED,
        price: 7_000,
        reading: 895_999,
        upper: 906_000,
        lower: 906_000,
        out_of_merit: -10_001,
        taken: &[10_001, 0],
        rest: 0,
        cents: 167,
    },
    Case {
        what: "a pair at the price, between the schedules",
        setting: WORKED,
        price: 6_000,
        reading: 700_000,
        upper: 906_000,
        lower: 580_000,
        out_of_merit: 0,
        taken: &[],
        rest: 0,
        cents: 0,
    },
    Case {
        what: "a pair at the price, above both schedules",
        setting: WORKED,
        price: 6_000,
        reading: 950_000,
        upper: 906_000,
        lower: 580_000,
        out_of_merit: 44_000,
        taken: &[],
        rest: 44_000,
        cents: 0,
    },
    Case {
        what: "a pair at the price, below both schedules",
        setting: WORKED,
        price: 6_000,
        reading: 500_000,
        upper: 906_000,
        lower: 580_000,
        out_of_merit: -80_000,
        taken: &[80_000],
        rest: 0,
        cents: 3_733,
    },
    Case {
        what: "nothing offered below the price",
        setting: WORKED,
        price: 3_200,
        reading: 0,
        upper: 580_000,
        lower: 15_000,
        out_of_merit: -15_000,
        taken: &[],
        rest: 15_000,
        cents: 0,
    },
    Case {
        what: "lowest loss factor",
        setting: LOWEST_FACTOR,
        price: 4_000,
        reading: 700_000,
        upper: 580_000,
        lower: 15_000,
        out_of_merit: 120_000,
        taken: &[120_000],
        rest: 0,
        cents: 5_600,
    },
    Case {
        what: "highest loss factor",
        setting: HIGHEST_FACTOR,
        price: 4_800,
        reading: 500_000,
        upper: 906_000,
        lower: 580_000,
        out_of_merit: -80_000,
        taken: &[80_000],
        rest: 0,
        cents: 3_733,
    },
    Case {
        what: "negative prices, upward",
        setting: NEGATIVE,
        price: -527,
        reading: 400_000,
        upper: 96_900,
        lower: 96_900,
        out_of_merit: 303_100,
        taken: &[152_600, 110_500, 40_000],
        rest: 0,
        cents: 2_042,
    },
    Case {
        what: "negative prices, downward",
        setting: NEGATIVE,
        price: -100,
        reading: 100_000,
        upper: 249_500,
        lower: 249_500,
        out_of_merit: -149_500,
        taken: &[149_500],
        rest: 0,
        cents: 1_008,
    },
    Case {
        what: "negative price at the price",
        setting: NEGATIVE,
        price: -526,
        reading: 239_999,
        upper: 249_500,
        lower: 96_900,
        out_of_merit: 0,
        taken: &[],
        rest: 0,
        cents: 0,
    },
    Case {
        what: "coinciding adjusted prices, upward",
        setting: COINCIDING,
        price: 1,
        reading: 250_000,
        upper: 10_000,
        lower: 10_000,
        out_of_merit: 240_000,
        taken: &[140_000, 100_000, 0],
        rest: 0,
        cents: 5,
    },
    Case {
        what: "coinciding adjusted prices, downward",
        setting: COINCIDING,
        price: 5,
        reading: 160_000,
        upper: 290_000,
        lower: 290_000,
        out_of_merit: -130_000,
        taken: &[130_000, 0],
        rest: 0,
        cents: 8,
    },
    Case {
        what: "coinciding adjusted prices at the price",
        setting: COINCIDING,
        price: 2,
        reading: 299_999,
        upper: 290_000,
        lower: 10_000,
        out_of_merit: 9_999,
        taken: &[9_999],
        rest: 0,
        cents: 1,
    },
    Case {
        what: "ramping down, upward",
        setting: FROM_ABOVE,
        price: 4_000,
        reading: 1_000_000,
        upper: 670_000,
        lower: 670_000,
        out_of_merit: 330_000,
        taken: &[330_000],
        rest: 0,
        cents: 11_000,
    },
    Case {
        what: "ramping down, downward",
        setting: FROM_ABOVE,
        price: 7_000,
        reading: 700_000,
        upper: 1_052_500,
        lower: 1_052_500,
        out_of_merit: -352_500,
        taken: &[352_500, 0],
        rest: 0,
        cents: 5_875,
    },
    Case {
        what: "start at the target",
        setting: AT_TARGET,
        price: 4_000,
        reading: 600_001,
        upper: 600_000,
        lower: 600_000,
        out_of_merit: 1,
        taken: &[1],
        rest: 0,
        cents: 0,
    },
    Case {
        what: "all eight blocks exhausted",
        setting: EIGHT_UP,
        price: 0,
        reading: 300_000,
        upper: 0,
        lower: 0,
        out_of_merit: 300_000,
        taken: &[
            30_000, 30_000, 30_000, 30_000, 30_000, 30_000, 30_000, 30_000,
        ],
        rest: 60_000,
        cents: 18_000,
    },
    Case {
        what: "downward to nothing",
        setting: EIGHT_DOWN,
        price: 9_000,
        reading: 0,
        upper: 240_000,
        lower: 240_000,
        out_of_merit: -240_000,
        taken: &[
            30_000, 30_000, 30_000, 30_000, 30_000, 30_000, 30_000, 30_000,
        ],
        rest: 0,
        cents: 18_000,
    },
    Case {
        what: "no pairs",
        setting: NO_PAIRS,
        price: 4_000,
        reading: 20_000,
        upper: 15_000,
        lower: 15_000,
        out_of_merit: 5_000,
        taken: &[],
        rest: 5_000,
        cents: 0,
    },
];

/// A total, the loads that bear it, and the levy of one account.
pub struct Levying {
    /// The total, in cents.
    pub total: u64,
    /// The loads of accounts 1 to 11, in kWmin.
    pub loads: [u32; 11],
    /// The account, 1 to 11 or outside.
    pub account: u32,
    /// The account's levy, in cents; `None` for an account outside the eleven, or with no load at
    /// all.
    pub levy: Option<u64>,
}

const THREE: [u32; 11] = [5, 5, 5, 0, 0, 0, 0, 0, 0, 0, 0];

const TWO: [u32; 11] = [0, 100_000, 1_200_000, 0, 0, 0, 0, 0, 0, 0, 0];

const NO_LOADS: [u32; 11] = [0; 11];

/// Levies over three equal loads, over two unequal ones, and where there is none.
pub const LEVIES: [Levying; 11] = [
    Levying {
        total: 10,
        loads: THREE,
        account: 1,
        levy: Some(3),
    },
    Levying {
        total: 10,
        loads: THREE,
        account: 2,
        levy: Some(3),
    },
    Levying {
        total: 10,
        loads: THREE,
        account: 3,
        levy: Some(4),
    },
    Levying {
        total: 10,
        loads: THREE,
        account: 4,
        levy: Some(0),
    },
    Levying {
        total: 4_000,
        loads: TWO,
        account: 1,
        levy: Some(0),
    },
    Levying {
        total: 4_000,
        loads: TWO,
        account: 2,
        levy: Some(307),
    },
    Levying {
        total: 4_000,
        loads: TWO,
        account: 3,
        levy: Some(3_693),
    },
    Levying {
        total: 18_446_744_073_709_551_615,
        loads: TWO,
        account: 3,
        levy: Some(17_027_763_760_347_278_414),
    },
    Levying {
        total: 10,
        loads: THREE,
        account: 0,
        levy: None,
    },
    Levying {
        total: 10,
        loads: THREE,
        account: 12,
        levy: None,
    },
    Levying {
        total: 10,
        loads: NO_LOADS,
        account: 1,
        levy: None,
    },
];

/// A reading of the worked station on a sheet of two stations, and the balancing price, which does
/// not depend on it.
pub struct Pricing {
    /// The reading, in kWmin.
    pub reading: u32,
    /// The balancing price, in cents per MWh.
    pub price: i64,
}

/// The price at each of six readings.
pub const PRICED: [Pricing; 6] = [
    Pricing {
        reading: 700_000,
        price: 4_000,
    },
    Pricing {
        reading: 730_000,
        price: 4_000,
    },
    Pricing {
        reading: 950_000,
        price: 4_000,
    },
    Pricing {
        reading: 590_000,
        price: 4_000,
    },
    Pricing {
        reading: 590_001,
        price: 4_000,
    },
    Pricing {
        reading: 0,
        price: 4_000,
    },
];

/// A reading of the worked station on the sheet of two stations, and the nets at it.
pub struct Metering {
    /// The reading, in kWmin.
    pub reading: u32,
    /// The nets of accounts 0 to 3, in cents; those of accounts 4 to 11 are 0.
    pub nets: [i64; 4],
}

const ONE_PAIR: [Pair; 1] = [Pair {
    price: 4_000,
    kw: 20_000,
}];

/// The other station of the sheet.
pub const OTHER: Setting = Setting {
    factor: 10_000,
    tolerance: 10_000,
    ramp: Ramp {
        start: 20_000,
        up: 1_000,
        down: 1_000,
    },
    pairs: &ONE_PAIR,
};

/// The nets at each of six readings.
pub const METERED: [Metering; 6] = [
    Metering {
        reading: 700_000,
        nets: [0, 50_667, 33_026, -83_693],
    },
    Metering {
        reading: 730_000,
        nets: [-2_000, 53_667, 32_949, -84_616],
    },
    Metering {
        reading: 950_000,
        nets: [-16_666, 74_200, 32_498, -90_032],
    },
    Metering {
        reading: 590_000,
        nets: [7_334, 39_333, 33_333, -80_000],
    },
    Metering {
        reading: 590_001,
        nets: [7_334, 39_666, 33_308, -80_308],
    },
    Metering {
        reading: 0,
        nets: [46_667, 7_533, 32_754, -86_954],
    },
];

/// A corrected reading of the worked station on the sheet of two stations, and what it posts.
pub struct Correction {
    /// The reading before, in kWmin.
    pub from: u32,
    /// The reading after, in kWmin.
    pub to: u32,
    /// What is posted to accounts 0 to 3, in cents; to accounts 4 to 11 it is 0.
    pub posts: [i64; 4],
}

/// A correction up, and the same back down.
pub const CORRECTIONS: [Correction; 2] = [
    Correction {
        from: 700_000,
        to: 730_000,
        posts: [-2_000, 3_000, -77, -923],
    },
    Correction {
        from: 730_000,
        to: 700_000,
        posts: [2_000, -3_000, 77, 923],
    },
];

/// The sheet of two stations with its first reading settled over the account table, under a credit
/// limit of account 3 alone: the number of its posts, or its refusal.
pub struct Settling {
    /// The credit limit, in cents.
    pub limit: u32,
    /// How many posts it takes; `None` where it is refused.
    pub posts: Option<u64>,
    /// The refusal's number; `None` where it is taken.
    pub refusal: Option<u64>,
    /// The refusal's place, here the account; `None` where it is taken.
    pub place: Option<u64>,
    /// The number of the ledger's reason, 1 to 3; `None` where it is taken.
    pub reason: Option<u64>,
}

/// No limit that matters, one that refuses the settle by a cent, and the next, which takes it.
pub const SETTLED: [Settling; 3] = [
    Settling {
        limit: 4_294_967_295,
        posts: Some(3),
        refusal: None,
        place: None,
        reason: None,
    },
    Settling {
        limit: 83_692,
        posts: None,
        refusal: Some(12),
        place: Some(3),
        reason: Some(3),
    },
    Settling {
        limit: 83_693,
        posts: Some(3),
        refusal: None,
        place: None,
        reason: None,
    },
];

/// The settled sheet with its first reading corrected, and how many posts that takes.
pub struct Adjustment {
    /// The corrected reading, in kWmin.
    pub to: u32,
    /// How many posts it takes; `None` where it is refused.
    pub posts: Option<u64>,
}

/// The correction of 700,000 kWmin to 730,000.
pub const ADJUSTMENTS: [Adjustment; 1] = [Adjustment {
    to: 730_000,
    posts: Some(4),
}];

/// A submission as it is taken in.
pub const INTAKE: &[u8] =
    b"facility=1\ninterval=14\nrampup=2000\nrampdown=2500\npairs=3\npair=6000:15000\npair=3200:5000\npair=3200:15000\n";

/// The written form of that submission.
pub const WRITTEN: &[u8] =
    b"facility=1\ninterval=14\nrampup=2000\nrampdown=2500\npairs=2\npair=3200:20000\npair=6000:15000\n";
