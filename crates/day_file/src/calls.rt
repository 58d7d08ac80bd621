//! A line of the day file as a call.
ghost use Rattle.std.specs.Prelude.{◌≡◌};
ghost use Rattle.std.specs.Option.{option_map};
ghost use Rattle.day_file.specs.Calls.{said, calling};

use day_text::line::DayLine;
use merit::rung::RUNGS;
use offers::pair::Pair;
use pool::call::Call;

/// The call that a line makes, a lodge with these pairs.
// Kept: a line is plain data, a call borrows its pairs; one type for both would be generic over the
// pairs at each of ten cases.
pub(crate) fn call_of<'a>(line: DayLine, pairs: &'a [Pair]) -> Option<Call<'a>>
    ensures { option_map said result ≡ calling line pairs.now }
{
    Some(match line {
        DayLine::Register {
            account,
            loss_factor,
            capacity,
            tolerance,
        } => Call::Register {
            account,
            loss_factor,
            capacity,
            tolerance,
        },
        DayLine::Open { low, high } => Call::Open { low, high },
        DayLine::Lodge {
            facility,
            interval,
            ramp_up,
            ramp_down,
        } => Call::Lodge {
            facility,
            interval,
            ramp_up,
            ramp_down,
            pairs,
        },
        DayLine::Start {
            facility,
            interval,
            kw,
        } => Call::Start {
            facility,
            interval,
            kw,
        },
        DayLine::Reading {
            facility,
            interval,
            kwmin,
        } => Call::Reading {
            facility,
            interval,
            kwmin,
        },
        DayLine::Position {
            account,
            interval,
            contract,
            load,
        } => Call::Position {
            account,
            interval,
            contract,
            load,
        },
        DayLine::Demand { interval, kw } => Call::Demand { interval, kw },
        DayLine::Close { interval } => Call::Close {
            interval,
            rungs: RUNGS,
        },
        DayLine::Settle { interval } => Call::Settle { interval },
        DayLine::Adjust {
            facility,
            interval,
            kwmin,
        } => Call::Adjust {
            facility,
            interval,
            kwmin,
        },
        _ => return None,
    })
}
