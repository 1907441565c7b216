//! Why no order was looked for.
ghost use Rattle.std.specs.Prelude.{◌≡◌};
ghost use Rattle.zy_engine.specs.Faults.{of_writing};
ghost use Rattle.zy_order_engine.specs.declared.faults.OrderFault.TheVariants.{Bench};
ghost use Rattle.zy_order_engine.specs.Faults.{of_below, of_logs, of_objects, of_reading, status_of};

use thiserror::Error;
use zy_engine::BenchFault;
use zy_io::TextFault;
use zy_json::{JsonLineFault, JsonLogFault};
use zy_logs::{LogFault, LogLineFault};

/// Why the lines below a scenario are not read. A number is that of the line of the whole input.
#[derive(Clone, Copy, Debug, Error)]
pub enum BelowFault {
    /// A line is none of a log, or is one too many.
    #[error(transparent)]
    Log(LogLineFault),
    /// A line is to be an object, and is none that tells a line of a log.
    #[error(transparent)]
    Json(JsonLineFault),
    /// A request for memory was refused.
    #[error("there is no memory for the lines below the scenario")]
    Memory,
}

/// Why the engine gave up. Its text names the fault, and says what is wrong.
#[derive(Clone, Copy, Debug, Error)]
pub enum OrderFault {
    /// The scenario is rejected, a call failed, or there was no memory.
    #[error(transparent)]
    Bench(BenchFault),
    /// A line below the scenario is none of a log, or is one too many. The number is that of the line of the whole input.
    #[error(transparent)]
    Log(LogLineFault),
    /// A line below the scenario is to be an object, and is none that tells a line of a log. The number is that of the line of the
    /// whole input.
    #[error(transparent)]
    Json(JsonLineFault),
}

impl OrderFault {
    /// The exit status: that of the other engines, and 1 for a line below the scenario.
    pub fn status(self) -> u8
        ensures { result ≡ status_of self }
    {
        match self {
            OrderFault::Bench(fault) => fault.status(),
            OrderFault::Log(_) => 1,
            OrderFault::Json(_) => 1,
        }
    }
}

impl From<BenchFault> for OrderFault {
    ghost from_gives = { λ f e. e ≡ Bench f };

    fn from(fault: BenchFault) -> OrderFault {
        OrderFault::Bench(fault)
    }
}

impl From<zy_io::ReadFault> for OrderFault {
    ghost from_gives = { λ f e. e ≡ of_reading f };

    fn from(fault: zy_io::ReadFault) -> OrderFault {
        OrderFault::Bench(BenchFault::from(fault))
    }
}

impl From<LogFault> for BelowFault {
    ghost from_gives = { λ f e. e ≡ of_logs f };

    fn from(fault: LogFault) -> BelowFault {
        match fault {
            LogFault::Refused(refusal) => BelowFault::Log(refusal),
            LogFault::Memory => BelowFault::Memory,
        }
    }
}

impl From<JsonLogFault> for BelowFault {
    ghost from_gives = { λ f e. e ≡ of_objects f };

    fn from(fault: JsonLogFault) -> BelowFault {
        match fault {
            JsonLogFault::Refused(refusal) => BelowFault::Json(refusal),
            JsonLogFault::Memory => BelowFault::Memory,
        }
    }
}

impl From<BelowFault> for OrderFault {
    ghost from_gives = { λ f e. e ≡ of_below f };

    fn from(fault: BelowFault) -> OrderFault {
        match fault {
            BelowFault::Log(refusal) => OrderFault::Log(refusal),
            BelowFault::Json(refusal) => OrderFault::Json(refusal),
            BelowFault::Memory => OrderFault::Bench(BenchFault::Memory),
        }
    }
}

impl From<TextFault> for OrderFault {
    ghost from_gives = { λ f e. e ≡ Bench (of_writing f) };

    fn from(fault: TextFault) -> OrderFault {
        OrderFault::Bench(BenchFault::from(fault))
    }
}
