//! Which positions are worth a copy.
ghost use Rattle.std.specs.Prelude.{◌≡◌, ◌≤◌, ◌<◌, ◌+◌, IfSome};

/// How many copies are kept of each kind, and at which positions.
#[derive(Clone, Copy)]
pub(crate) struct Copies {
    every: usize,
    /// How far those that are spread over the scenario are apart; 0 where there are none.
    stride: usize,
    /// How many are spread over the scenario.
    pub spread: usize,
    /// How many are the last multiples of `every` that were passed.
    pub passed: usize,
    /// How many are close to where a replay ended.
    pub close: usize,
}

/// The least multiple of a number above a position, as far as there is one.
fn above(position: usize, number: usize) -> usize {
    match position.checked_div(number) {
        Some(count) => count.saturating_add(1).saturating_mul(number),
        None => usize::MAX,
    }
}

/// How far copies are apart at multiples of a number, where a number of them is spread over a number of choices.
fn stride(choices: usize, every: usize, spread: usize) -> usize {
    match choices.checked_div(every.saturating_mul(spread.saturating_add(1))) {
        Some(count) if spread != 0 => count.saturating_add(1).saturating_mul(every),
        _ => 0,
    }
}

impl Copies {
    /// Of all copies a quarter, at most four, are close; of the others one half is spread, and the rest are the last
    /// ones passed.
    pub fn new(choices: usize, every: usize, ring: usize) -> Copies
        ensures { result.spread + result.passed + result.close ≡ ring }
    {
        let close = (ring / 4).min(4);
        let spread = (ring - close) / 2;
        Copies {
            every,
            stride: stride(choices, every, spread),
            spread,
            passed: ring - spread - close,
            close,
        }
    }

    /// Whether a position is one of those that are spread over the scenario.
    pub fn is_spread(&self, position: usize) -> bool {
        self.stride != 0 && position % self.stride == 0
    }

    /// The next position on the way to another at which a copy is worth its time: one that is spread over the scenario,
    /// or one of the last multiples of `every` there.
    pub fn next_due(&self, position: usize, target: usize) -> Option<usize>
        ensures { IfSome result (λ due. (position < due) × (due ≤ target)) }
    {
        let front = target.saturating_sub(self.passed.saturating_mul(self.every));
        let due = above(position, self.stride).min(above(position.max(front), self.every));
        if position < due && due <= target {
            Some(due)
        } else {
            None
        }
    }

    /// Whether a way is so short that a session may well stay near its end.
    pub fn is_short(&self, position: usize, target: usize) -> bool {
        target.saturating_sub(position) <= self.every
    }

    /// From where on copies are close to a position.
    pub fn least_close(&self, position: usize) -> usize {
        position.saturating_sub(self.every)
    }

    /// The position halfway to another, where the way is longer than a sixty-fourth of `every`; a way of one choice has
    /// none.
    pub fn halfway(&self, position: usize, target: usize) -> Option<usize>
        ensures { IfSome result (λ due. (position < due) × (due ≤ target)) }
    {
        let left = target.saturating_sub(position);
        if left > 1 && left > self.every / 64 {
            Some(position + left / 2)
        } else {
            None
        }
    }
}
