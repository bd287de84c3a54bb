// Tests of ranges, which most causes are.
ghost use Rattle.std.specs.Prelude.{◌≡◌, Bool};
ghost use Rattle.refusals.specs.Ranges.{outside, outside_ℤ, any};

// A number that can be held to a range.
pub trait Ranged: Copy {
    ghost beyond: { Self → Self → Self → Bool };

    // Whether the number is not low to high.
    fn is_outside(self, low: Self, high: Self) -> bool
        ensures { result ≡ beyond low high self };
}

// The two bodies are alike: one body for both would need a law that says what `<` means, and be no plainer.
impl Ranged for u64 {
    ghost beyond = { outside };

    fn is_outside(self, low: u64, high: u64) -> bool {
        self < low || self > high
    }
}

impl Ranged for i64 {
    ghost beyond = { outside_ℤ };

    fn is_outside(self, low: i64, high: i64) -> bool {
        self < low || high < self
    }
}

// Whether some number of a table is not low to high.
pub fn any_outside<T: Ranged>(low: T, high: T, table: &[T]) -> bool
    ensures { result ≡ any (T.Ranged.beyond low high) table.now }
{
    table.iter().any(|n| n.is_outside(low, high))
}
