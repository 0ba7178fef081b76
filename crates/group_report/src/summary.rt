//! What a report says of the values of a group.
ghost use Rattle.std.specs.Int.{int_max, int_min, w128};
ghost use Rattle.std.specs.Prelude.{◌≡◌, ◌+◌, ◌<◌, ◌^◌, ◌+ℤ◌, ◌↔◌, IfSome, IsSome, FitsSigned};
ghost use Rattle.group_report.specs.Sums.{summary_with};

use std::fmt;

/// How many values there are, their sum, the least and the greatest of them.
#[derive(Clone, Copy)]
pub struct Summary {
    pub count: usize,
    pub sum: i128,
    pub least: i64,
    pub greatest: i64,
}

/// The summary of no value, which changes none that it is joined with.
pub const NOTHING: Summary = Summary {
    count: 0,
    sum: 0,
    least: i64::MAX,
    greatest: i64::MIN,
};

impl Summary {
    /// The summary of one value.
    pub fn of(value: i64) -> Summary
        ensures count { result.count ≡ 1 }
        ensures sum { result.sum ≡ value }
        ensures least { result.least ≡ value }
        ensures greatest { result.greatest ≡ value }
    {
        Summary {
            count: 1,
            sum: i128::from(value),
            least: value,
            greatest: value,
        }
    }

    /// The summary of its values and of one more, or none exactly if their number overflows a `usize`
    /// or their sum doesn't fit 128 bits.
    pub fn with(self, value: i64) -> Option<Summary>
        ensures fits { IsSome result ↔ (self.count + 1 < 2 ^ 64) × FitsSigned w128 (self.sum +ℤ value) }
        ensures with { IfSome result (λ all. all ≡ summary_with self value) }
    {
        self.join(Summary::of(value))
    }

    /// The summary of the values of both, or none exactly if their number overflows a `usize` or
    /// their sum doesn't fit 128 bits.
    pub fn join(self, other: Summary) -> Option<Summary>
        ensures fits { IsSome result ↔ (self.count + other.count < 2 ^ 64)
            × FitsSigned w128 (self.sum +ℤ other.sum) }
        ensures count { IfSome result (λ both. both.count ≡ self.count + other.count) }
        ensures sum { IfSome result (λ both. both.sum ≡ self.sum +ℤ other.sum) }
        ensures least { IfSome result (λ both. both.least ≡ int_min self.least other.least) }
        ensures greatest { IfSome result (λ both.
            both.greatest ≡ int_max self.greatest other.greatest) }
    {
        Some(Summary {
            count: self.count.checked_add(other.count)?,
            sum: self.sum.checked_add(other.sum)?,
            least: self.least.min(other.least),
            greatest: self.greatest.max(other.greatest),
        })
    }
}

impl fmt::Display for Summary {
    fn fmt<W: fmt::Write>(&self, f: &mut fmt::Formatter<W>) -> fmt::Result {
        write!(f, "count {}, sum {}, ", self.count, self.sum)?;
        write!(f, "least {}, greatest {}", self.least, self.greatest)
    }
}
