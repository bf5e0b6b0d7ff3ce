//! The least common multiple of many numbers.

ghost use Rattle.std.specs.Prelude.{◌≡◌, ◌≢◌, pos, ◌<ℤ◌, ℤ, MatchOption, unsigned_abs};
ghost use Rattle.std.specs.List.{All};
ghost use Rattle.cooper_solve.specs.Multiples.{IsLeastMultiple, IsBeyond};

use wide_num::lcm;

/// The least positive number that each of these divides, none of which is 0; or nothing where it is outside 128 bits.
pub(crate) fn least_multiple(numbers: &[i128]) -> Option<i128>
    requires { All (λ n. n ≢ pos 0) numbers.now }
    ensures { MatchOption result (IsBeyond numbers.now) (λ l. (pos 0 <ℤ l) × IsLeastMultiple numbers.now (unsigned_abs l)) }
{
    let mut all = 1;
    for number in numbers {
        let Some(next) = lcm(all, *number) else {
            return None;
        };
        all = next;
    }
    Some(all)
}
