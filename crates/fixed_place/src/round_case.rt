// Roundings worked by hand, and the check of a table of them.
ghost use Rattle.std.specs.Prelude.{◌≡◌};
ghost use Rattle.std.specs.List.{position_from};
ghost use Rattle.std.specs.Result.{result_err};
ghost use Rattle.fixed_place.specs.Cases.{is_wrong};

use crate::{Amount, Keep, mul_up};

/// A rounding worked by hand: of the amount `a` a candidate of keep value `k` keeps `kept`.
#[derive(Clone, Copy, Debug, PartialEq, Eq)]
pub struct RoundCase<const P: usize> {
    pub a: Amount<P>,
    pub k: Keep<P>,
    pub kept: Amount<P>,
}

/// Holds each case against [`mul_up`]; an error is the index of the first case that is wrong.
pub fn check_cases<const P: usize, const N: usize>(cases: &[RoundCase<P>; N]) -> Result<(), usize>
    ensures { result_err result ≡ position_from (is_wrong P) 0 cases.now }
{
    for (i, case) in cases.iter().enumerate() {
        if is_wrong(case) {
            return Err(i);
        }
    }
    Ok(())
}

fn is_wrong<const P: usize>(case: &RoundCase<P>) -> bool
    ensures { result ≡ is_wrong P case.now }
{
    mul_up(case.a, case.k) != case.kept
}
