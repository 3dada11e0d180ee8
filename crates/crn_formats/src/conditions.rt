// Conditions put together. A check joins its conditions by `&`, as its definition joins them by `both`. `&` looks at both sides: none of
// these conditions can fail, and no side has to be kept from being looked at.
ghost use Rattle.std.specs.Prelude.{◌≡◌, true};
ghost use Rattle.crn_format.specs.Choice.{pick};
ghost use Rattle.crn_format.specs.Header.{between};

pub fn between(low: u32, high: u32, n: u32) -> bool
    ensures { result ≡ between low high n }
{
    (low <= n) & (n <= high)
}

// What has to hold only where it is wanted.
pub fn implies(wanted: bool, holds: bool) -> bool
    ensures { result ≡ pick wanted holds true }
{
    !wanted | holds
}
