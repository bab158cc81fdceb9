//! The numbers of the generator.

ghost use Rattle.std.specs.Prelude.{◌≡◌, ◌<◌, ◌^◌};
ghost use Rattle.generated_runs.specs.Ranks.{next, rank};

/// The number after another.
pub(crate) fn next(x: u64) -> u64
    requires { x < 2 ^ 32 }
    ensures value { result ≡ next x }
    ensures below { result < 2 ^ 32 }
{
    (1_103_515_245 * x + 12_345) % (1 << 31)
}

/// The rank that a number gives, from 0 to 99.
pub(crate) fn rank(x: u64) -> u64
    ensures value { result ≡ rank x }
    ensures below { result < 100 }
{
    x / 65_536 % 100
}
