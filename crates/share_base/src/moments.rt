//! Moments, in milliseconds.

ghost use Rattle.std.specs.Prelude.{◌≡◌, ◌≤◌};
ghost use Rattle.share_base.specs.Moments as spec;
ghost use Rattle.share_base.specs.Moments.{last_moment};

/// The last moment, in milliseconds: 2^62. A later one counts as this moment, so that the sum of a
/// moment and a few delays of 32 bits fits in 64 bits.
pub const LAST_MOMENT: u64 = 4_611_686_018_427_387_904;

/// Returns the moment that `milliseconds` counts as: itself, or `LAST_MOMENT` if it is later.
pub fn moment_of(milliseconds: u64) -> u64
    ensures value { result ≡ spec.moment_of milliseconds }
    ensures bound { result ≤ last_moment }
{
    milliseconds.min(LAST_MOMENT)
}
