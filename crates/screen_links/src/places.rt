//! Places along a side, and pixels.

ghost use Rattle.std.specs.Prelude.{◌≡◌, ◌<◌, ◌≤◌};
ghost use Rattle.screen_links.specs.Places.{place_of, pixel_of};

/// The place of pixel `p` on a side of `n` pixels, in millionths of the side: that of the pixel's
/// middle, rounded down. `p` is below `n`, and `n` is 1 to 32,767. It takes no memory.
pub fn place(p: u32, n: u32) -> u32
    requires on_the_side { p < n }
    requires small { n ≤ 32767 }
    ensures value { result ≡ place_of p n }
    ensures bound { result < 1000000 }
{
    ((2 * p as u64 + 1) * 1_000_000 / (2 * n as u64)) as u32
}

/// The pixel in which a place lies, on a side of `n` pixels. The place is below 1,000,000, and `n`
/// is 1 to 32,767. It takes no memory.
pub fn pixel(t: u32, n: u32) -> u32
    requires in_the_side { t < 1000000 }
    requires some { 1 ≤ n }
    requires small { n ≤ 32767 }
    ensures value { result ≡ pixel_of t n }
    ensures bound { result < n }
{
    (t as u64 * n as u64 / 1_000_000) as u32
}
