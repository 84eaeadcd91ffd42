//! Ways out of a screen.

use screen_links::Landing;
use share_base::Side;

/// A side of the active screen that the cursor may cross, and where it leads.
#[derive(Clone, Copy, Debug, PartialEq, Eq)]
pub struct Way {
    /// The side that is crossed.
    pub side: Side,
    /// The screen that is entered, and the position along its facing side.
    pub landing: Landing,
}
