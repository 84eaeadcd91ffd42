//! Screens and their aliases.

use crate::by_name::Named;
use option_table::Settings;
use share_base::ScreenName;

/// A screen, with its own options.
#[derive(Debug, Drop)]
pub struct Screen {
    /// Its name, as the text spells it.
    pub name: ScreenName,
    /// The options that are set for it alone.
    pub settings: Settings,
}

/// Another name of a screen.
#[derive(Debug, Drop)]
pub struct Alias {
    /// The name, as the text spells it.
    pub name: ScreenName,
    /// The number of the screen.
    pub screen: u16,
}

impl Named for Screen {
    ghost name_of = { λ s. s.name };

    fn name(&self) -> &ScreenName {
        &self.name
    }
}

impl Named for Alias {
    ghost name_of = { λ a. a.name };

    fn name(&self) -> &ScreenName {
        &self.name
    }
}
