//! The configuration of two screens that other tests stand on.

use screen_config::Config;
use share_base::{ScreenName, ScreenNo};
use std::alloc::Global;
use std::test::*;

pub const DESK: ScreenNo = ScreenNo(0);

pub const PAD: ScreenNo = ScreenNo(1);

fn add_screen(config: &mut Config, name: &[u8]) -> Result<(), Fail> {
    if config.count() >= 64 {
        return Err(Fail::new("a 65th screen"));
    }
    let None = config.find(name) else {
        return Err(Fail::new("a screen of that name"));
    };
    let Some(name) = ScreenName::read(name) else {
        return Err(Fail::new("no name"));
    };
    config.add_screen(name)?;
    Ok(())
}

/// The screens `desk` and `pad`, and the default rate of 3,000.
pub fn desk_and_pad(alloc: Global) -> Result<Config, Fail> {
    let mut config = Config::new(alloc);
    add_screen(&mut config, b"desk")?;
    add_screen(&mut config, b"pad")?;
    Ok(config)
}
