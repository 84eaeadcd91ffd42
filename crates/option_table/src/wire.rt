//! The options that a screen is sent.

ghost use Rattle.std.specs.Prelude.{◌≡◌, ◌++◌, OnOk};
ghost use Rattle.option_table.specs.Settings.{setting, own_or_all};
ghost use Rattle.option_table.specs.Wire.{sent_of, wire_words};

use crate::rows::{OPTIONS, OptionName};
use crate::settings::Settings;
use share_base::{OutOfMemory, Words32};

fn value_for(own: &Settings, all: &Settings, option: OptionName) -> Option<u32>
    ensures { result ≡ own_or_all (setting own.now option) (setting all.now option) }
{
    match own.get(option) {
        Some(value) => Some(value),
        None => all.get(option),
    }
}

#[tactic(auto, unfolding(crate::specs::Wire::sent_of))]
fn put_option(
    own: &Settings,
    all: &Settings,
    option: OptionName,
    out: &mut Words32,
) -> Result<(), OutOfMemory>
    ensures { OnOk result (out.new ≡ out.old ++ sent_of own.now all.now option) }
{
    let Some(code) = option.row().code else {
        return Ok(());
    };
    let Some(value) = value_for(own, all, option) else {
        return Ok(());
    };
    out.extend(&[code, value])
}

/// Adds the words of a screen with these options of its own, beside those for all screens: of each
/// option that is set and has a code, the code and then the value, in the order of the table. A
/// screen's own value stands in place of that for all. After `OutOfMemory` some of them may have
/// been added.
pub fn put_wire_words(own: &Settings, all: &Settings, out: &mut Words32) -> Result<(), OutOfMemory>
    ensures { OnOk result (out.new ≡ out.old ++ wire_words own.now all.now) }
{
    for option in OPTIONS {
        put_option(own, all, option, out)?;
    }
    Ok(())
}
