//! Options as they are printed.

ghost use Rattle.std.specs.Prelude.{◌≡◌, ◌≤◌, ◌<◌, ◌++◌, ◌∷◌, [], OnOk, OnErr, Some, slice_get};
ghost use Rattle.std.specs.Prelude.{length, true};
ghost use Rattle.std.specs.Fmt.{decimal};
ghost use Rattle.option_table.specs.Values.{suits, words_of_form};
ghost use Rattle.option_table.specs.Table.{row_of};
ghost use Rattle.option_table.specs.Printed as spec;

use crate::corners::CornerWord;
use crate::rows::{OPTIONS, OptionName, ValueForm};
use crate::settings::Settings;
use share_base::{Octets, OutOfMemory, ShortLine, put_u32};

const CORNERS: [CornerWord; 4] = [
    CornerWord::TopLeft,
    CornerWord::TopRight,
    CornerWord::BottomLeft,
    CornerWord::BottomRight,
];

/// Adds a number in decimal digits. After `OutOfMemory` nothing was added.
pub fn put_number(number: u32, out: &mut Octets) -> Result<(), OutOfMemory>
    ensures ok { OnOk result (out.new ≡ out.old ++ decimal number) }
    ensures err { OnErr result (out.new ≡ out.old) }
{
    let mut digits = ShortLine::new();
    put_u32(&mut digits, number);
    out.extend(digits.as_slice())
}

#[tactic(auto, unfolding(crate::specs::Printed::corner_text))]
fn put_corner(set: u32, corner: CornerWord, out: &mut Octets) -> Result<(), OutOfMemory>
    ensures { OnOk result (out.new ≡ out.old ++ spec.corner_text set corner) }
{
    if set & corner.corners() == 0 {
        return Ok(());
    }
    out.extend(b" +")?;
    out.extend(corner.word())
}

fn put_corners(set: u32, out: &mut Octets) -> Result<(), OutOfMemory>
    ensures { OnOk result (out.new ≡ out.old ++ spec.corners_text set) }
{
    out.extend(b"none")?;
    for corner in CORNERS {
        put_corner(set, corner, out)?;
    }
    Ok(())
}

fn put_word(form: ValueForm, value: u32, out: &mut Octets) -> Result<(), OutOfMemory>
    requires { value < length (words_of_form form) }
    ensures { OnOk result (out.new ≡ out.old ++ spec.word_text form value) }
{
    let words = form.words();
    out.extend(words[value as usize].as_bytes())
}

#[tactic(auto, unfolding(crate::specs::Printed::value_text))]
fn put_value(form: ValueForm, value: u32, out: &mut Octets) -> Result<(), OutOfMemory>
    requires { suits form value ≡ true }
    ensures { OnOk result (out.new ≡ out.old ++ spec.value_text form value) }
{
    match form {
        ValueForm::Flag => put_word(form, value, out),
        ValueForm::Modifier => put_word(form, value, out),
        ValueForm::Corners => put_corners(value, out),
        ValueForm::UpTo(_) => put_number(value, out),
        ValueForm::Protocol => put_word(form, value, out),
    }
}

fn put_option(option: OptionName, value: u32, out: &mut Octets) -> Result<(), OutOfMemory>
    requires { suits (row_of option).form value ≡ true }
    ensures { OnOk result (out.new ≡ out.old ++ spec.option_text option value) }
{
    let row = option.row();
    out.extend(row.key.as_bytes())?;
    out.extend(b" = ")?;
    put_value(row.form, value, out)
}

#[tactic(auto, unfolding(crate::specs::Printed::option_line))]
fn put_line(
    tabs: &[u8],
    settings: &Settings,
    option: OptionName,
    out: &mut Octets,
) -> Result<(), OutOfMemory>
    ensures { OnOk result (out.new ≡ out.old ++ spec.option_line tabs.now settings.now option) }
{
    let Some(value) = settings.get(option) else {
        return Ok(());
    };
    out.extend(tabs)?;
    put_option(option, value, out)?;
    out.push(b'\n')
}

/// Adds a line `KEY = VALUE` for each option that is set, in the order of the table, with these
/// bytes before each. After `OutOfMemory` some of it may have been added.
pub fn put_option_lines(
    tabs: &[u8],
    settings: &Settings,
    out: &mut Octets,
) -> Result<(), OutOfMemory>
    ensures { OnOk result (out.new ≡ out.old ++ spec.option_lines tabs.now settings.now) }
{
    for option in OPTIONS {
        put_line(tabs, settings, option, out)?;
    }
    Ok(())
}
