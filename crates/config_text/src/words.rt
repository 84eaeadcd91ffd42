//! Options that a line sets.

ghost use Rattle.std.specs.Prelude.{◌≡◌, IfOk, true};
ghost use Rattle.option_table.specs.Table.{row_of};
ghost use Rattle.option_table.specs.Values.{suits};
ghost use Rattle.config_text.specs.Answering.{Judges};
ghost use Rattle.config_text.specs.Judging as spec;
ghost use Rattle.option_table.specs.Scopes.{stands_below_screen, stands_for_all};
ghost use Rattle.config_text.specs.Judging.{new_setting};
ghost use Rattle.config_text.specs.Places.{stands_at};
ghost use Rattle.config_text.specs.Views.{setting_text};

use crate::faults::{ConfigKind, Fault, LineFault};
use crate::shapes::SettingText;
use option_table::{OptionName, Scope};

/// An option and the value that a line gives it.
#[derive(Clone, Copy, Debug)]
pub(crate) struct Setting {
    pub option: OptionName,
    pub value: u32,
}

/// Nothing, where the condition holds.
pub(crate) fn unless(holds: bool, kind: ConfigKind, left: usize) -> Result<(), LineFault>
    ensures { Judges (λ x. x) result (spec.unless holds kind left) }
{
    if holds {
        Ok(())
    } else {
        Err(LineFault::Refused(Fault { kind, left }))
    }
}

/// What is there, or a fault.
pub(crate) fn found<T: Drop>(
    value: Option<T>,
    kind: ConfigKind,
    left: usize,
) -> Result<T, LineFault>
    ensures { Judges (λ x. x) result (spec.or_fault value kind left) }
{
    match value {
        Some(value) => Ok(value),
        None => Err(LineFault::Refused(Fault { kind, left })),
    }
}

/// A form that can't go on is a bad line there.
pub(crate) fn formed<T: Drop>(read: Result<T, usize>) -> Result<T, LineFault>
    ensures { Judges (λ x. x) result (spec.formed read) }
{
    match read {
        Ok(value) => Ok(value),
        Err(left) => Err(LineFault::Refused(Fault {
            kind: ConfigKind::BadLine,
            left,
        })),
    }
}

// Where a line with an option stands.
#[derive(Clone, Copy)]
enum Place {
    BelowScreen,
    ForAll,
}

fn takes(place: Place, scope: Scope) -> bool
    ensures { result ≡ stands_at place scope }
{
    match place {
        Place::BelowScreen => !matches!(scope, Scope::Global),
        Place::ForAll => !matches!(scope, Scope::Screen),
    }
}

// The option of a line at that place.
#[tactic(auto, unfolding(crate::specs::Judging::new_setting))]
fn placed_setting(place: Place, text: SettingText<'_>) -> Result<Setting, LineFault>
    ensures judged { Judges (λ x. x) result (new_setting (stands_at place) (setting_text text.entry)) }
    ensures stands { IfOk result (λ s. stands_at place (row_of s.option).scope ≡ true) }
    ensures suits { IfOk result (λ s. suits (row_of s.option).form s.value ≡ true) }
{
    let option = found(
        OptionName::named(text.key.text),
        ConfigKind::UnknownOption,
        text.key.left,
    )?;
    let row = option.row();
    unless(
        takes(place, row.scope),
        ConfigKind::UnknownOption,
        text.key.left,
    )?;
    let value = found(
        row.form.value(text.value.text),
        ConfigKind::BadValue,
        text.value.left,
    )?;
    Ok(Setting { option, value })
}

/// The option of a line below a screen's header.
pub(crate) fn own_setting(text: SettingText<'_>) -> Result<Setting, LineFault>
    ensures judged { Judges (λ x. x) result
        (new_setting stands_below_screen (setting_text text.entry)) }
    ensures stands { IfOk result (λ s. stands_below_screen (row_of s.option).scope ≡ true) }
    ensures suits { IfOk result (λ s. suits (row_of s.option).form s.value ≡ true) }
{
    placed_setting(Place::BelowScreen, text)
}

/// The option of a line among those for all screens.
pub(crate) fn global_setting(text: SettingText<'_>) -> Result<Setting, LineFault>
    ensures judged { Judges (λ x. x) result (new_setting stands_for_all (setting_text text.entry)) }
    ensures stands { IfOk result (λ s. stands_for_all (row_of s.option).scope ≡ true) }
    ensures suits { IfOk result (λ s. suits (row_of s.option).form s.value ≡ true) }
{
    placed_setting(Place::ForAll, text)
}
