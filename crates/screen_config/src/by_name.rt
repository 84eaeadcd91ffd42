//! Values that are found by their names.

ghost use Rattle.std.specs.Prelude.{◌≡◌, ◌<◌, ◌≤◌, ◌++◌, ◌∷◌, [], length, take, IfOk, IfSome, OnOk};
ghost use Rattle.std.specs.Prelude.{OnErr, None, slice_get, true};
ghost use Rattle.std.specs.List.{position};
ghost use Rattle.share_base.specs.Names.{same_name};
ghost use Rattle.option_table.specs.Table.{row_of};
ghost use Rattle.option_table.specs.Values.{suits};
ghost use Rattle.screen_config.specs.Configurations.{screens_with};
ghost use Rattle.screen_config.specs.Keyed.{small};

use crate::screens::Screen;
use indexmap::IndexMap;
use option_table::OptionName;
use share_base::{LONGEST_NAME, OutOfMemory, ScreenName};
use std::alloc::Global;
use std::marker::Model;

/// A value that has a screen's name.
pub(crate) trait Named: Drop {
    ghost name_of: { Self → List ℕ };

    ghost use Rattle.std.specs.Prelude.{List, ℕ};

    /// The name, as the text spells it.
    fn name(&self) -> &ScreenName
        ensures { result.now ≡ name_of self.now };
}

/// Values in the order in which they were added, each found by its name in capital or small
/// letters, without a walk over the others. Contracts see the list of values.
#[derive(Debug, Drop)]
pub(crate) struct ByName<T: Named> {
    values: IndexMap<Vec<u8>, T>,
}

impl<T: Named> Model for ByName<T> {
    ghost use Rattle.std.specs.Prelude.{List};
    ghost use Rattle.indexmap.specs.IndexMap.{values as values_of};
    ghost use Rattle.screen_config.specs.Keyed.{AreKeyed};

    ghost Value = { List T };

    ghost view = { λ b. values_of b.values };

    ghost invariant = { λ b. AreKeyed T.name_of b.values.entries };
}

fn in_small_letters(name: &[u8]) -> [u8; LONGEST_NAME]
    requires { length name.now ≤ LONGEST_NAME }
    ensures { take (length name.now) result ≡ small name.now }
{
    let mut letters = [0; LONGEST_NAME];
    let part = &mut letters[..name.len()];
    part.copy_from_slice(name);
    part.make_ascii_lowercase();
    letters
}

fn key_of(alloc: Global, name: &[u8]) -> Result<Vec<u8>, OutOfMemory>
    ensures { IfOk result (λ key. key.items ≡ small name.now) }
{
    Ok(
        name.iter()
            .map(|byte| byte.to_ascii_lowercase())
            .collect(alloc)?,
    )
}

impl<T: Named> ByName<T> {
    /// No values. Later calls take their memory from `alloc`.
    pub fn new(alloc: Global) -> ByName<T>
        ensures { result ≡ [] }
    {
        ByName {
            values: IndexMap::new(alloc),
        }
    }

    /// The values, in the order in which they were added.
    pub fn as_slice(&self) -> &[T]
        ensures { result.now ≡ self.now }
    {
        self.values.values().as_slice()
    }

    /// The index of the value of that name.
    pub fn index_of(&self, name: &[u8]) -> Option<usize>
        ensures index { result ≡ position (λ v. same_name (T.name_of v) name.now) self.now }
        ensures within { IfSome result (λ n. n < length self.now) }
    {
        let values = &self.values;
        if name.len() > LONGEST_NAME {
            return None;
        }
        let key = in_small_letters(name);
        values.get_index_of(&key[..name.len()])
    }

    /// Adds a value after the others, of which none has its name.
    pub fn push(&mut self, value: T) -> Result<(), OutOfMemory>
        requires { position (λ v. same_name (T.name_of v) (T.name_of value)) self.old ≡ None }
        ensures ok { OnOk result (self.new ≡ self.old ++ value ∷ []) }
        ensures err { OnErr result (self.new ≡ self.old) }
    {
        let key = key_of(*self.values.allocator(), value.name().as_slice())?;
        self.values.insert(key, value)?;
        Ok(())
    }
}

impl ByName<Screen> {
    /// Sets an option of the screen at an index.
    pub fn set(&mut self, index: usize, option: OptionName, value: u32)
        requires known { index < length self.old }
        requires suits { suits (row_of option).form value ≡ true }
        ensures { self.new ≡ screens_with (slice_get self.old index) self.old index option value }
    {
        let screen = &mut self.values[index];
        screen.settings.set(option, value);
    }
}
