//! Options that are set.

ghost use Rattle.std.specs.Prelude.{◌≡◌, IfSome, true};
ghost use Rattle.option_table.specs.Settings as spec;
ghost use Rattle.option_table.specs.Settings.{none_set, with_setting};
ghost use Rattle.option_table.specs.Table.{row_of};
ghost use Rattle.option_table.specs.Values.{suits};

use crate::rows::OptionName;
use std::marker::Model;

/// Options that are set, each with its value. Contracts see the values by row of the table.
#[derive(Debug, Drop)]
pub struct Settings {
    values: [Option<u32>; 26],
}

impl Model for Settings {
    ghost use Rattle.option_table.specs.Settings.{Values, AreSuited};

    ghost Value = { Values };

    ghost view = { λ s. s.values };

    ghost invariant = { λ s. AreSuited s.values };
}

impl Settings {
    /// None is set.
    pub fn new() -> Settings
        ensures { result ≡ none_set }
    {
        Settings { values: [None; 26] }
    }

    /// The value of an option, where it is set. It suits the option's form.
    pub fn get(&self, option: OptionName) -> Option<u32>
        ensures value { result ≡ spec.setting self.now option }
        ensures suits { IfSome result (λ v. suits (row_of option).form v ≡ true) }
    {
        self.values[option.place()]
    }

    /// The value that stands for an option: the one that is set, or its row's default.
    pub fn value(&self, option: OptionName) -> u32
        ensures value { result ≡ spec.standing self.now option }
        ensures suits { suits (row_of option).form result ≡ true }
    {
        match self.get(option) {
            Some(value) => value,
            None => option.row().default,
        }
    }

    /// Sets an option to a value that suits its form. An earlier value is replaced.
    pub fn set(&mut self, option: OptionName, value: u32)
        requires { suits (row_of option).form value ≡ true }
        ensures { self.new ≡ with_setting self.old option value }
    {
        self.values[option.place()] = Some(value);
    }
}
