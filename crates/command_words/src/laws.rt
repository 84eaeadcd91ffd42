//! A law on words. The call does nothing: its contract is the law.

ghost use Rattle.std.specs.Prelude.{◌≡◌, List, String};
ghost use Rattle.std.specs.Global.{Global};
ghost use Rattle.command_words.specs.Forms.{Form, Names};

/// Words name one command at most.
pub fn words_name_one_command()
    ensures { (form other : Form) (words : List (String Global))
        → Names form words → Names other words → form ≡ other }
{}
