//! What holds of the texts of every number.

ghost use Rattle.std.specs.Prelude.{ℕ};
ghost use Rattle.made_accepted.specs.Accepted.{TextsAreAccepted, TextsFitFiles, TextsSpell};
ghost use Rattle.made_accepted.specs.Spoken.{made_config, made_script, made_trace};

/// The configuration, the script and the trace that a number makes are accepted, none of them
/// refused: four screens in a row, 2,000 events under these, each as its draws say, and a trace in
/// which three clients join. None has more bytes than a file of its kind may have.
pub fn made_texts_are_accepted()
    ensures accepted { (n : ℕ) → TextsAreAccepted n }
    ensures spell { (n : ℕ) → TextsSpell n made_config (made_script n) made_trace }
    ensures short { (n : ℕ) → TextsFitFiles n }
{}
