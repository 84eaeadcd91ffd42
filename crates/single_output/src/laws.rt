//! What holds of all replays of the same files.

ghost use Rattle.single_output.specs.OneOutput.{WriteAlike, QueueAlike};

/// All replays of the same configuration, script and trace that end well write the same, if in one
/// of them no queue has a full chunk of a clipboard in it; then in none of them a queue has one.
pub fn one_output()
    ensures output { WriteAlike }
    ensures queues { QueueAlike }
{}
