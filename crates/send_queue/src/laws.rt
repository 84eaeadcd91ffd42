//! What a queue does not depend on. The calls do nothing: their contracts are the laws.

ghost use Rattle.std.specs.Prelude.{◌≡◌, ◌++◌, ◌∷◌, [], List, ℕ, false};
ghost use Rattle.machine.specs.Targets.{Entry, Client, same_target};
ghost use Rattle.send_queue.specs.QueueParts.{QueueParts};
ghost use Rattle.send_queue.specs.Standing.{Stands};

/// An entry for another target changes nothing in a connection's queue.
pub fn other_targets()
    ensures { (q : QueueParts) (routed : List Entry) (serial : ℕ) (e : Entry)
        → same_target e.target (Client serial) ≡ false
        → Stands q routed serial → Stands q (routed ++ e ∷ []) serial }
{}
