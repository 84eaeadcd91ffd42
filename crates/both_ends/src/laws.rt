//! What holds of a server and of a client that hears it. The calls do nothing: their contracts are
//! the laws.

ghost use Rattle.both_ends.specs.Greetings.{GreetedFirst};
ghost use Rattle.both_ends.specs.Numbers.{AllIsWritable};
ghost use Rattle.client_core.specs.Happenings.{injecting};
ghost use Rattle.both_ends.specs.Understanding.{IsUnderstoodBy, JoiningUnderstands};

/// Whatever a connection is told begins with the greeting of version 1.6, and no greeting and
/// nothing that only a client sends comes later.
pub fn greeted_first()
    ensures { GreetedFirst }
{}

/// Under a configuration that was read, with a script whose numbers are those of its types and
/// pieces of bytes, all that is told can be written: its numbers fit their fields, its texts are
/// bytes, and its body has at most 4,194,304 bytes.
pub fn all_is_writable()
    ensures { AllIsWritable }
{}

/// A client that joins and is fed any front of a connection's queue, in any pieces, at any moments and
/// takings, never ends as if the server had sent what it may not send. It hears messages that were
/// queued, prints their keys and buttons under the map that the options have made by each of them,
/// and tells the whole clipboards among them, in their order. The same of a client that injects.
pub fn both_ends()
    ensures joining { JoiningUnderstands }
    ensures injecting { IsUnderstoodBy injecting }
{}
