//! Laws of spelling on which other crates rest. The calls do nothing: their contracts are the laws.

ghost use Rattle.std.specs.Prelude.{◌≡◌, ◌⊎◌, List, ℕ, Result, IfOk, IfErr};
ghost use Rattle.message_codec.specs.declared.messages.End.{End};
ghost use Rattle.message_codec.specs.declared.messages.Msg.{Msg};
ghost use Rattle.message_codec.specs.declared.faults.BadBody.{BadBody};
ghost use Rattle.message_codec.specs.declared.faults.DecodeFault.{DecodeFault};
ghost use Rattle.message_codec.specs.Spelling.{Spells};
ghost use Rattle.message_codec.specs.Refusals.{Refuses, RefusedFor};
ghost use Rattle.message_codec.specs.Decoding.{IsDecoded};
ghost use Rattle.message_codec.specs.Streams.{Reader, AreBytes};
ghost use Rattle.message_codec.specs.Verdicts.{Verdict};
ghost use Rattle.message_codec.specs.BodyVerdicts.{body_verdict, IsVerdictOn};
ghost use Rattle.message_codec.specs.Inboxes.{inbox, HasVerdict};

/// No body spells two messages of one end.
pub fn one_message()
    ensures { (from : End) (m n : Msg) (body : List ℕ)
        → Spells from m body → Spells from n body → m ≡ n }
{}

/// A body that is refused spells no message of that end.
pub fn refused_spells_none()
    ensures { (from : End) (why : BadBody) (m : Msg) (body : List ℕ)
        → Refuses why from body → Spells from m body → ⊥ }
{}

/// A body is refused for one fault at most, the first in the order of `BadBody`.
pub fn one_refusal()
    ensures { (from : End) (a b : BadBody) (body : List ℕ)
        → Refuses a from body → Refuses b from body → a ≡ b }
{}

/// By its two clauses `decode` answers, for a body that spells a message, that message, or
/// `OutOfMemory` where it has a string or a list. So what `encode` appends is decoded as the
/// message that it was made from.
pub fn spelled_is_decoded()
    ensures { (from : End) (m : Msg) (body : List ℕ) (answer : Result Msg DecodeFault)
        → Spells from m body → IfOk answer (λ n. Spells from n body)
        → IfErr answer (λ fault. RefusedFor fault from body) → IsDecoded m answer }
{}

/// Each body spells a message of an end, or it is refused for a fault.
pub fn spelled_or_refused()
    ensures { (from : End) (body : List ℕ) → AreBytes body
        → ((m : Msg) × Spells from m body) ⊎ ((why : BadBody) × Refuses why from body) }
{}

/// A reader comes to a verdict on each stream.
pub fn each_has_a_verdict()
    ensures { (reader : Reader) (stream : List ℕ) → AreBytes stream → Verdict reader stream }
{}

/// A reader comes to one verdict on a stream: the same messages, the same rest at the same place,
/// and the same reason for which it is bad, if it is.
pub fn one_verdict()
    ensures { (reader : Reader) (stream : List ℕ) (a b : Verdict reader stream)
        → (a.messages ≡ b.messages) × (a.rest ≡ b.rest) × (a.place ≡ b.place) × (a.bad ≡ b.bad) }
{}

/// The verdict that is computed on a body is right: the message that it spells, or the fault for
/// which it is refused.
pub fn body_is_judged()
    ensures { (from : End) (body : List ℕ) → AreBytes body
        → IsVerdictOn from body (body_verdict from body) }
{}

/// What is computed of a stream, byte by byte, is the one verdict on it.
pub fn inbox_has_the_verdict()
    ensures { (reader : Reader) (stream : List ℕ) → AreBytes stream → (v : Verdict reader stream)
        → HasVerdict v (inbox reader stream) }
{}
