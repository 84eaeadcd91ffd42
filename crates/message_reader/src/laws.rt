//! Laws of reading. The functions do nothing: their contracts are the laws.

ghost use Rattle.std.specs.Prelude.{◌≡◌, List, ℕ, Option};
ghost use Rattle.message_codec.specs.declared.messages.Msg.{Msg};
ghost use Rattle.message_codec.specs.Streams.{Reader};
ghost use Rattle.message_codec.specs.Verdicts.{Verdict};
ghost use Rattle.message_reader.specs.declared.reader.BadFrame.{BadFrame};
ghost use Rattle.message_reader.specs.Steps.{Concludes, bad_frame};

/// A reader that was asked to the end of a stream has the one verdict on it. So the same messages
/// and the same bad frame come however the stream was cut into pieces.
pub fn one_reading()
    ensures { (reader : Reader) (stream : List ℕ) (messages : List Msg) (bad : Option BadFrame)
        → Concludes reader stream messages bad
        → (v : Verdict reader stream) → (v.messages ≡ messages) × (bad_frame v ≡ bad) }
{}
