//! Where bytes come from.

ghost use Rattle.std.specs.Prelude.{◌<◌, length};
ghost use Rattle.share_base.specs.Reading.{SourceState, FitsRead, Reads};

/// What a read answers.
#[derive(Clone, Copy, Debug, PartialEq, Eq)]
pub enum SourceAnswer {
    /// So many bytes stand at the front of the buffer, at least one.
    Got(usize),
    /// No byte is left.
    End,
    /// The source failed. Its count of faults rose, and no byte was given.
    Failed,
}

/// Where bytes come from. A source that holds its bytes tells them to contracts; one that stands
/// for the real world tells none, and then the clauses on bytes say nothing, while those on faults
/// stand.
pub trait Source {
    /// The bytes that it has left, where they are known, and how often it has failed.
    ghost state: { Self → SourceState };

    /// Reads into the front of `buf`, which is not empty.
    fn read(&mut self, buf: &mut [u8]) -> SourceAnswer
        requires { 0 < length buf.old }
        ensures fits { FitsRead result (length buf.old) }
        ensures reads { Reads result buf.new (state self.old) (state self.new) };
}
