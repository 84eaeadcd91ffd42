//! Where bytes go.

ghost use Rattle.std.specs.Prelude.{◌<◌, length};
ghost use Rattle.share_base.specs.Writing.{SinkState, FitsWrite, Writes, WritesAll};

/// What a write answers.
#[derive(Clone, Copy, Debug, PartialEq, Eq)]
pub enum SinkAnswer {
    /// So many bytes, from the front, were taken, at least one.
    Took(usize),
    /// The sink failed. Its count of faults rose, and no byte was taken.
    Failed,
}

/// Where bytes go. A sink that holds what it took tells it to contracts.
pub trait Sink {
    /// The bytes that it has taken, where they are known, and how often it has failed.
    ghost state: { Self → SinkState };

    /// Writes a front of `bytes`, which are not empty.
    fn write(&mut self, bytes: &[u8]) -> SinkAnswer
        requires { 0 < length bytes.now }
        ensures fits { FitsWrite result (length bytes.now) }
        ensures writes { Writes result bytes.now (state self.old) (state self.new) };
}

/// Writes all the bytes, by as many writes as that takes. False comes only where the sink failed;
/// it has taken a front of the bytes then, and no write is made after the one that failed.
pub fn write_all<K: Sink>(out: &mut K, bytes: &[u8]) -> bool
    ensures { WritesAll result bytes.now (K.state out.old) (K.state out.new) }
{
    let mut at = 0;
    while at < bytes.len() {
        match out.write(&bytes[at..]) {
            SinkAnswer::Took(n) => at += n,
            SinkAnswer::Failed => return false,
        }
    }
    true
}
