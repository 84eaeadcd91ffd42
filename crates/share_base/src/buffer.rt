//! A buffer of bytes that text is printed into.

ghost use Rattle.std.specs.Prelude.{◌≡◌, ◌≤◌, ◌+◌, ◌++◌, List, ℕ, length};

/// A buffer of bytes that the caller owns and that printers append to, without memory as long as
/// the bytes fit.
pub trait Buffer {
    /// The bytes in the buffer.
    ghost content: { Self → List ℕ };

    /// How many bytes fit without memory.
    ghost capacity: { Self → ℕ };

    /// Appends bytes, which have to fit.
    fn extend(&mut self, bytes: &[u8])
        requires { length (content self.old) + length bytes.now ≤ capacity self.old }
        ensures appended { content self.new ≡ content self.old ++ bytes.now }
        ensures capacity { capacity self.old ≤ capacity self.new };
}

impl Buffer for Vec<u8> {
    ghost use Rattle.std.specs.Prelude.{vec_capacity};

    ghost content = { λ v. v.items };

    ghost capacity = { vec_capacity };

    fn extend(&mut self, bytes: &[u8]) {
        match self.extend_from_slice(bytes) {
            Ok(()) => {}
            Err(_) => unreachable!(),
        }
    }
}
