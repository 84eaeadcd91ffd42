//! Acts: the calls that were made on a hub or a link, with what they answered.

use crate::answers::{AcceptAnswer, CallFault, LinkWaited, ReadAnswer, Waited, WriteAnswer};
use crate::marks::Marks;
use share_base::Octets;

/// A call with its arguments and its answer. No act answers `OutOfMemory`.
#[derive(Drop)]
pub enum Act {
    /// `Hub::listen`.
    Listen {
        /// The port, 0 for any.
        port: u16,
        /// The answer.
        answer: Result<(), CallFault>,
    },
    /// `Hub::wait`.
    Wait {
        /// The timeout, in milliseconds.
        ms: u32,
        /// The answer.
        answer: Waited,
        /// The marks that the call left in the list.
        marks: Marks,
    },
    /// `Hub::now`.
    Now {
        /// The moment that it answered, in milliseconds.
        moment: u64,
    },
    /// `Hub::accept`.
    Accept {
        /// The answer.
        answer: AcceptAnswer,
    },
    /// `Hub::read`.
    Read {
        /// The connection.
        serial: u64,
        /// The length of the buffer.
        room: usize,
        /// The answer.
        answer: ReadAnswer,
        /// The bytes that came, none but for `Got`.
        bytes: Octets,
    },
    /// `Hub::write`.
    Write {
        /// The connection.
        serial: u64,
        /// The bytes that were offered.
        bytes: Octets,
        /// The answer.
        answer: WriteAnswer,
    },
    /// `Hub::close`.
    Close {
        /// The connection.
        serial: u64,
    },
    /// `Link::connect`.
    LinkConnect {
        /// The bytes of the host's name.
        host: Octets,
        /// The port.
        port: u16,
        /// The answer.
        answer: Result<(), CallFault>,
    },
    /// `Link::wait`.
    LinkWait {
        /// The timeout, in milliseconds.
        ms: u32,
        /// The answer.
        answer: LinkWaited,
    },
    /// `Link::now`.
    LinkNow {
        /// The moment that it answered, in milliseconds.
        moment: u64,
    },
    /// `Link::read`.
    LinkRead {
        /// The length of the buffer.
        room: usize,
        /// The answer.
        answer: ReadAnswer,
        /// The bytes that came, none but for `Got`.
        bytes: Octets,
    },
    /// `Link::write`.
    LinkWrite {
        /// The bytes that were offered.
        bytes: Octets,
        /// The answer.
        answer: WriteAnswer,
    },
    /// `Link::close`.
    LinkClose,
}
