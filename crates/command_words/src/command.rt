//! The commands.

use message_codec::End;
use share_base::ScreenName;

/// A command of the program, with the words that it takes as they are.
#[derive(Debug, Drop)]
pub enum Command<'a> {
    /// Frames of a server from standard input, as lines of injection.
    Inject,
    /// Frames of that end from standard input, as show lines.
    Show(End),
    /// The configuration in the file of that name, as its normal form.
    Check(&'a str),
    /// What a server of that configuration and that script logs while a trace drives it.
    Replay {
        /// The name of the configuration's file.
        config: &'a str,
        /// The name of the script's file.
        script: &'a str,
        /// The name of the trace's file.
        trace: &'a str,
    },
    /// A server of that configuration and that script, for clients that connect to it.
    Serve {
        /// The name of the configuration's file.
        config: &'a str,
        /// The name of the script's file.
        script: &'a str,
        /// The port that it listens at, 0 for any free one.
        port: u16,
        /// How many turns it makes at most.
        turns: u32,
    },
    /// A client that connects to a server.
    Join {
        /// The name of its screen.
        name: ScreenName,
        /// The server's host.
        host: &'a str,
        /// The server's port.
        port: u16,
        /// The width of its screen, 1 to 32,767.
        w: u16,
        /// The height of its screen, 1 to 32,767.
        h: u16,
        /// The name of the script's file.
        script: &'a str,
        /// How many turns it makes at most.
        turns: u32,
    },
    /// The generated texts of that number, and a run over them.
    Generate(u64),
}
