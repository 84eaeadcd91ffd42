//! What a trace's lines say of moments and connections.

ghost use Rattle.std.specs.Prelude.{◌≡◌, ◌++◌, ◌∷◌, ◌&&◌, nat_le, [], List, length, IfOk, OnOk};
ghost use Rattle.std.specs.Prelude.{OnErr, None};
ghost use Rattle.script_screen.specs.declared.trace.TraceLine.{TraceLine as Line};
ghost use Rattle.script_screen.specs.Traces as spec;
ghost use Rattle.script_screen.specs.Traces.{trace_fault};
ghost use Rattle.script_screen.specs.Tracking.{IsTrackAfter};

use crate::kinds::TextKind;
use crate::trace::TraceLine;
use share_base::OutOfMemory;
use std::alloc::Global;

/// What a trace's lines said of moments and connections.
#[derive(Debug, Drop)]
pub(crate) struct Track {
    moment: u64,
    joined: u64,
    over: Vec<bool>,
}

fn unless_known(is_known: bool) -> Option<TextKind>
    ensures { result ≡ spec.unless_known is_known }
{
    if is_known {
        None
    } else {
        Some(TextKind::UnknownConnection)
    }
}

impl Track {
    /// No line was read. The first connection may be named at once.
    pub(crate) fn new(alloc: Global) -> Result<Track, OutOfMemory>
        ensures { IfOk result (λ t. IsTrackAfter t []) }
    {
        let mut over = Vec::new(alloc);
        over.push(false)?;
        Ok(Track {
            moment: 0,
            joined: 0,
            over,
        })
    }

    fn is_known(&self, connection: u64) -> bool
        ensures within { result
            ≡ (nat_le 1 connection && nat_le connection (length self.now.over.items)) }
        ensures known { (lines : List Line) → IsTrackAfter self.now lines
            → result ≡ spec.is_known lines connection }
    {
        1 <= connection && connection <= self.over.len() as u64
    }

    fn is_going(&self, connection: u64) -> bool
        ensures { (lines : List Line) → IsTrackAfter self.now lines
            → result ≡ spec.is_going lines connection }
    {
        self.is_known(connection) && !self.over[(connection - 1) as usize]
    }

    fn join(&mut self, connection: u64) -> Result<(), OutOfMemory>
        ensures ok { OnOk result
            ((lines : List Line) → IsTrackAfter self.old lines
            → trace_fault lines (TraceLine.Join connection) ≡ None
            → IsTrackAfter self.new (lines ++ TraceLine.Join connection ∷ [])) }
        ensures err { OnErr result
            ((lines : List Line) → IsTrackAfter self.old lines → IsTrackAfter self.new lines) }
    {
        if connection > 1 {
            self.over.push(false)?;
        }
        self.joined = connection;
        Ok(())
    }

    fn end(&mut self, connection: u64)
        ensures end { (lines : List Line) → IsTrackAfter self.old lines
            → trace_fault lines (TraceLine.End connection) ≡ None
            → IsTrackAfter self.new (lines ++ TraceLine.End connection ∷ []) }
        ensures fail { (lines : List Line) → IsTrackAfter self.old lines
            → trace_fault lines (TraceLine.Fail connection) ≡ None
            → IsTrackAfter self.new (lines ++ TraceLine.Fail connection ∷ []) }
    {
        if self.is_known(connection) {
            self.over[(connection - 1) as usize] = true;
        }
    }

    /// What is wrong with one more line.
    pub(crate) fn fault(&self, line: &TraceLine) -> Option<TextKind>
        ensures { (lines : List Line) → IsTrackAfter self.now lines
            → result ≡ trace_fault lines line.now }
    {
        match line {
            TraceLine::Turn(moment) => {
                if *moment < self.moment {
                    Some(TextKind::MomentBack)
                } else {
                    None
                }
            }
            TraceLine::Join(connection) => {
                if connection.checked_sub(1) == Some(self.joined) {
                    None
                } else {
                    Some(TextKind::WrongNumber)
                }
            }
            TraceLine::Got {
                connection,
                bytes: _,
            } => unless_known(self.is_going(*connection)),
            TraceLine::End(connection) => unless_known(self.is_going(*connection)),
            TraceLine::Fail(connection) => unless_known(self.is_going(*connection)),
            TraceLine::Room {
                connection,
                room: _,
            } => unless_known(self.is_known(*connection)),
        }
    }

    /// Goes on by one line, which has no fault. After `OutOfMemory` it stands where it did.
    pub(crate) fn follow(&mut self, line: &TraceLine) -> Result<(), OutOfMemory>
        ensures ok { OnOk result
            ((lines : List Line) → IsTrackAfter self.old lines → trace_fault lines line.now ≡ None
            → IsTrackAfter self.new (lines ++ line.now ∷ [])) }
        ensures err { OnErr result
            ((lines : List Line) → IsTrackAfter self.old lines → IsTrackAfter self.new lines) }
    {
        match line {
            TraceLine::Turn(moment) => self.moment = *moment,
            TraceLine::Join(connection) => return self.join(*connection),
            TraceLine::End(connection) => self.end(*connection),
            TraceLine::Fail(connection) => self.end(*connection),
            TraceLine::Got {
                connection: _,
                bytes: _,
            } => {}
            TraceLine::Room {
                connection: _,
                room: _,
            } => {}
        }
        Ok(())
    }
}
