//! What a hub in memory answers for itself: that it listens, its turns, its clock, and who joins.

ghost use Rattle.std.specs.Prelude.{◌≡◌, ◌==◌, ◌<◌, [], false, length};
ghost use Rattle.hub_acts.specs.Acts.{wait_act};
ghost use Rattle.hub_acts.specs.Hubs.{FitsWait, FitsAccept};
ghost use Rattle.hub_acts.specs.declared.act.Act.TheVariants as act;
ghost use Rattle.hub_mem.specs.Stories.{clock_in};
ghost use Rattle.hub_mem.specs.Answers.{Plays, is_to_fail, tally, story, listen_given, accept_given};
ghost use Rattle.hub_mem.specs.HubPlays.{PlaysListen, PlaysWait, PlaysNow, PlaysAccept};
ghost use Rattle.hub_mem.specs.Standing.{IsNoTurn};

use crate::memory_hub::MemoryHub;
use crate::turn_marks::report_turn;
use hub_acts::{AcceptAnswer, Act, CallFault, Marks, ReadyList, Waited};
use share_base::OutOfMemory;

impl MemoryHub {
    /// What the next listen answers.
    fn next_listen(&self) -> Result<(), CallFault>
        ensures { result ≡ listen_given self.now }
    {
        if self.is_to_fail() {
            Err(CallFault::Failed)
        } else {
            Ok(())
        }
    }

    pub(crate) fn play_listen(&mut self, port: u16) -> Result<(), CallFault>
        ensures { PlaysListen port result self.old self.new }
    {
        let answer = self.next_listen();
        match self.add_quiet(Act::Listen { port, answer }) {
            Ok(()) => answer,
            Err(_) => Err(CallFault::OutOfMemory),
        }
    }

    /// Brings the next turn.
    fn wait_for_turn(&mut self, ms: u32, ready: &mut ReadyList) -> Waited
        requires few { length (tally self.old).serials < 128 }
        requires going { is_to_fail self.old ≡ false }
        requires more { 0 < length (story self.old).ahead }
        ensures fits { FitsWait result ready.old ready.new }
        ensures plays { PlaysWait ms ready.new result self.old self.new }
    {
        let mut reported = ReadyList::new();
        report_turn(
            self.playback.next_turn(),
            self.ledger.serials(),
            &mut reported,
        );
        let Ok(marks) = Marks::from_slice(self.alloc, reported.as_slice()) else {
            return Waited::OutOfMemory;
        };
        let answer = Waited::Ready;
        match self.ledger.add(Act::Wait { ms, answer, marks }) {
            Ok(()) => {
                self.playback.advance();
                *ready = reported;
                answer
            }
            Err(_) => Waited::OutOfMemory,
        }
    }

    /// A wait that brings no turn.
    fn wait_for_none(&mut self, ms: u32, ready: &mut ReadyList, answer: Waited) -> Waited
        requires { IsNoTurn answer }
        ensures fits { FitsWait result ready.old ready.new }
        ensures plays { Plays (act.Wait ms answer []) (wait_act ms ready.new result) self.old
            self.new }
    {
        let marks = Marks::new(self.alloc);
        match self.add_quiet(Act::Wait { ms, answer, marks }) {
            Ok(()) => {
                ready.clear();
                answer
            }
            Err(_) => Waited::OutOfMemory,
        }
    }

    /// Whether all lines have come.
    fn is_over(&self) -> bool
        ensures { result ≡ (length (story self.now).ahead == 0) }
    {
        self.playback.is_over()
    }

    pub(crate) fn play_wait(&mut self, ms: u32, ready: &mut ReadyList) -> Waited
        requires { length (tally self.old).serials < 128 }
        ensures fits { FitsWait result ready.old ready.new }
        ensures plays { PlaysWait ms ready.new result self.old self.new }
    {
        if self.is_to_fail() {
            return self.wait_for_none(ms, ready, Waited::Failed);
        }
        if self.is_over() {
            return self.wait_for_none(ms, ready, Waited::Over);
        }
        self.wait_for_turn(ms, ready)
    }

    /// The moment of the latest turn, 0 before the first.
    fn clock(&self) -> u64
        ensures { result ≡ clock_in (story self.now).scenes }
    {
        self.playback.clock()
    }

    pub(crate) fn play_now(&mut self) -> Result<u64, OutOfMemory>
        ensures { PlaysNow result self.old self.new }
    {
        let moment = self.clock();
        self.add_quiet(Act::Now { moment })?;
        Ok(moment)
    }

    /// What the next accept answers.
    fn next_accept(&self) -> AcceptAnswer
        ensures { result ≡ accept_given self.now }
    {
        let latest = self.ledger.latest();
        if self.is_to_fail() {
            AcceptAnswer::Failed
        } else if latest < self.playback.joined() {
            AcceptAnswer::New(latest + 1)
        } else {
            AcceptAnswer::NotNow
        }
    }

    pub(crate) fn play_accept(&mut self) -> AcceptAnswer
        ensures fits { FitsAccept result (tally self.old).latest }
        ensures plays { PlaysAccept result self.old self.new }
    {
        let answer = self.next_accept();
        match self.add_quiet(Act::Accept { answer }) {
            Ok(()) => answer,
            Err(_) => AcceptAnswer::OutOfMemory,
        }
    }
}
