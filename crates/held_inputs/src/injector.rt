//! What a message does to a screen.

ghost use Rattle.std.specs.Prelude.{◌≡◌, ◌↔◌, ◌≤◌, ◌+◌, ◌++◌, ℕ, [], IsTrue, IfSome, length};
ghost use Rattle.std.specs.List.{flat_map};
ghost use Rattle.std.specs.Option.{option_to_list, ForSome};
ghost use Rattle.message_codec.specs.declared.messages.Msg.TheVariants as message;
ghost use Rattle.held_inputs.specs.Line.{line_of, IsShort};
ghost use Rattle.held_inputs.specs.Ranges.{Fits};
ghost use Rattle.held_inputs.specs.Balanced.{NothingDown};
ghost use Rattle.held_inputs.specs.Screen.{Screen, Applies, SetsOption, ResetsOptions, ReleasesAll};
ghost use Rattle.held_inputs.specs.Screen.{meant_id, meant_mask, saver_line};
ghost use Rattle.held_inputs.specs.Stands.{Stands, StandsFor, Follows, Tells, Prints};

use crate::held::{Held, LONGEST_RELEASE};
use crate::line::Line;
use crate::printing::{LONGEST_LINE, put_line};
use message_codec::Msg;
use modifier_map::ModMap;
use share_base::{Buffer, KeyId, Lines, Mask, ShortLine};

/// The longest lines of one message, in bytes: those of a release and then `leave`.
pub const LONGEST_ANSWER: usize = 13_830;

/// Turns messages into the lines that a screen prints. It keeps what is down there, and the map of
/// modifiers. No method allocates.
#[derive(Drop)]
pub struct Injector {
    held: Held,
    mods: ModMap,
}

impl Injector {
    /// Nothing is down, and modifiers are translated by `map`.
    pub fn new(map: ModMap) -> Injector
        ensures { StandsFor map result [] }
    {
        Injector {
            held: Held::new(),
            mods: map,
        }
    }

    /// Changes the map as `ModMap::set` does. What is down stays down, with the id of its down.
    pub fn set_option(&mut self, code: u32, value: u32)
        ensures { Follows self.old self.new (SetsOption code value) }
    {
        self.mods.set(code, value);
    }

    /// From now on each modifier is itself. What is down stays down, with the id of its down.
    pub fn reset_options(&mut self)
        ensures { Follows self.old self.new ResetsOptions }
    {
        self.mods = ModMap::new();
    }

    /// Applies a message and returns its lines, at most `LONGEST_ANSWER` bytes: the releases and
    /// then `leave`. There are none for messages of options and clipboards, whose lines the caller
    /// prints and for which it calls `set_option` and `reset_options`.
    pub fn apply(&mut self, msg: &Msg) -> Lines
        ensures prints { Prints self.old self.new (Applies msg.now) [] result }
        ensures bound { length result ≤ LONGEST_ANSWER }
    {
        let mut lines = Lines::new();
        self.apply_to(msg, &mut lines);
        lines
    }

    /// Appends the lines that `apply` returns to a buffer that has room for them.
    pub fn apply_to<B: Buffer>(&mut self, msg: &Msg, lines: &mut B)
        requires { length (B.content lines.old) + LONGEST_ANSWER ≤ B.capacity lines.old }
        ensures prints { Prints self.old self.new (Applies msg.now)
            (B.content lines.old) (B.content lines.new) }
        ensures bound { length (B.content lines.new)
            ≤ length (B.content lines.old) + LONGEST_ANSWER }
    {
        match msg {
            Msg::Enter { x, y, seq, mask } => put_one(lines, self.enter(*x, *y, *seq, *mask)),
            Msg::Leave => self.leave(lines),
            Msg::KeyDown { id, mask, button } => put_one(lines, self.press(*id, *mask, *button)),
            Msg::KeyRepeat {
                id: _,
                mask,
                count,
                button,
            } => put_one(lines, self.repeat(*mask, *count, *button)),
            Msg::KeyUp {
                id: _,
                mask: _,
                button,
            } => put_one(lines, self.lift(*button)),
            Msg::ButtonDown { b } => put_one(lines, self.push(*b)),
            Msg::ButtonUp { b } => put_one(lines, self.let_go(*b)),
            Msg::MoveTo { x, y } => put_one(lines, Some(Line::MoveTo { x: *x, y: *y })),
            Msg::MoveBy { dx, dy } => put_one(lines, Some(Line::MoveBy { dx: *dx, dy: *dy })),
            Msg::Wheel { dx, dy } => put_one(lines, Some(Line::Wheel { dx: *dx, dy: *dy })),
            Msg::Saver { on } => put_one(lines, Some(saver(*on))),
            _ => {}
        }
    }

    /// Releases all that is down, and returns the lines: the keys by rising button, then the mouse
    /// buttons by rising number.
    pub fn release_all(&mut self) -> Lines
        ensures prints { Prints self.old self.new ReleasesAll [] result }
        ensures bound { length result ≤ LONGEST_RELEASE }
    {
        let mut lines = Lines::new();
        self.held.release(&mut lines);
        lines
    }

    /// Whether nothing is down.
    pub fn is_clear(&self) -> bool
        ensures { (s : Screen) → Stands self.now s → IsTrue result ↔ NothingDown s.lines }
    {
        self.held.is_clear()
    }

    fn enter(&mut self, x: i16, y: i16, seq: u32, mask: u16) -> Option<Line>
        ensures tells { Tells self.old self.new (Applies (message.Enter x y seq mask))
            (option_to_list result) }
        ensures short { IfSome result IsShort }
        ensures fits { IfSome result Fits }
    {
        let mask = self.meant_mask(mask);
        Some(Line::Enter { x, y, seq, mask })
    }

    fn leave<B: Buffer>(&mut self, lines: &mut B)
        requires { length (B.content lines.old) + LONGEST_ANSWER ≤ B.capacity lines.old }
        ensures prints { Prints self.old self.new (Applies message.Leave)
            (B.content lines.old) (B.content lines.new) }
        ensures bound { length (B.content lines.new)
            ≤ length (B.content lines.old) + LONGEST_ANSWER }
    {
        self.held.release(lines);
        put_line(lines, Line::Leave);
    }

    fn press(&mut self, id: u16, mask: u16, button: u16) -> Option<Line>
        ensures tells { Tells self.old self.new (Applies (message.KeyDown id mask button))
            (option_to_list result) }
        ensures short { IfSome result IsShort }
        ensures fits { IfSome result Fits }
    {
        let mask = self.meant_mask(mask);
        if let Some(id) = self.held.id(button) {
            return Some(Line::KeyRepeat {
                id,
                count: 1,
                button,
                mask,
            });
        }
        if self.held.is_full() {
            return None;
        }
        let id = self.meant_id(id)?;
        self.held.press(button, id);
        Some(Line::KeyDown { id, button, mask })
    }

    fn repeat(&mut self, mask: u16, count: u16, button: u16) -> Option<Line>
        ensures tells { (id : ℕ) → Tells self.old self.new
            (Applies (message.KeyRepeat id mask count button)) (option_to_list result) }
        ensures short { IfSome result IsShort }
        ensures fits { IfSome result Fits }
    {
        let mask = self.meant_mask(mask);
        let id = self.held.id(button)?;
        Some(Line::KeyRepeat {
            id,
            count,
            button,
            mask,
        })
    }

    fn lift(&mut self, button: u16) -> Option<Line>
        ensures tells { (id mask : ℕ) → Tells self.old self.new
            (Applies (message.KeyUp id mask button)) (option_to_list result) }
        ensures short { IfSome result IsShort }
        ensures fits { IfSome result Fits }
    {
        let id = self.held.id(button)?;
        self.held.lift(button);
        Some(Line::KeyUp { id, button })
    }

    fn push(&mut self, b: u8) -> Option<Line>
        ensures tells { Tells self.old self.new (Applies (message.ButtonDown b))
            (option_to_list result) }
        ensures short { IfSome result IsShort }
        ensures fits { IfSome result Fits }
    {
        if self.held.is_button_down(b) {
            return None;
        }
        self.held.set_button(b, true);
        Some(Line::ButtonDown { b })
    }

    fn let_go(&mut self, b: u8) -> Option<Line>
        ensures tells { Tells self.old self.new (Applies (message.ButtonUp b))
            (option_to_list result) }
        ensures short { IfSome result IsShort }
        ensures fits { IfSome result Fits }
    {
        if !self.held.is_button_down(b) {
            return None;
        }
        self.held.set_button(b, false);
        Some(Line::ButtonUp { b })
    }

    /// What an id is injected as, if at all.
    #[tactic(auto, unfolding(crate::specs::Screen::meant_id))]
    fn meant_id(&self, id: u16) -> Option<u16>
        ensures { result ≡ meant_id self.now.mods id }
    {
        self.mods.key(KeyId(id)).map(|key| key.0)
    }

    /// What a mask is injected as.
    #[tactic(auto, unfolding(crate::specs::Screen::meant_mask))]
    fn meant_mask(&self, mask: u16) -> u16
        ensures { result ≡ meant_mask self.now.mods mask }
    {
        self.mods.mask(Mask(mask)).0
    }
}

fn saver(on: u8) -> Line
    ensures { result ≡ saver_line on }
{
    if on == 0 {
        Line::SaverOff
    } else {
        Line::SaverOn
    }
}

// Appends at most one line.
fn put_one<B: Buffer>(lines: &mut B, line: Option<Line>)
    requires short { ForSome line IsShort }
    requires fits { length (B.content lines.old) + LONGEST_LINE ≤ B.capacity lines.old }
    ensures printed { B.content lines.new
        ≡ B.content lines.old ++ flat_map line_of (option_to_list line) }
    ensures bound { length (B.content lines.new) ≤ length (B.content lines.old) + LONGEST_LINE }
{
    let Some(line) = line else {
        return;
    };
    let mut text = ShortLine::new();
    put_line(&mut text, line);
    lines.extend(text.as_slice());
}
