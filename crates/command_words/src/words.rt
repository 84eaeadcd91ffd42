//! Which words name a command.

ghost use Rattle.std.specs.Prelude.{◌≡◌, ◌≤◌, IfSome, IfNone, [], ◌∷◌, codes, string_bytes};
ghost use Rattle.command_words.specs.Forms.{Names, NoForm, Reads, ReadsAll, form_of};
ghost use Rattle.command_words.specs.Numbers.{number_of};

use crate::command::Command;
use message_codec::End;
use share_base::ScreenName;
use text_lines::decimal_u64;

/// The number that the word spells in decimal digits, from `least` to `most`.
fn number(word: &[u8], least: u64, most: u64) -> Option<u64>
    ensures value { result ≡ number_of least most word.now }
    ensures within { IfSome result (λ n. n ≤ most) }
{
    let number = decimal_u64(word, most)?;
    if number < least {
        return None;
    }
    Some(number)
}

/// The command that the words name. They are those after the program's name, and their number is
/// exact. `None` if they name no command.
pub fn form(words: &[String]) -> Option<Command<'_>>
    ensures named { IfSome result (λ command. Names (form_of command) words.now) }
    ensures none { IfNone result (NoForm words.now) }
{
    let Some((command, rest)) = words.split_first() else {
        return None;
    };
    by_command(command, rest)
}

fn by_command<'a>(command: &String, rest: &'a [String]) -> Option<Command<'a>>
    ensures { Reads (string_bytes command.now) rest.now result }
{
    match command.as_str() {
        "inject" => inject(rest),
        "show" => show(rest),
        "check" => check(rest),
        "replay" => replay(rest),
        "serve" => serve(rest),
        "join" => join(rest),
        "generate" => generate(rest),
        _ => None,
    }
}

fn inject(rest: &[String]) -> Option<Command<'_>>
    ensures { Reads (codes "inject") rest.now result }
{
    if rest.is_empty() {
        return Some(Command::Inject);
    }
    None
}

fn show(rest: &[String]) -> Option<Command<'_>>
    ensures { Reads (codes "show") rest.now result }
{
    let [word] = rest else {
        return None;
    };
    if word.as_str() == "server" {
        return Some(Command::Show(End::Server));
    }
    if word.as_str() == "client" {
        return Some(Command::Show(End::Client));
    }
    None
}

fn check(rest: &[String]) -> Option<Command<'_>>
    ensures { Reads (codes "check") rest.now result }
{
    let [config] = rest else {
        return None;
    };
    Some(Command::Check(config.as_str()))
}

fn replay(rest: &[String]) -> Option<Command<'_>>
    ensures { Reads (codes "replay") rest.now result }
{
    let [config, script, trace] = rest else {
        return None;
    };
    Some(Command::Replay {
        config: config.as_str(),
        script: script.as_str(),
        trace: trace.as_str(),
    })
}

fn serve(rest: &[String]) -> Option<Command<'_>>
    ensures { Reads (codes "serve") rest.now result }
{
    let [config, script, port, turns] = rest else {
        return None;
    };
    serve_by(config, script, port, turns)
}

fn serve_by<'a>(
    config: &'a String,
    script: &'a String,
    port: &String,
    turns: &String,
) -> Option<Command<'a>>
    ensures { ReadsAll (codes "serve" ∷ string_bytes config.now ∷ string_bytes script.now
        ∷ string_bytes port.now ∷ string_bytes turns.now ∷ []) result }
{
    let Some(port) = number(port.as_bytes(), 0, 65_535) else {
        return None;
    };
    let Some(turns) = number(turns.as_bytes(), 0, 4_294_967_295) else {
        return None;
    };
    Some(Command::Serve {
        config: config.as_str(),
        script: script.as_str(),
        port: port as u16,
        turns: turns as u32,
    })
}

fn join(rest: &[String]) -> Option<Command<'_>>
    ensures { Reads (codes "join") rest.now result }
{
    let [name, host, port, w, h, script, turns] = rest else {
        return None;
    };
    join_by(name, host, port, w, h, script, turns)
}

fn join_by<'a>(
    name: &String,
    host: &'a String,
    port: &String,
    w: &String,
    h: &String,
    script: &'a String,
    turns: &String,
) -> Option<Command<'a>>
    ensures { ReadsAll (codes "join" ∷ string_bytes name.now ∷ string_bytes host.now
        ∷ string_bytes port.now ∷ string_bytes w.now ∷ string_bytes h.now
        ∷ string_bytes script.now ∷ string_bytes turns.now ∷ []) result }
{
    let Some(name) = ScreenName::read(name.as_bytes()) else {
        return None;
    };
    let Some(port) = number(port.as_bytes(), 0, 65_535) else {
        return None;
    };
    let Some(w) = number(w.as_bytes(), 1, 32_767) else {
        return None;
    };
    let Some(h) = number(h.as_bytes(), 1, 32_767) else {
        return None;
    };
    let Some(turns) = number(turns.as_bytes(), 0, 4_294_967_295) else {
        return None;
    };
    Some(Command::Join {
        name,
        host: host.as_str(),
        port: port as u16,
        w: w as u16,
        h: h as u16,
        script: script.as_str(),
        turns: turns as u32,
    })
}

fn generate(rest: &[String]) -> Option<Command<'_>>
    ensures { Reads (codes "generate") rest.now result }
{
    let [n] = rest else {
        return None;
    };
    generate_by(n)
}

fn generate_by<'a>(n: &String) -> Option<Command<'a>>
    ensures { ReadsAll (codes "generate" ∷ string_bytes n.now ∷ []) result }
{
    let Some(n) = number(n.as_bytes(), 0, 18_446_744_073_709_551_615) else {
        return None;
    };
    Some(Command::Generate(n))
}
