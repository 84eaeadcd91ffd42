//! The faults of names and links in what the lines above gave.

ghost use Rattle.std.specs.Prelude.{◌≡◌, false, ◌<◌, ◌≤◌, ◌+◌, IfOk, OnOk, length};
ghost use Rattle.text_lines.specs.Views.{word_text};
ghost use Rattle.screen_links.specs.Adding.{HasGoodRanges};
ghost use Rattle.screen_links.specs.Ranges.{IsGood};
ghost use Rattle.config_text.specs.Answering.{Judges};
ghost use Rattle.config_text.specs.Judging as spec;
ghost use Rattle.screen_config.specs.Sound.{is_end};
ghost use Rattle.config_text.specs.Views.{link_text, maybe_range_text};

use crate::faults::{ConfigKind, Fault, LineFault};
use crate::shapes::{LinkText, RangeText};
use crate::words::unless;
use screen_config::{Config, MOST_ALIASES};
use screen_links::{Link, LinkFault, Range, SIDE_END};
use share_base::{MOST_SCREENS, ScreenName, ScreenNo};
use text_lines::Word;

fn refusal<T>(kind: ConfigKind, left: usize) -> Result<T, LineFault>
    ensures { result ≡ Err (LineFault.Refused (spec.fault_at kind left)) }
{
    Err(LineFault::Refused(Fault { kind, left }))
}

#[tactic(auto, unfolding(crate::specs::Judging::good_range))]
fn good_range(range: Option<RangeText>) -> Result<Range, LineFault>
    ensures judged { Judges (λ x. x) result (spec.good_range (maybe_range_text range)) }
    ensures good { IfOk result IsGood }
{
    match range {
        None => Ok(Range { a: 0, b: SIDE_END }),
        Some(range) => {
            if range.a >= range.b {
                return refusal(ConfigKind::BadRange, range.left);
            }
            if range.b > u16::from(SIDE_END) {
                return refusal(ConfigKind::BadRange, range.left);
            }
            Ok(Range {
                a: range.a as u8,
                b: range.b as u8,
            })
        }
    }
}

/// The screen of that name or alias.
#[tactic(auto, unfolding(crate::specs::Judging::known_screen))]
pub(crate) fn known_screen(config: &Config, name: Word<'_>) -> Result<u16, LineFault>
    ensures judged { Judges (λ x. x) result (spec.known_screen config.now (word_text name.entry)) }
    ensures known { IfOk result (λ n. n < length config.now.screens) }
{
    if ScreenName::read(name.text).is_none() {
        return refusal(ConfigKind::BadName, name.left);
    }
    match config.find(name.text) {
        Some(screen) => Ok(screen.0),
        None => refusal(ConfigKind::UnknownScreen, name.left),
    }
}

/// A new screen, in whose line `whole` bytes stand.
#[tactic(auto, unfolding(crate::specs::Judging::new_screen))]
pub(crate) fn new_screen(config: &mut Config, name: Word<'_>, whole: usize) -> Result<(), LineFault>
    ensures judged { Judges (λ _. config.new) result
        (spec.new_screen whole config.old (word_text name.entry)) }
    ensures one_more { OnOk result (length config.new.screens ≡ length config.old.screens + 1) }
    ensures no_fewer { length config.old.screens ≤ length config.new.screens }
{
    let Some(kept) = ScreenName::read(name.text) else {
        return refusal(ConfigKind::BadName, name.left);
    };
    unless(
        config.find(name.text).is_none(),
        ConfigKind::DuplicateScreen,
        name.left,
    )?;
    if config.count() >= MOST_SCREENS {
        return refusal(ConfigKind::TooMany, whole);
    }
    config.add_screen(kept)?;
    Ok(())
}

/// A new alias of a screen, in whose line `whole` bytes stand. It isn't `end`.
#[tactic(auto, unfolding(crate::specs::Judging::new_alias))]
pub(crate) fn new_alias(
    config: &mut Config,
    screen: u16,
    name: Word<'_>,
    whole: usize,
) -> Result<(), LineFault>
    requires known { screen < length config.old.screens }
    requires no_end { is_end name.text.now ≡ false }
    ensures judged { Judges (λ _. config.new) result
        (spec.new_alias whole config.old screen (word_text name.entry)) }
    ensures same_count { length config.new.screens ≡ length config.old.screens }
{
    let Some(kept) = ScreenName::read(name.text) else {
        return refusal(ConfigKind::BadName, name.left);
    };
    unless(
        config.find(name.text).is_none(),
        ConfigKind::DuplicateAlias,
        name.left,
    )?;
    if config.aliases().len() >= MOST_ALIASES {
        return refusal(ConfigKind::TooMany, whole);
    }
    config.add_alias(kept, screen)?;
    Ok(())
}

/// A further link, whose side stands `left` bytes before the end of a line of `whole` bytes.
#[tactic(auto, using(crate::proofs::NewLinks::one_more))]
fn one_link_more(
    config: &mut Config,
    link: Link,
    left: usize,
    whole: usize,
) -> Result<(), LineFault>
    requires good { HasGoodRanges link }
    requires leaves { link.from.0 < length config.old.screens }
    requires enters { link.to.0 < length config.old.screens }
    ensures judged { Judges (λ _. config.new) result
        (spec.one_link_more whole config.old left link) }
    ensures same_count { length config.new.screens ≡ length config.old.screens }
{
    match config.add_link(link) {
        Ok(()) => Ok(()),
        Err(LinkFault::BadRange) => unreachable!(),
        Err(LinkFault::Overlap) => refusal(ConfigKind::Overlap, left),
        Err(LinkFault::Full) => refusal(ConfigKind::TooMany, whole),
        Err(LinkFault::OutOfMemory) => Err(LineFault::OutOfMemory),
    }
}

/// A new link from a screen, in whose line `whole` bytes stand.
#[tactic(auto, unfolding(crate::specs::Judging::new_link))]
pub(crate) fn new_link(
    config: &mut Config,
    from: u16,
    text: LinkText<'_>,
    whole: usize,
) -> Result<(), LineFault>
    requires { from < length config.old.screens }
    ensures judged { Judges (λ _. config.new) result
        (spec.new_link whole config.old from (link_text text.entry)) }
    ensures same_count { length config.new.screens ≡ length config.old.screens }
{
    let to = known_screen(config, text.name)?;
    let range = good_range(text.source)?;
    let onto = good_range(text.target)?;
    let link = Link {
        from: ScreenNo(from),
        side: text.side,
        range,
        to: ScreenNo(to),
        onto,
    };
    one_link_more(config, link, text.left, whole)
}
