//! The normal form of a configuration.

ghost use Rattle.std.specs.Prelude.{◌≡◌, ◌<◌, ◌≤◌, ◌++◌, ◌∷◌, ◌^◌, ◌-◌, [], length, IfSome, OnOk};
ghost use Rattle.std.specs.Prelude.{OnErr, slice_get, if◌then◌else◌, ◌==◌, ◌&&◌, codes};
ghost use Rattle.std.specs.List.{flat_map};
ghost use Rattle.text_lines.specs.Reading.{is_empty};
ghost use Rattle.share_base.specs.Sides.{sides};
ghost use Rattle.config_text.specs.LinkTables.{IsTableFor};
ghost use Rattle.config_text.specs.Normal as spec;
ghost use Rattle.config_text.specs.Normal.{normal};
ghost use Rattle.config_text.specs.RoundTrip.{SpellsAgain};
ghost use Rattle.screen_config.specs.Values.{name_of};

use crate::hotkey_printing::put_hotkeys;
use crate::link_table::{cell_of, link_table};
use option_table::{put_number, put_option_lines};
use screen_config::{Alias, Config, Screen};
use screen_links::{Link, Range, SIDE_END};
use share_base::{Octets, OutOfMemory, ScreenNo, Side};
use std::alloc::Global;

const SIDES: [Side; 4] = [Side::Left, Side::Right, Side::Up, Side::Down];

#[tactic(auto, unfolding(crate::specs::Normal::header_text))]
fn put_header(name: &[u8], out: &mut Octets) -> Result<(), OutOfMemory>
    ensures { OnOk result (out.new ≡ out.old ++ spec.header_text name.now) }
{
    out.extend(b"\t")?;
    out.extend(name)?;
    out.extend(b":\n")
}

fn put_block(name: &[u8], below: &[u8], out: &mut Octets) -> Result<(), OutOfMemory>
    ensures { OnOk result (out.new ≡ out.old ++ spec.block_text name.now below.now) }
{
    match below {
        [] => Ok(()),
        [_, ..] => {
            put_header(name, out)?;
            out.extend(below)
        }
    }
}

#[tactic(auto, unfolding(crate::specs::Normal::section_of))]
fn put_section(name: &[u8], below: &[u8], out: &mut Octets) -> Result<(), OutOfMemory>
    ensures { OnOk result (out.new ≡ out.old ++ spec.section_of name.now below.now) }
{
    out.extend(b"section: ")?;
    out.extend(name)?;
    out.push(b'\n')?;
    out.extend(below)?;
    out.extend(b"end\n")
}

#[tactic(auto, unfolding(crate::specs::Normal::screen_text))]
fn put_screen(screen: &Screen, out: &mut Octets) -> Result<(), OutOfMemory>
    ensures { OnOk result (out.new ≡ out.old ++ spec.screen_text screen.now) }
{
    put_header(screen.name.as_slice(), out)?;
    put_option_lines(b"\t\t", &screen.settings, out)
}

fn put_screens(screens: &[Screen], out: &mut Octets) -> Result<(), OutOfMemory>
    ensures { OnOk result (out.new ≡ out.old ++ flat_map spec.screen_text screens.now) }
{
    for screen in screens {
        put_screen(screen, out)?;
    }
    Ok(())
}

fn put_screens_section(
    alloc: Global,
    screens: &[Screen],
    out: &mut Octets,
) -> Result<(), OutOfMemory>
    ensures { OnOk result
        (out.new
        ≡ out.old
        ++ spec.section_of (codes "screens") (flat_map spec.screen_text screens.now)) }
{
    let mut below = Octets::new(alloc);
    put_screens(screens, &mut below)?;
    put_section(b"screens", below.as_slice(), out)
}

#[tactic(auto, unfolding(crate::specs::Normal::alias_text))]
fn put_alias(screen: u16, alias: &Alias, out: &mut Octets) -> Result<(), OutOfMemory>
    ensures { OnOk result (out.new ≡ out.old ++ spec.alias_text screen alias.now) }
{
    if alias.screen != screen {
        return Ok(());
    }
    out.extend(b"\t\t")?;
    out.extend(alias.name.as_slice())?;
    out.push(b'\n')
}

fn put_alias_lines(screen: u16, aliases: &[Alias], out: &mut Octets) -> Result<(), OutOfMemory>
    ensures { OnOk result (out.new ≡ out.old ++ flat_map (spec.alias_text screen) aliases.now) }
{
    for alias in aliases {
        put_alias(screen, alias, out)?;
    }
    Ok(())
}

#[tactic(auto, unfolding(crate::specs::Normal::range_text))]
fn put_range(range: Range, out: &mut Octets) -> Result<(), OutOfMemory>
    ensures { OnOk result (out.new ≡ out.old ++ spec.range_text range) }
{
    if range.a == 0 && range.b == SIDE_END {
        return Ok(());
    }
    out.extend(b"(")?;
    put_number(u32::from(range.a), out)?;
    out.extend(b",")?;
    put_number(u32::from(range.b), out)?;
    out.extend(b")")
}

#[tactic(auto, unfolding(crate::specs::Normal::aliases_of))]
fn put_aliases_of(
    config: &Config,
    alloc: Global,
    screen: u16,
    out: &mut Octets,
) -> Result<(), OutOfMemory>
    requires { screen < length config.now.screens }
    ensures { OnOk result (out.new ≡ out.old ++ spec.aliases_of config.now screen) }
{
    let mut below = Octets::new(alloc);
    put_alias_lines(screen, config.aliases(), &mut below)?;
    put_block(
        config.name(ScreenNo(screen)).as_slice(),
        below.as_slice(),
        out,
    )
}

fn put_aliases(config: &Config, alloc: Global, out: &mut Octets) -> Result<(), OutOfMemory>
    ensures { OnOk result (out.new ≡ out.old ++ spec.aliases_text config.now) }
{
    for screen in 0..config.count() {
        put_aliases_of(config, alloc, screen, out)?;
    }
    Ok(())
}

/// The name of a screen, or nothing where it isn't one.
pub(crate) fn name_bytes(config: &Config, screen: ScreenNo) -> &[u8]
    ensures { result.now ≡ name_of config.now screen.0 }
{
    match config.screens().get(screen.0 as usize) {
        Some(screen) => screen.name.as_slice(),
        None => &[],
    }
}

#[tactic(auto, unfolding(crate::specs::Normal::link_text))]
fn put_link(config: &Config, link: &Link, out: &mut Octets) -> Result<(), OutOfMemory>
    ensures { OnOk result (out.new ≡ out.old ++ spec.link_text config.now link.now) }
{
    out.extend(b"\t\t")?;
    out.extend(link.side.word())?;
    put_range(link.range, out)?;
    out.extend(b" = ")?;
    out.extend(name_bytes(config, link.to))?;
    put_range(link.onto, out)?;
    out.push(b'\n')
}

#[tactic(auto, unfolding(crate::specs::Normal::link_at))]
fn put_link_at(
    config: &Config,
    table: &[Option<Link>],
    from: u16,
    side: Side,
    a: u8,
    out: &mut Octets,
) -> Result<(), OutOfMemory>
    requires table { IsTableFor config.now table.now }
    requires known { from < length config.now.screens }
    requires on_side { a < 100 }
    ensures { OnOk result (out.new ≡ out.old ++ spec.link_at config.now from side a) }
{
    match table[cell_of(from, side, a)] {
        Some(link) => put_link(config, &link, out),
        None => Ok(()),
    }
}

#[tactic(auto, unfolding(crate::specs::Normal::side_links))]
fn put_side(
    config: &Config,
    table: &[Option<Link>],
    from: u16,
    side: Side,
    out: &mut Octets,
) -> Result<(), OutOfMemory>
    requires table { IsTableFor config.now table.now }
    requires known { from < length config.now.screens }
    ensures { OnOk result (out.new ≡ out.old ++ spec.side_links config.now from side) }
{
    for a in 0..SIDE_END {
        put_link_at(config, table, from, side, a, out)?;
    }
    Ok(())
}

fn put_sides(
    config: &Config,
    table: &[Option<Link>],
    from: u16,
    out: &mut Octets,
) -> Result<(), OutOfMemory>
    requires table { IsTableFor config.now table.now }
    requires known { from < length config.now.screens }
    ensures { OnOk result (out.new ≡ out.old ++ flat_map (spec.side_links config.now from) sides) }
{
    for side in SIDES {
        put_side(config, table, from, side, out)?;
    }
    Ok(())
}

#[tactic(auto, unfolding(crate::specs::Normal::links_of))]
fn put_links_of(
    config: &Config,
    table: &[Option<Link>],
    alloc: Global,
    from: u16,
    out: &mut Octets,
) -> Result<(), OutOfMemory>
    requires table { IsTableFor config.now table.now }
    requires known { from < length config.now.screens }
    ensures { OnOk result (out.new ≡ out.old ++ spec.links_of config.now from) }
{
    let mut below = Octets::new(alloc);
    put_sides(config, table, from, &mut below)?;
    put_block(
        config.name(ScreenNo(from)).as_slice(),
        below.as_slice(),
        out,
    )
}

fn put_links(
    config: &Config,
    table: &[Option<Link>],
    alloc: Global,
    out: &mut Octets,
) -> Result<(), OutOfMemory>
    requires { IsTableFor config.now table.now }
    ensures { OnOk result (out.new ≡ out.old ++ spec.links_text config.now) }
{
    for screen in 0..config.count() {
        put_links_of(config, table, alloc, screen, out)?;
    }
    Ok(())
}

fn put_aliases_section(config: &Config, alloc: Global, out: &mut Octets) -> Result<(), OutOfMemory>
    ensures { OnOk result
        (out.new ≡ out.old ++ spec.section_of (codes "aliases") (spec.aliases_text config.now)) }
{
    let mut below = Octets::new(alloc);
    put_aliases(config, alloc, &mut below)?;
    put_section(b"aliases", below.as_slice(), out)
}

fn put_links_section(config: &Config, alloc: Global, out: &mut Octets) -> Result<(), OutOfMemory>
    ensures { OnOk result
        (out.new ≡ out.old ++ spec.section_of (codes "links") (spec.links_text config.now)) }
{
    let table = link_table(alloc, config.links().as_slice(), config.count())?;
    let mut below = Octets::new(alloc);
    put_links(config, table.as_slice(), alloc, &mut below)?;
    put_section(b"links", below.as_slice(), out)
}

fn put_options_section(config: &Config, alloc: Global, out: &mut Octets) -> Result<(), OutOfMemory>
    ensures { OnOk result
        (out.new ≡ out.old ++ spec.section_of (codes "options") (spec.options_text config.now)) }
{
    let mut below = Octets::new(alloc);
    put_option_lines(b"\t", config.settings(), &mut below)?;
    put_hotkeys(config, &mut below)?;
    put_section(b"options", below.as_slice(), out)
}

/// Adds the normal form of a configuration. That text has fewer than 4,294,967,295 bytes, as
/// `parse` wants; it is accepted, and spells a configuration of the same value. After `OutOfMemory`
/// nothing was added.
#[tactic(auto, unfolding(crate::specs::Normal::normal))]
pub fn print(alloc: Global, config: &Config, out: &mut Octets) -> Result<(), OutOfMemory>
    ensures ok { OnOk result (out.new ≡ out.old ++ normal config.now) }
    ensures again { OnOk result (SpellsAgain (normal config.now) config.now) }
    ensures fits { length (normal config.now) < 2 ^ 32 - 1 }
    ensures err { OnErr result (out.new ≡ out.old) }
{
    let mut text = Octets::new(alloc);
    put_screens_section(alloc, config.screens(), &mut text)?;
    put_aliases_section(config, alloc, &mut text)?;
    put_links_section(config, alloc, &mut text)?;
    put_options_section(config, alloc, &mut text)?;
    out.extend(text.as_slice())
}
