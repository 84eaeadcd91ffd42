//! Where links begin.

ghost use Rattle.std.specs.Prelude.{◌≡◌, ◌+◌, ◌*◌, ◌<◌, ◌++◌, ◌∷◌, [], length, List, IfOk, None};
ghost use Rattle.screen_links.specs.declared.link.Link.{Link as OneLink};
ghost use Rattle.config_text.specs.LinkTables as spec;
ghost use Rattle.config_text.specs.LinkTables.{IsTableOf};

use screen_links::{Link, SIDE_END};
use share_base::{OutOfMemory, Side};
use std::alloc::Global;

/// How many cells a screen has.
const SCREEN_CELLS: usize = 400;

fn side_index(side: Side) -> usize
    ensures value { result ≡ spec.side_index side }
    ensures few { result < 4 }
{
    match side {
        Side::Left => 0,
        Side::Right => 1,
        Side::Up => 2,
        Side::Down => 3,
    }
}

/// The index of the cell of a hundredth of a side of a screen.
pub(crate) fn cell_of(from: u16, side: Side, a: u8) -> usize
    requires { a < 100 }
    ensures value { result ≡ spec.cell_of from side a }
    ensures within { result < (from + 1) * 400 }
{
    (from as usize * 4 + side_index(side)) * 100 + a as usize
}

/// Puts a link where it begins, unless one is there already.
fn put_link(cells: &mut Vec<Option<Link>>, link: Link, count: u16)
    requires { length cells.old.items ≡ count * 400 }
    ensures same_length { length cells.new.items ≡ length cells.old.items }
    ensures added { (links : List OneLink) → IsTableOf links count cells.old.items
        → IsTableOf (links ++ link ∷ []) count cells.new.items }
{
    if link.from.0 >= count {
        return;
    }
    if link.range.a >= SIDE_END {
        return;
    }
    let cell = cell_of(link.from.0, link.side, link.range.a);
    if cells[cell].is_some() {
        return;
    }
    cells[cell] = Some(link);
}

/// The cells of `count` screens, each with the first link that begins there, made in one walk over
/// the links.
pub(crate) fn link_table(
    alloc: Global,
    links: &[Link],
    count: u16,
) -> Result<Vec<Option<Link>>, OutOfMemory>
    ensures length { IfOk result (λ cells. length cells.items ≡ count * 400) }
    ensures table { IfOk result (λ cells. IsTableOf links.now count cells.items) }
{
    let mut cells = vec![in alloc; None; count as usize * SCREEN_CELLS]?;
    for link in links {
        put_link(&mut cells, *link, count);
    }
    Ok(cells)
}
