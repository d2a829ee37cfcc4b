// One turn after the other: all sources and destinations are paired, the setting that follows is held for as long as each of its pairs allows,
// and the slots in which it is held are taken from the pairs. `may`, `source` and `destination` are three parameters throughout: a struct of arrays was
// tried, and would ask more of the callers of `next`, which docs/DECISIONS.md names.
ghost use Rattle.star.specs.Rooms.{Square};
ghost use Rattle.pairs.specs.Pairs.{Rooms};
ghost use Rattle.holds.specs.Turns.{Begun, CanPair, Ready, CanTake, Parted, CanTurn, Turned};

use crate::{levels, settings};
use arrays::lists;
use pairs::free::Free;
use pairs::matching::match_all;

// What one turn hands to the next: the level, for how many pairings it has served, and the nodes without a partner. And for how many slots
// this turn's setting is held.
#[derive(Drop)]
pub struct Turn {
    pub slots: u32,
    pub level: u32,
    pub held: u32,
    pub free: Free,
}

// Before the first turn nobody is paired, and the level is such that every source has a pair that gets as much.
pub fn begin(
    n: usize,
    table: &[u32],
    may: &mut [u64],
    source: &mut [u8],
    destination: &mut [u8],
) -> Turn
    requires { (Square n table.now) × (Rooms n may.old source.old destination.old) }
    ensures { Begun n table.now may.new source.new destination.new result }
{
    lists::fill(source, n, n);
    lists::fill(destination, n, n);
    let level = levels::start(n, table);
    levels::allow(n, table, level, may);
    Turn {
        slots: 0,
        level,
        held: 0,
        free: Free {
            sources: nodes::all(),
            destinations: nodes::all(),
        },
    }
}

// Pairs all destinations, at a lower level where not all can be paired at this one; at level 1 they always can.
fn pair(
    n: usize,
    table: &[u32],
    may: &mut [u64],
    source: &mut [u8],
    destination: &mut [u8],
    turn: Turn,
) -> Turn
    requires { CanPair n table.now may.old source.old destination.old turn }
    ensures { Ready n table.now may.new source.new destination.new turn result }
{
    let mut level = turn.level;
    let mut held = turn.held;
    let mut free = turn.free;
    loop {
        free = match_all(n, may, source, destination, free);
        if nodes::first(free.destinations) >= n {
            return Turn {
                slots: 0,
                level,
                held,
                free,
            };
        }
        level = levels::lower(level, held);
        held = 0;
        levels::allow(n, table, level, may);
    }
}

// Takes h slots from the pair of each destination and its source. A pair that falls below the level may be paired no more, and is parted; gives
// the nodes that are free then.
fn take(
    n: usize,
    table: &mut [u32],
    level: u32,
    h: u32,
    may: &mut [u64],
    source: &mut [u8],
    destination: &mut [u8],
    free: Free,
) -> Free
    requires { CanTake n table.old may.old source.old destination.old level h free }
    ensures { Parted n table.old source.old table.new may.new source.new destination.new level h result }
{
    let mut sources = free.sources;
    let mut destinations = free.destinations;
    for j in 0..n {
        let i = lists::byte(source, j);
        cells::take(n, table, i, j, h);
        if cells::padded(n, table, i, j) >= level {
            continue;
        }
        lists::put_set(may, j, nodes::without(lists::set_at(may, j), i));
        lists::put_byte(source, j, n);
        lists::put_byte(destination, i, n);
        sources = nodes::with(sources, i);
        destinations = nodes::with(destinations, j);
    }
    Free {
        sources,
        destinations,
    }
}

// The next turn: what each destination hears, and for how many slots, at most `left`, which are taken from the pairs. `left` is what every line
// still gets.
pub fn next(
    n: usize,
    table: &mut [u32],
    may: &mut [u64],
    source: &mut [u8],
    destination: &mut [u8],
    bytes: &mut [u8],
    turn: Turn,
    left: u32,
) -> Turn
    requires { CanTurn n table.old may.old source.old destination.old bytes.old turn left }
    ensures { Turned n table.old table.new may.new source.new destination.new bytes.new left result }
{
    let ready = pair(n, table, may, source, destination, turn);
    let h = settings::hear(n, table, source, bytes, left);
    let free = take(
        n,
        table,
        ready.level,
        h,
        may,
        source,
        destination,
        ready.free,
    );
    Turn {
        slots: h,
        level: ready.level,
        held: ready.held + 1,
        free,
    }
}
