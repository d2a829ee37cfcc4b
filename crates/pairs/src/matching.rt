// Pairing as many as can be: first those that take no moving, and then by ways.
ghost use Rattle.std.specs.Prelude.{◌≤◌, length};
ghost use Rattle.pairs.specs.Pairs.{Rooms, CanMatch, Matched};
ghost use Rattle.pairs.specs.Ways.{Directed};

use crate::free::Free;
use crate::{flip, search};
use arrays::lists;

// Each free destination takes a free source that it may hear, where there is one. One that finds none finds none later either, since free
// sources only get fewer.
fn direct(n: usize, may: &[u64], source: &mut [u8], destination: &mut [u8], free: Free) -> Free
    requires { CanMatch n may.now source.old destination.old free.sources free.destinations }
    ensures { Directed n may.now source.new destination.new result.sources result.destinations }
{
    let mut sources = free.sources;
    let mut destinations = free.destinations;
    let mut todo = free.destinations;
    loop {
        let j = nodes::first(todo);
        if j >= n {
            return Free {
                sources,
                destinations,
            };
        }
        todo = nodes::without(todo, j);
        let i = search::choice(n, may, sources, j);
        if i >= n {
            continue;
        }
        lists::put_byte(source, j, i);
        lists::put_byte(destination, i, j);
        sources = nodes::without(sources, i);
        destinations = nodes::without(destinations, j);
    }
}

// Pairs the destinations that are left, by ways, with a list to work in for those. Where no way is left, no destination is free or not all
// can be paired.
fn search_all(
    n: usize,
    may: &[u64],
    source: &mut [u8],
    destination: &mut [u8],
    next: &mut [u8],
    free: Free,
) -> Free
    requires rooms { (Rooms n may.now source.old destination.old) × (n ≤ length next.old) }
    requires directed { Directed n may.now source.old destination.old free.sources free.destinations }
    ensures { Matched n may.now source.new destination.new result.sources result.destinations }
{
    let mut sources = free.sources;
    let mut destinations = free.destinations;
    loop {
        let r = search::search(n, may, destination, next, sources, destinations);
        if r >= n {
            return Free {
                sources,
                destinations,
            };
        }
        let e = flip::flip(n, source, destination, next, r);
        sources = nodes::without(sources, r);
        destinations = nodes::without(destinations, e);
    }
}

// Pairs as many as can be, from the pairs there are and the nodes that are free. Gives the nodes that stay free: no destination where
// all can be paired.
pub fn match_all(
    n: usize,
    may: &[u64],
    source: &mut [u8],
    destination: &mut [u8],
    free: Free,
) -> Free
    requires { CanMatch n may.now source.old destination.old free.sources free.destinations }
    ensures { Matched n may.now source.new destination.new result.sources result.destinations }
{
    let mut next = [0u8; 64];
    let left = direct(n, may, source, destination, free);
    search_all(n, may, source, destination, &mut next, left)
}
