// The search for a way from a source with no destination to a destination with no source. It goes backwards, from the destinations:
// what they may hear can move there, and so the destinations that those sources leave can be reached.
ghost use Rattle.std.specs.Prelude.{◌<◌, ◌≤◌, length};
ghost use Rattle.pairs.specs.Ways.{Choice, CanSpread, Spread, CanSearch, Searched};

use arrays::lists;

// One of the sources that destination j may hear; n or above where there is none, as `nodes::first` answers: one comparison with n tells.
pub fn choice(n: usize, may: &[u64], sources: u64, j: usize) -> usize
    requires { (n ≤ 64) × (n ≤ length may.now) × (j < n) }
    ensures { Choice n may.now sources j result }
{
    nodes::first(nodes::both(sources, lists::set_at(may, j)))
}

// What a step of the search gives: a free source from which a way is found, or n, and the destinations that are to do. No Option: what is found is what
// `choice` answers, and `search` passes it on, so that one comparison with n is made for all three.
#[derive(Drop)]
struct Step {
    found: usize,
    todo: u64,
}

// The new sources can move to j, and the destinations that they leave are to do. Where one of these may hear a free source a way is found: so
// the search ends a step before it would meet the free sources.
fn spread(
    n: usize,
    may: &[u64],
    destination: &[u8],
    next: &mut [u8],
    sources: u64,
    new: u64,
    j: usize,
    todo: u64,
) -> Step
    requires { CanSpread n may.now destination.now next.old sources new j }
    ensures { Spread n may.now destination.now next.old next.new sources new j todo result.found result.todo }
{
    let mut reached = todo;
    let mut left = new;
    loop {
        let i = nodes::first(left);
        if i >= n {
            return Step {
                found: n,
                todo: reached,
            };
        }
        lists::put_byte(next, i, j);
        let k = lists::byte(destination, i);
        let r = choice(n, may, sources, k);
        if r < n {
            lists::put_byte(next, r, k);
            return Step {
                found: r,
                todo: reached,
            };
        }
        reached = nodes::with(reached, k);
        left = nodes::without(left, i);
    }
}

// A source with no destination from which a destination with no source can be reached, or n. The way is left in `next`.
pub fn search(
    n: usize,
    may: &[u64],
    destination: &[u8],
    next: &mut [u8],
    sources: u64,
    destinations: u64,
) -> usize
    requires { CanSearch n may.now destination.now next.old sources destinations }
    ensures { Searched n may.now destination.now next.new destinations result }
{
    let mut todo = destinations;
    let mut left = nodes::all();
    loop {
        let j = nodes::first(todo);
        if j >= n {
            return n;
        }
        todo = nodes::without(todo, j);
        let heard = lists::set_at(may, j);
        let new = nodes::both(left, heard);
        left = nodes::minus(left, heard);
        let step = spread(n, may, destination, next, sources, new, j, todo);
        if step.found < n {
            return step.found;
        }
        todo = step.todo;
    }
}
