// What goes along a path.
ghost use Rattle.std.specs.Prelude.{get_or};
ghost use Rattle.walks.specs.Paths.{Passable, Bottleneck, CanSend, Sent};

use crate::lists::{Partners, Steps};
use arrays::lists::byte;
use growth::sides::{less, more};
use star::tables::get;

// The most that can go the whole path: what each of its steps can take, and the headroom at both ends.
pub fn bottleneck(
    n: usize,
    bound: &[u32],
    a: &[u32],
    headroom: &[u32],
    steps: &Steps,
    e: usize,
    last: usize,
) -> u32
    requires { Passable n bound.now a.now headroom.now steps.now.at steps.now.to e last }
    ensures { Bottleneck n bound.now a.now headroom.now steps.now.at steps.now.to e last result }
{
    let mut x = headroom[n + e].min(headroom[byte(&steps.at, 0)]);
    for k in 0..last + 1 {
        let i = byte(&steps.at, k);
        let j = byte(&steps.to, k);
        x = x.min(get(n, bound, i, j) - get(n, a, i, j));
    }
    for h in 0..last {
        x = x.min(get(n, a, byte(&steps.at, h + 1), byte(&steps.to, h)));
    }
    x
}

// Sends x along a path, from its end: row after row gives a column more, and the column before it as much less.
pub fn send(
    n: usize,
    bound: &[u32],
    a: &mut [u32],
    partners: &mut Partners,
    steps: &Steps,
    last: usize,
    x: u32,
)
    requires { CanSend n bound.now a.old partners.old.offers partners.old.takers steps.now.at steps.now.to (get_or steps.now.to last 0) last x }
    ensures { Sent n bound.now a.old a.new partners.new.offers partners.new.takers steps.now.at (get_or steps.now.to last 0) x }
{
    let offers = &mut partners.offers;
    let takers = &mut partners.takers;
    for k in (0..last).rev() {
        let i = byte(&steps.at, k + 1);
        more(n, bound, a, offers, takers, i, byte(&steps.to, k + 1), x);
        less(n, a, offers, takers, i, byte(&steps.to, k), x);
    }
    more(
        n,
        bound,
        a,
        offers,
        takers,
        byte(&steps.at, 0),
        byte(&steps.to, 0),
        x,
    );
}
