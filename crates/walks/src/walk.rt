// Walk after walk through the same layers.
ghost use Rattle.std.specs.Prelude.{◌<◌, length};
ghost use Rattle.walks.specs.Walks.{LeftIfNone, CanSpend, Spent, CanDrain, Drained};

use crate::climb::{climb, leave};
use crate::lists::{Partners, Steps};
use crate::send::{bottleneck, send};
use arrays::lists::byte;
use layers::Layers;

// Node i leaves layer k where nothing is left.
fn leave_if_none(layers: &mut [u64], k: usize, i: usize, left: u32)
    requires { (k < length layers.old) × (i < 64) }
    ensures { LeftIfNone layers.old layers.new k i left }
{
    if left == 0 {
        leave(layers, k, i);
    }
}

// Row i of the first layer and column j of the last have x less headroom. What has none left leaves its layer.
fn spend(
    n: usize,
    headroom: &mut [u32],
    layers: &mut Layers,
    i: usize,
    j: usize,
    last: usize,
    x: u32,
)
    requires { CanSpend n headroom.old i j last x }
    ensures { Spent n headroom.old layers.old.rows layers.old.columns headroom.new layers.new.rows layers.new.columns i j last x }
{
    headroom[i] -= x;
    headroom[n + j] -= x;
    leave_if_none(&mut layers.rows, 0, i, headroom[i]);
    leave_if_none(&mut layers.columns, last, j, headroom[n + j]);
}

// Until the last layer has no column left: sends what can go along one path to a column of it; one to which no path leads has left. The tables stay
// parameters: of a struct that borrows them each contract would have to say that it still borrows the same ones.
pub fn drain(
    n: usize,
    bound: &[u32],
    a: &mut [u32],
    headroom: &mut [u32],
    partners: &mut Partners,
    layers: &mut Layers,
    steps: &mut Steps,
    last: usize,
)
    requires { CanDrain n bound.now a.old headroom.old partners.old.offers partners.old.takers layers.old.rows layers.old.columns last }
    ensures { Drained n bound.now a.old headroom.old a.new headroom.new partners.new.offers partners.new.takers }
{
    loop {
        let e = nodes::first(layers.columns[last]);
        if e >= n {
            return;
        }
        if climb(n, partners, layers, steps, e, last) {
            let x = bottleneck(n, bound, a, headroom, steps, e, last);
            send(n, bound, a, partners, steps, last, x);
            spend(n, headroom, layers, byte(&steps.at, 0), e, last, x);
        }
    }
}
