// The search for a path, from its end up.
ghost use Rattle.std.specs.Prelude.{◌<◌, length, get_or};
ghost use Rattle.walks.specs.Paths.{FirstInBoth, LeftLayer, CanClimb, Climbed};

use crate::lists::{Partners, Steps};
use arrays::lists::{byte, put_byte};
use layers::Layers;

// The first node that is in a node's own set and in a layer, or 64: no Option, since one comparison with n tells that it is one of the nodes.
fn meeting(list: &[u64], node: usize, layers: &[u64], k: usize) -> usize
    requires { (node < length list.now) × (k < length layers.now) }
    ensures { FirstInBoth (get_or list.now node 0) (get_or layers.now k 0) result }
{
    nodes::first(nodes::both(list[node], layers[k]))
}

// Node i leaves layer k.
pub fn leave(layers: &mut [u64], k: usize, i: usize)
    requires { (k < length layers.old) × (i < 64) }
    ensures { LeftLayer layers.old layers.new k i }
{
    layers[k] = nodes::without(layers[k], i);
}

// Looks for a path from column e of the last layer up to a row of the first. A node that leads no further leaves its layer. False where e has no path,
// and has left.
pub fn climb(
    n: usize,
    partners: &Partners,
    layers: &mut Layers,
    steps: &mut Steps,
    e: usize,
    last: usize,
) -> bool
    requires { CanClimb n layers.old.columns e last }
    ensures { Climbed n partners.now.offers partners.now.takers layers.old.rows layers.old.columns layers.new.rows layers.new.columns steps.new.at steps.new.to e last result }
{
    put_byte(&mut steps.to, last, e);
    let mut k = last;
    // No `for`: the search goes up a layer, down one, or stays.
    loop {
        let j = byte(&steps.to, k);
        let i = meeting(&partners.offers, j, &layers.rows, k);
        if i >= n {
            leave(&mut layers.columns, k, j);
            if k >= last {
                return false;
            }
            k += 1;
            continue;
        }
        put_byte(&mut steps.at, k, i);
        if k == 0 {
            return true;
        }
        let g = meeting(&partners.takers, i, &layers.columns, k - 1);
        if g >= n {
            leave(&mut layers.rows, k, i);
            continue;
        }
        k -= 1;
        put_byte(&mut steps.to, k, g);
    }
}
