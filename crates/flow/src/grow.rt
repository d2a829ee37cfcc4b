// A matrix grows along paths from rows with headroom to columns with headroom, until there is none.
ghost use Rattle.flow.specs.Grows.{CanGrow, Grown};

use growth::sides::open_lines;
use layers::{Layers, search};
use walks::lists::{Partners, Steps};
use walks::walk::drain;

// Grows a matrix whose sets are right until no column with headroom is reached.
pub fn grow(
    n: usize,
    bound: &[u32],
    a: &mut [u32],
    headroom: &mut [u32],
    partners: &mut Partners,
    marks: &mut [u8],
)
    requires { CanGrow n bound.now a.old headroom.old partners.old.offers partners.old.takers marks.old }
    ensures { Grown n bound.now a.old headroom.old a.new headroom.new marks.new }
{
    let mut layers = Layers {
        rows: [0; 65],
        columns: [0; 65],
    };
    let mut steps = Steps {
        at: [0; 65],
        to: [0; 65],
    };
    loop {
        let roots = open_lines(n, headroom, 0);
        let goals = open_lines(n, headroom, n);
        let Some(last) = search(
            n,
            &partners.offers,
            &partners.takers,
            &mut layers,
            marks,
            roots,
            goals,
        ) else {
            return;
        };
        drain(
            n,
            bound,
            a,
            headroom,
            partners,
            &mut layers,
            &mut steps,
            last,
        );
    }
}
