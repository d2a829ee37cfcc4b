// The largest matrix below bounds whose line sums stay below ceilings, with the marks that prove it.
#![tactic(auto)]

mod grow;

ghost use Rattle.flow.specs.Certified.{Bounded, Finished, Certified, HeadroomLeft};
ghost use Rattle.flow.specs.Grows.{Empty, Grown};

use crate::grow::grow;
use growth::fill::fill;
use growth::sides::open_lines;
use layers::mark;
use star::tables::clear;
use walks::lists::Partners;

// From a matrix of zeros, with lists for the sets: at first every row can give where its bound is at least 1, and no column takes.
fn largest_from(n: usize, bound: &[u32], a: &mut [u32], headroom: &mut [u32], marks: &mut [u8])
    requires { Empty n bound.now a.old headroom.old marks.old }
    ensures { Grown n bound.now a.old headroom.old a.new headroom.new marks.new }
{
    let mut partners = Partners {
        offers: [0; 64],
        takers: [0; 64],
    };
    at_least::rows(n, bound, 1, &mut partners.offers);
    let rows = open_lines(n, headroom, 0);
    fill(
        n,
        bound,
        a,
        headroom,
        &mut partners.offers,
        &mut partners.takers,
        rows,
    );
    grow(n, bound, a, headroom, &mut partners, marks);
}

// The same. Where no row has headroom, or no column, there is nothing to do: no line is reached, or every line may be.
fn largest_within(n: usize, bound: &[u32], a: &mut [u32], headroom: &mut [u32], marks: &mut [u8])
    requires { Empty n bound.now a.old headroom.old marks.old }
    ensures { Grown n bound.now a.old headroom.old a.new headroom.new marks.new }
{
    if nodes::first(open_lines(n, headroom, 0)) >= n {
        mark(n, marks, nodes::all(), nodes::all());
        return;
    }
    if nodes::first(open_lines(n, headroom, n)) >= n {
        mark(n, marks, nodes::none(), nodes::none());
        return;
    }
    largest_from(n, bound, a, headroom, marks);
}

// What `largest` does, on tables of just the cells needed.
fn largest_on(n: usize, bound: &[u32], headroom: &mut [u32], a: &mut [u32], marks: &mut [u8])
    requires { Bounded n bound.now headroom.old a.old marks.old }
    ensures { Finished n bound.now headroom.old a.new headroom.new marks.new }
{
    clear(n, a);
    largest_within(n, bound, a, headroom, marks);
}

// Of all matrices that are at most `bound` at each cell and whose line sums are at most the ceilings, one with the greatest total, in `a`; and marks
// that prove it: no matrix exceeds their cut, and this one meets it. `headroom` holds the ceilings, which give way to what each line may still take. What
// the first n * n and 2n cells of `a` and `marks` held before does not matter; further cells of all three stay as they are.
pub fn largest(n: usize, bound: &[u32], headroom: &mut [u32], a: &mut [u32], marks: &mut [u8])
    requires { Bounded n bound.now headroom.old a.old marks.old }
    ensures { Certified n bound.now headroom.old a.old marks.old a.new marks.new × HeadroomLeft n headroom.old a.new headroom.new }
{
    let cells = n * n;
    let lines = 2 * n;
    largest_on(
        n,
        bound,
        &mut headroom[..lines],
        &mut a[..cells],
        &mut marks[..lines],
    );
}
