// A set of up to 64 nodes as one number: node i is in it where binary digit i is 1. The only bit arithmetic of the planner;
// every contract speaks of members alone.
#![tactic(auto)]

ghost use Rattle.std.specs.Prelude.{◌<◌};
ghost use Rattle.nodes.specs.Sets.{None, All, With, WithWhere, Without, Both, Minus, First, Joined};

// The set of no node.
pub fn none() -> u64
    ensures { None result }
{
    0
}

// The set of all 64 nodes.
pub fn all() -> u64
    ensures { All result }
{
    u64::MAX
}

// The set with node i.
pub fn with(s: u64, i: usize) -> u64
    requires { i < 64 }
    ensures { With s i result }
{
    s | (1 << i)
}

// The set with node i where the test holds, and else as it is. There is no branch in it, so it costs the same where tests are irregular.
pub fn with_where(s: u64, i: usize, test: bool) -> u64
    requires { i < 64 }
    ensures { WithWhere s i test result }
{
    s | (u64::from(test) << i)
}

// The half with node i where the test holds, and else as it is. A half is a set of up to 32 nodes, of which the machine takes four at a time; the
// answer is a choice, so that in a loop over other things the compiler makes the set of node i once. One function with `with_where` for both widths
// would take that choice from the one, or bring the branch into the other.
pub fn half_with_where(half: u32, i: usize, test: bool) -> u32
    requires { i < 32 }
    ensures { WithWhere half i test result }
{
    if test { half | (1 << i) } else { half }
}

// The set of two halves: the nodes of the low half, and those of the high half 32 higher.
pub fn joined(low: u32, high: u32) -> u64
    ensures { Joined low high result }
{
    u64::from(low) | (u64::from(high) << 32)
}

// The set without node i.
pub fn without(s: u64, i: usize) -> u64
    requires { i < 64 }
    ensures { Without s i result }
{
    s ^ (s & (1 << i))
}

// The nodes of both sets.
pub fn both(s: u64, t: u64) -> u64
    ensures { Both s t result }
{
    s & t
}

// The nodes of s that are not in t.
pub fn minus(s: u64, t: u64) -> u64
    ensures { Minus s t result }
{
    s ^ (s & t)
}

// The lowest node of the set, or 64 where it is empty. An Option is no plainer: whoever asks wants a node below n, and one comparison with n is
// false both for an empty set and for one that has none of the n nodes.
pub fn first(s: u64) -> usize
    ensures { First s result }
{
    u64::trailing_zeros(s) as usize
}
