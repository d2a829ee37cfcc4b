// Lists: of bytes, which stand for nodes, and of sets of nodes. Not one generic pair of functions for both: a byte is read as an index, and a node is
// narrowed to a byte, where a set stays what it is.
ghost use Rattle.std.specs.Prelude.{◌≡◌, ◌<◌, ◌≤◌, length, get_or, set};
ghost use Rattle.arrays.specs.Arrays.{Filled};

// The byte at k, as an index.
pub fn byte(x: &[u8], k: usize) -> usize
    requires { k < length x.now }
    ensures { (result ≡ get_or x.now k 0) × (result < 256) }
{
    usize::from(x[k])
}

// The byte at k is b from now on.
pub fn put_byte(x: &mut [u8], k: usize, b: usize)
    requires { (k < length x.old) × (b < 256) }
    ensures { x.new ≡ set x.old k b }
{
    x[k] = b as u8;
}

// The first n bytes are b from now on.
pub fn fill(x: &mut [u8], n: usize, b: usize)
    requires { (n ≤ length x.old) × (b < 256) }
    ensures { Filled n x.new b }
{
    x[..n].fill(b as u8);
}

// The set at k.
pub fn set_at(x: &[u64], k: usize) -> u64
    requires { k < length x.now }
    ensures { result ≡ get_or x.now k 0 }
{
    x[k]
}

// The set at k is s from now on.
pub fn put_set(x: &mut [u64], k: usize, s: u64)
    requires { k < length x.old }
    ensures { x.new ≡ set x.old k s }
{
    x[k] = s;
}
