// Cells of a square table of 32-bit numbers; tables written from the front. A table and its N are two parameters throughout: of a struct of both there would be
// two, one that borrows to read and one to write, and each contract on the latter would have to say that it still borrows the same cells.
ghost use Rattle.std.specs.Prelude.{◌≡◌, ◌+◌, ◌*◌, ◌<◌, ◌≤◌, length, get_or, set, replicate};
ghost use Rattle.sums.specs.Tables.{cell, tab, written};
ghost use Rattle.star.specs.Rooms.{Square};

// What the pair of source i and destination j has.
pub fn get(n: usize, table: &[u32], i: usize, j: usize) -> u32
    requires square { Square n table.now }
    requires pair { (i < n) × (j < n) }
    ensures { result ≡ cell n table.now i j }
{
    table[i * n + j]
}

// The pair of source i and destination j has x from now on.
pub fn put(n: usize, table: &mut [u32], i: usize, j: usize, x: u32)
    requires square { Square n table.old }
    requires pair { (i < n) × (j < n) }
    ensures { table.new ≡ set table.old (i * n + j) x }
{
    table[i * n + j] = x;
}

// Every pair has 0 from now on.
// Apart from `clear` of books: tried over a type parameter, where `fill` asks for a clone that cannot fail, and no bound proves it.
pub fn clear(n: usize, table: &mut [u32])
    requires { Square n table.old }
    ensures { table.new ≡ written (n * n) (replicate (n * n) 0) table.old }
{
    table[..n * n].fill(0);
}

// The first cells of a table are those of another from now on.
// Cell by cell: `copy_from_slice` would have the library call memmove beside memcpy and memset, which is all that the header asks of a caller.
pub fn copy(from: &[u32], to: &mut [u32], cells: usize)
    requires { (cells ≤ length from.now) × (cells ≤ length to.old) }
    ensures { to.new ≡ written cells (tab cells (λ p. get_or from.now p 0)) to.old }
{
    for p in 0..cells {
        to[p] = from[p];
    }
}
