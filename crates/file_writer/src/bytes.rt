// The file's bytes, piece by piece. Each function puts a piece behind those before it, and asks that it fits. The rule and the kinds stay the numbers that
// C lends, which the file has too; no list of kinds can be made of them without memory of its own.
#![tactic(auto, unfolding(crate::specs::Bytes::two_bytes, crate::specs::Bytes::four_bytes, crate::specs::Bytes::sizes_bytes))]

ghost use Rattle.std.specs.Prelude.{◌≡◌, ℕ, ◌*◌, ◌≤◌, ◌<◌, length, get_or};
ghost use Rattle.pieces.specs.Pieces.{HasRoom, Puts, join_to};
ghost use Rattle.file_writer.specs.Bytes.{posts_to, two_bytes, four_bytes, sizes_bytes, place_after, entry_bytes, cell_bytes};

use pieces::Pieces;

// A number of two bytes, low byte first.
fn put_two(file: &mut Pieces, x: u32)
    requires small { x ≤ 65535 }
    requires room { HasRoom file.old 2 }
    ensures { Puts file.old file.new (two_bytes x) }
{
    file.put_bytes(&(x as u16).to_le_bytes());
}

// A number of four bytes.
fn put_four(file: &mut Pieces, x: u32)
    requires { HasRoom file.old 4 }
    ensures { Puts file.old file.new (four_bytes x) }
{
    file.put_bytes(&x.to_le_bytes());
}

// N, L, B, the rule and the number of entries.
pub fn put_sizes(file: &mut Pieces, nodes: u32, slots: u32, limit: u32, rule: u32, entries: u32)
    requires { HasRoom file.old 20 }
    ensures { Puts file.old file.new (sizes_bytes nodes slots limit rule entries) }
{
    put_four(file, nodes);
    put_four(file, slots);
    put_four(file, limit);
    put_four(file, rule);
    put_four(file, entries);
}

// How many entries are posts: of kind 0. Kinds are numbers here, as C gives them; to make each a `Kind` would bring an error that cannot come. The test is
// added as a number: `filter` and `count` branch at each entry, which is slow where posts and frames are mixed.
pub fn count_posts(kinds: &[u32]) -> usize
    ensures { result ≡ posts_to kinds.now (length kinds.now) }
{
    let mut posts = 0;
    for kind in kinds {
        posts += usize::from(*kind == 0);
    }
    posts
}

// Where the matrix of an entry of this kind stands after so many posts.
fn place_after(n: usize, entries: usize, posts: usize, kind: u32) -> u32
    requires { (n ≤ 64) × (entries ≤ 4096) × (posts ≤ 4096) }
    ensures { result ≡ place_after n entries posts kind }
{
    if kind == 0 {
        (20 + 8 * entries + 2 * (posts * (n * n))) as u32
    } else {
        0
    }
}

// The kind and place of each entry.
pub fn put_entries(file: &mut Pieces, n: usize, kinds: &[u32])
    requires few { (n ≤ 64) × (length kinds.now ≤ 4096) }
    requires room { HasRoom file.old (8 * length kinds.now) }
    ensures { Puts file.old file.new (join_to (length kinds.now) (entry_bytes n kinds.now)) }
{
    let mut posts = 0;
    for kind in kinds {
        put_four(file, *kind);
        put_four(file, place_after(n, kinds.len(), posts, *kind));
        posts += usize::from(*kind == 0);
    }
}

// The cells of all posts.
pub fn put_cells(file: &mut Pieces, cells: &[u32])
    requires small { (c : ℕ) → c < length cells.now → get_or cells.now c 0 ≤ 65535 }
    requires room { HasRoom file.old (2 * length cells.now) }
    ensures { Puts file.old file.new (join_to (length cells.now) (cell_bytes cells.now)) }
{
    for cell in cells {
        put_two(file, *cell);
    }
}
