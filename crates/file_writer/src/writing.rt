// Writing a file: its length, or the first refusal.
#![tactic(auto, unfolding(crate::specs::Writing::cells_verdict, crate::specs::Writing::write_verdict, star::specs::Checks::refuse, star::specs::Checks::then))]

ghost use Rattle.std.specs.Prelude.{◌≡◌, ◌*◌, ◌≤◌, ltb, length, position};
ghost use Rattle.sums.specs.Searches.{found};
ghost use Rattle.star.specs.Refusals.{first_above_in};
ghost use Rattle.file_writer.specs.Writing.{cells_verdict, write_verdict, WriteResult};

use crate::bytes::{count_posts, put_cells, put_entries, put_sizes};
use files::kinds::Kind;
use pieces::Pieces;
use star::checks::ranges;
use star::lines::first_above;
use star::refusals::Refusal;

// The first entry of an unknown kind.
fn first_unknown(kinds: &[u32]) -> Option<usize>
    ensures { result ≡ position (λ kind. ltb 1 kind) kinds.now }
{
    kinds.iter().position(|kind| Kind::try_from(*kind).is_err())
}

// The first of the posts' cells that is above 65,535, as its place among all of them: one matrix after the other, of each of which only a row that has
// one is searched. `position` over all cells looks at one at a time.
fn first_wide(n: usize, posts: usize, cells: &[u32]) -> Option<usize>
    requires { (n ≤ 64) × (posts * (n * n) ≤ length cells.now) }
    ensures { result ≡ found (posts * (n * n)) (first_above_in (posts * (n * n)) cells.now) }
{
    for p in 0..posts {
        let at = p * (n * n);
        if let Some(cell) = first_above(n, &cells[at..]) {
            return Some(at + cell);
        }
    }
    None
}

// Missing cells (4), too few bytes (5), a cell above 65,535 (6).
fn cells_verdict(n: usize, kinds: &[u32], cells: &[u32], bytes: usize) -> Result<(), Refusal>
    requires { (n ≤ 64) × (length kinds.now ≤ 4096) }
    ensures { result ≡ cells_verdict n kinds.now cells.now bytes }
{
    let posts = count_posts(kinds);
    let count = posts * (n * n);
    if cells.len() < count {
        return Err(Refusal::DemandShort);
    }
    if bytes < 20 + 8 * kinds.len() + 2 * count {
        return Err(Refusal::TableShort);
    }
    match first_wide(n, posts, cells) {
        Some(cell) => Err(Refusal::DemandAbove { cell: cell as u32 }),
        None => Ok(()),
    }
}

// Which refusal is given, if any; the last number says how many bytes are lent. The numbers come one by one, as `write_file` is given them: a struct
// would be made for this one call alone.
fn write_verdict(
    nodes: u32,
    slots: u32,
    limit: u32,
    rule: u32,
    kinds: &[u32],
    cells: &[u32],
    bytes: usize,
) -> Result<(), Refusal>
    ensures { result ≡ write_verdict nodes slots limit rule kinds.now cells.now bytes }
{
    if kinds.len() > 4096 {
        return Err(Refusal::BadFile { entry: 0 });
    }
    ranges(nodes, slots, rule, limit)?;
    if let Some(entry) = first_unknown(kinds) {
        return Err(Refusal::BadFile {
            entry: entry as u32,
        });
    }
    cells_verdict(nodes as usize, kinds, cells, bytes)
}

// Writes the file of the tables and gives its length; bytes behind it are as before. A refusal, in the order of `write_notice`, writes nothing. The
// rule and the kinds are numbers, as C gives them, so that an unknown one can be refused.
pub fn write_file(
    nodes: u32,
    slots: u32,
    limit: u32,
    rule: u32,
    kinds: &[u32],
    cells: &[u32],
    out: &mut [u8],
) -> Result<u32, Refusal>
    ensures { WriteResult nodes slots limit rule kinds.now cells.now out.old out.new result }
{
    write_verdict(nodes, slots, limit, rule, kinds, cells, out.len())?;
    let n = nodes as usize;
    let count = count_posts(kinds) * (n * n);
    let mut file = Pieces::new(out);
    put_sizes(&mut file, nodes, slots, limit, rule, kinds.len() as u32);
    put_entries(&mut file, n, kinds);
    put_cells(&mut file, &cells[..count]);
    Ok(file.length() as u32)
}
