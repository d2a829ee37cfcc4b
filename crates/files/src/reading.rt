// Reading a file: what its table says, or the first refusal.
#![tactic(auto, unfolding(crate::specs::Reading::table_bad, crate::specs::Reading::entry_bad, crate::specs::Format::kind_of, crate::specs::Format::place_of))]

ghost use Rattle.std.specs.Prelude.{◌≡◌, ◌+◌, ◌*◌, ◌≤◌, ◌<◌, length};
ghost use Rattle.sums.specs.Searches.{found};
ghost use Rattle.files.specs.Format.{kind_of, place_of};
ghost use Rattle.files.specs.Kinds.{KindOf};
ghost use Rattle.files.specs.Reading.{head_of, table_bad, entry_bad, first_bad, ReadResult};

use crate::kinds::{Kind, UnknownKind};
use crate::numbers::four;
use star::checks::ranges;
use star::refusals::Refusal;

// The first 20 bytes of a file: N, L, B, the rule and the number of entries. The rule stays a number, as the record of a run has it, which C reads.
#[derive(Clone, Copy, Debug, PartialEq, Eq)]
pub struct Head {
    pub nodes: u32,
    pub slots: u32,
    pub limit: u32,
    pub rule: u32,
    pub entries: u32,
}

impl Head {
    // The head of a file that is long enough for one.
    pub fn of(file: &[u8]) -> Head
        requires { 20 ≤ length file.now }
        ensures { result ≡ head_of file.now }
    {
        Head {
            nodes: four(file, 0),
            slots: four(file, 4),
            limit: four(file, 8),
            rule: four(file, 12),
            entries: four(file, 16),
        }
    }
}

// The kind of entry e, in a table that has it.
pub fn kind_at(file: &[u8], e: usize) -> Result<Kind, UnknownKind>
    requires { 28 + 8 * e ≤ length file.now }
    ensures { KindOf (kind_of file.now e) result }
{
    Kind::try_from(four(file, 20 + 8 * e))
}

// The place of its matrix.
pub fn place_at(file: &[u8], e: usize) -> u32
    requires { 28 + 8 * e ≤ length file.now }
    ensures { result ≡ place_of file.now e }
{
    four(file, 24 + 8 * e)
}

// Whether the table is cut short or has over 4,096 entries.
fn table_bad(file: &[u8]) -> bool
    ensures { result ≡ table_bad file.now }
{
    file.len() < 20 || four(file, 16) > 4096 || file.len() < 20 + 8 * four(file, 16) as usize
}

// Whether entry e has an unknown kind, a frame's place not 0, or a matrix not wholly between the table and the file's end.
fn entry_bad(file: &[u8], n: usize, entries: usize, e: usize) -> bool
    requires { (n ≤ 64) × (e < entries) × (entries ≤ 4096) × (20 + 8 * entries ≤ length file.now) }
    ensures { result ≡ entry_bad n entries file.now e }
{
    let place = place_at(file, e) as usize;
    match kind_at(file, e) {
        Ok(Kind::Post) => place < 20 + 8 * entries || file.len() < place + 2 * (n * n),
        Ok(Kind::Frame) => place != 0,
        Err(_) => true,
    }
}

// The first bad entry.
fn first_bad(file: &[u8], n: usize, entries: usize) -> Option<usize>
    requires { (n ≤ 64) × (entries ≤ 4096) × (20 + 8 * entries ≤ length file.now) }
    ensures { result ≡ found entries (first_bad n entries file.now) }
{
    for e in 0..entries {
        if entry_bad(file, n, entries, e) {
            return Some(e);
        }
    }
    None
}

// Reads a file: its head, or the first refusal in the order of `read_notice`.
pub fn read(file: &[u8]) -> Result<Head, Refusal>
    ensures { ReadResult file.now result }
{
    if table_bad(file) {
        return Err(Refusal::BadFile { entry: 0 });
    }
    let head = Head::of(file);
    ranges(head.nodes, head.slots, head.rule, head.limit)?;
    if let Some(entry) = first_bad(file, head.nodes as usize, head.entries as usize) {
        return Err(Refusal::BadFile {
            entry: entry as u32,
        });
    }
    Ok(head)
}
