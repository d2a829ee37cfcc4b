// The printed lines, piece by piece.
ghost use Rattle.std.specs.Prelude.{◌+◌, ◌*◌, ◌≤◌, ◌<◌, length, get_or};
ghost use Rattle.pieces.specs.Pieces.{HasRoom, Puts};
ghost use Rattle.pieces.specs.Text.{marked};
ghost use Rattle.scenario_text.specs.Lines.{line_text, pair_text, lines_text, longest_text};

use pieces::Pieces;

// The tables of a played run, for up to 64 nodes.
#[derive(Drop)]
pub struct Tables {
    pub waiting: [u32; 4096],
    pub posted: [u64; 4096],
    pub sent: [u64; 4096],
    pub dropped: [u64; 4096],
}

// A number of at most twenty digits, and the byte after it.
fn put_number(text: &mut Pieces, number: u64, mark: u8)
    requires { HasRoom text.old 21 }
    ensures puts { Puts text.old text.new (marked number mark) }
    ensures short { length (marked number mark) ≤ 21 }
{
    text.put_marked(number, mark);
}

// The line of a pair.
fn put_line(text: &mut Pieces, n: usize, pair: usize, tables: &Tables)
    requires pair { (1 ≤ n) × (pair < 4096) }
    requires room { HasRoom text.old 126 }
    ensures puts { Puts text.old text.new (line_text n pair (get_or tables.now.posted pair 0) (get_or tables.now.sent pair 0) (get_or tables.now.dropped pair 0) (get_or tables.now.waiting pair 0)) }
    ensures short { text.new.at ≤ text.old.at + 126 }
{
    put_number(text, (pair / n) as u64, b' ');
    put_number(text, (pair % n) as u64, b' ');
    put_number(text, tables.posted[pair], b' ');
    put_number(text, tables.sent[pair], b' ');
    put_number(text, tables.dropped[pair], b' ');
    put_number(text, u64::from(tables.waiting[pair]), b'\n');
}

// The line of a pair, or nothing where nothing was posted.
fn put_pair(text: &mut Pieces, n: usize, pair: usize, tables: &Tables)
    requires pair { (1 ≤ n) × (pair < 4096) }
    requires room { HasRoom text.old 126 }
    ensures puts { Puts text.old text.new (pair_text n pair (get_or tables.now.posted pair 0) (get_or tables.now.sent pair 0) (get_or tables.now.dropped pair 0) (get_or tables.now.waiting pair 0)) }
    ensures short { text.new.at ≤ text.old.at + 126 }
{
    if tables.posted[pair] == 0 {
        return;
    }
    put_line(text, n, pair, tables);
}

// The lines of all pairs.
pub fn put_lines(text: &mut Pieces, n: usize, tables: &Tables)
    requires nodes { (1 ≤ n) × (n ≤ 64) }
    requires room { HasRoom text.old longest_text }
    ensures puts { Puts text.old text.new (lines_text n tables.now.posted tables.now.sent tables.now.dropped tables.now.waiting) }
    ensures short { text.new.at ≤ text.old.at + longest_text }
{
    for pair in 0..n * n {
        put_pair(text, n, pair, tables);
    }
}
