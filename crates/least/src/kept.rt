// What is kept of a demand D, given the withdrawn matrix A: E, which is D minus A, with each line that is still too long cut to its capacity.
ghost use Rattle.std.specs.Prelude.{◌≡◌, ℕ, ◌+◌, ◌*◌, ◌<◌, ◌≤◌, ltb, length, get_or};
ghost use Rattle.sums.specs.Sums.{bit};
ghost use Rattle.sums.specs.Tables.{square, written};
ghost use Rattle.star.specs.Lines.{line_sum};
ghost use Rattle.star.specs.Rooms.{Square};
ghost use Rattle.least.specs.Least.{left, shared, kept_cell, kept_from};
ghost use Rattle.least.specs.Promises.{Rewritten, Line, claim, outranking, Divided, CanShare, CanKeep};

use star::lines::{line_sums, on_line, put_on_line};

// Writes E, which is D minus A.
fn subtract(n: usize, demand: &[u32], withdrawn: &[u32], table: &mut [u32])
    requires square { (Square n demand.now) × (Square n withdrawn.now) }
    requires table_len { length table.old ≡ n * n }
    requires below { (p : ℕ) → p < n * n → get_or withdrawn.now p 0 ≤ get_or demand.now p 0 }
    ensures { table.new ≡ left n demand.now withdrawn.now }
{
    for p in 0..n * n {
        table[p] = demand[p] - withdrawn[p];
    }
}

// A cell's claim to a missing slot: of two cells the one with the larger claim comes first. The sum of a line is at most 64 × 65,535, so it fits.
fn claim(remainder: u32, t: usize) -> u32
    requires { (remainder < 4194240) × (t < 64) }
    ensures { result ≡ claim remainder t }
{
    remainder * 64 + (63 - t) as u32
}

// A line too long, divided: the share of each of its cells, how many slots are still missing then, and each cell's claim to one.
#[derive(Drop)]
struct Division {
    claims: [u32; 64],
    missing: u32,
    shares: [u32; 64],
}

impl Division {
    // Divides the capacity of a line too long, whose sum is given; before that all of it is missing.
    fn divide(&mut self, n: usize, cap: &[u32], table: &[u32], line: usize, sum: u32)
        requires line { Line n cap.now table.now line }
        requires whole { self.old.missing ≡ get_or cap.now line 0 }
        requires too_long { (sum ≡ line_sum n table.now line) × (get_or cap.now line 0 < sum) }
        ensures { Divided n cap.now table.now line self.new.shares self.new.claims self.new.missing }
    {
        let mut given = 0;
        for t in 0..n {
            let part = on_line(n, table, line, t) * cap[line];
            self.shares[t] = part / sum;
            self.claims[t] = claim(part % sum, t);
            given += part / sum;
        }
        self.missing -= given;
    }

    // How many cells of the line come before cell t: one comparison a cell and no branch, which the machine makes for several at once.
    fn rank(&self, n: usize, t: usize) -> u32
        requires { (n ≤ 64) × (t < n) }
        ensures { result ≡ outranking n self.now.claims t }
    {
        let own = self.claims[t];
        let mut count = 0;
        for claim in &self.claims[..n] {
            count += u32::from(*claim > own);
        }
        count
    }

    // What cell t keeps: its share, and one slot more where its rank is below the number of slots missing. A share is at most 65,535 × 1,024, so it
    // fits.
    fn kept(&self, n: usize, t: usize) -> u32
        requires node { (n ≤ 64) × (t < n) }
        requires below { get_or self.now.shares t 0 ≤ 67107840 }
        ensures { result ≡ get_or self.now.shares t 0 + bit (ltb (outranking n self.now.claims t) self.now.missing) }
    {
        self.shares[t] + u32::from(self.rank(n, t) < self.missing)
    }
}

// Gives each cell of a line what it keeps.
fn give_shares(n: usize, table: &mut [u32], line: usize, division: &Division)
    requires square { (Square n table.old) × (line < 2 * n) }
    requires below { (t : ℕ) → t < n → get_or division.now.shares t 0 ≤ 67107840 }
    ensures { Rewritten n line (λ t. get_or division.now.shares t 0 + bit (ltb (outranking n division.now.claims t) division.now.missing)) table.old table.new }
{
    for t in 0..n {
        put_on_line(n, table, line, t, division.kept(n, t));
    }
}

// Cuts a line too long, whose sum is given, to its capacity.
fn share_line(n: usize, cap: &[u32], table: &mut [u32], line: usize, sum: u32)
    requires line { Line n cap.now table.old line }
    requires too_long { (sum ≡ line_sum n table.old line) × (get_or cap.now line 0 < sum) }
    ensures { Rewritten n line (shared n cap.now table.old line) table.old table.new }
{
    let mut division = Division {
        claims: [0; 64],
        missing: cap[line],
        shares: [0; 64],
    };
    division.divide(n, cap, table, line, sum);
    give_shares(n, table, line, &division);
}

// Cuts every line of E that is too long, given the sums of all lines of E. Two such lines meet only in a zero cell, so no cut changes a line that
// is to be cut later, and its sum is still E's.
fn share_lines(n: usize, cap: &[u32], sums: &[u32], table: &mut [u32])
    requires { CanShare n cap.now sums.now table.old }
    ensures { table.new ≡ square n (kept_cell n cap.now table.old) }
{
    for line in 0..2 * n {
        if sums[line] > cap[line] {
            share_line(n, cap, table, line, sums[line]);
        }
    }
}

// What is kept, in a table of exactly n * n cells.
fn keep_exactly(n: usize, cap: &[u32], demand: &[u32], withdrawn: &[u32], kept: &mut [u32])
    requires { (CanKeep n cap.now demand.now withdrawn.now kept.old) × (length kept.old ≡ n * n) }
    ensures { kept.new ≡ kept_from n cap.now demand.now withdrawn.now }
{
    let mut sums = [0u32; 128];
    subtract(n, demand, withdrawn, kept);
    line_sums(n, kept, &mut sums);
    share_lines(n, cap, &sums, kept);
}

// What is kept, given the demand and a greatest withdrawn matrix; cells beyond the first n * n are left as they are.
pub fn keep(n: usize, cap: &[u32], demand: &[u32], withdrawn: &[u32], kept: &mut [u32])
    requires { CanKeep n cap.now demand.now withdrawn.now kept.old }
    ensures { kept.new ≡ written (n * n) (kept_from n cap.now demand.now withdrawn.now) kept.old }
{
    keep_exactly(n, cap, demand, withdrawn, &mut kept[..n * n]);
}
