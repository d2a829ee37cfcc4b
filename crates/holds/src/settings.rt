// What a pairing of all sources and destinations sets the switch to, and for how long. A pair is idle first and due then: where it still gets
// more slots than it keeps, what is more is idle.
ghost use Rattle.std.specs.Prelude.{◌≡◌};
ghost use Rattle.holds.specs.Holds.{lasting, heard_from, CanHear, Hears};

// For how many slots a pair's byte stays the same: as long as it is idle, and then as long as it is due.
#[tactic(auto, unfolding(crate::specs::Holds::lasting))]
fn lasting_of(padded: u32, kept: u32) -> u32
    ensures { result ≡ lasting padded kept }
{
    if kept < padded { padded - kept } else { padded }
}

// What is heard from source i: nobody while the pair is idle, and then the source.
#[tactic(auto, unfolding(crate::specs::Holds::heard_from))]
fn heard_of(padded: u32, kept: u32, i: u8) -> u8
    ensures { result ≡ heard_from padded kept i }
{
    if kept < padded { 255 } else { i }
}

// What each destination hears, and for how many slots none of it changes, at most `most`.
pub fn hear(n: usize, table: &[u32], source: &[u8], bytes: &mut [u8], most: u32) -> u32
    requires { CanHear n table.now source.now bytes.old most }
    ensures { Hears n table.now source.now bytes.new most result }
{
    let mut h = most;
    for j in 0..n {
        let i = usize::from(source[j]);
        let padded = cells::padded(n, table, i, j);
        let kept = cells::kept(n, table, i, j);
        bytes[j] = heard_of(padded, kept, source[j]);
        h = h.min(lasting_of(padded, kept));
    }
    h
}
