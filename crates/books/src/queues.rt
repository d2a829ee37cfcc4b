// The queues: what arrives and finds room waits, what finds none is dropped, what is kept leaves.
ghost use Rattle.std.specs.Prelude.{◌≡◌};
ghost use Rattle.books.specs.Queues.{overflowed, queued, served};
ghost use Rattle.books.specs.Rooms.{Arrives, Drops, Takes};

// Adds to dropped what would lift a queue above the limit.
pub fn drop_excess(n: usize, limit: u32, arrivals: &[u32], waiting: &[u32], dropped: &mut [u64])
    requires { Drops n arrivals.now waiting.now dropped.old }
    ensures { dropped.new ≡ overflowed n limit arrivals.now waiting.now dropped.old }
{
    for p in 0..n * n {
        dropped[p] += u64::from((waiting[p] + arrivals[p]).saturating_sub(limit));
    }
}

// Adds to each queue what arrives, as far as the limit allows.
pub fn enqueue(n: usize, limit: u32, arrivals: &[u32], waiting: &mut [u32])
    requires { Arrives n arrivals.now waiting.old }
    ensures { waiting.new ≡ queued n limit arrivals.now waiting.old }
{
    for p in 0..n * n {
        waiting[p] = (waiting[p] + arrivals[p]).min(limit);
    }
}

// Takes from each queue what is kept of it.
pub fn dequeue(n: usize, kept: &[u32], waiting: &mut [u32])
    requires { Takes n kept.now waiting.old }
    ensures { waiting.new ≡ served n kept.now waiting.old }
{
    for p in 0..n * n {
        waiting[p] -= kept[p];
    }
}
