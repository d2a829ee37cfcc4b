// Whether the books of a pair agree, and the first pair whose books disagree.
ghost use Rattle.std.specs.Prelude.{◌≡◌, ◌*◌, ◌<◌, length};
ghost use Rattle.sums.specs.Searches.{found};
ghost use Rattle.books.specs.Books.{agree, books_agree, first_disagreeing};
ghost use Rattle.books.specs.Rooms.{Tables};

// The four tables of a run, lent to be read.
#[derive(Clone, Copy)]
pub struct Books<'a> {
    pub waiting: &'a [u32],
    pub posted: &'a [u64],
    pub sent: &'a [u64],
    pub dropped: &'a [u64],
}

// Whether the books of a pair agree. Posted is taken apart, so that no sum is made that could wrap.
fn agrees(limit: u32, posts: u32, waiting: u32, posted: u64, sent: u64, dropped: u64) -> bool
    ensures { result ≡ agree limit posts waiting posted sent dropped }
{
    if waiting > limit || sent > posted {
        return false;
    }
    let unsent = posted - sent;
    dropped <= unsent
        && u64::from(waiting) == unsent - dropped
        && posted <= 65535 * u64::from(posts)
}

impl Books<'_> {
    // Whether the books of the pair at cell p agree.
    fn agree_at(&self, limit: u32, posts: u32, p: usize) -> bool
        requires { (p < length self.now.waiting.now) × (p < length self.now.posted.now) × (p < length self.now.sent.now) × (p < length self.now.dropped.now) }
        ensures { result ≡ books_agree limit posts self.now.waiting.now self.now.posted.now self.now.sent.now self.now.dropped.now p }
    {
        agrees(
            limit,
            posts,
            self.waiting[p],
            self.posted[p],
            self.sent[p],
            self.dropped[p],
        )
    }

    // The first pair in row order whose books disagree, if one's do. Row by row: of one loop over all cells the machine code is no longer, but it is not
    // aligned, and takes up to 1.7 times as long.
    pub fn first_disagreeing(&self, n: usize, limit: u32, posts: u32) -> Option<usize>
        requires { Tables n self.now.waiting.now self.now.posted.now self.now.sent.now self.now.dropped.now }
        ensures { result ≡ found (n * n) (first_disagreeing n limit posts self.now.waiting.now self.now.posted.now self.now.sent.now self.now.dropped.now) }
    {
        for i in 0..n {
            for j in 0..n {
                if !self.agree_at(limit, posts, i * n + j) {
                    return Some(i * n + j);
                }
            }
        }
        None
    }
}
