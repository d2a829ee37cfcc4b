// The tables of 64-bit amounts: what was posted, sent and dropped.
ghost use Rattle.std.specs.Prelude.{◌≡◌};
ghost use Rattle.star.specs.Rooms.{Square};
ghost use Rattle.books.specs.Queues.{zeroed, increased};
ghost use Rattle.books.specs.Rooms.{Adds};

// Sets the amount of each pair to 0.
// Apart from `clear` of star: tried over a type parameter, where `fill` asks for a clone that cannot fail, and no bound proves it.
pub fn clear(n: usize, amounts: &mut [u64])
    requires { Square n amounts.old }
    ensures { amounts.new ≡ zeroed n amounts.old }
{
    amounts[..n * n].fill(0);
}

// Adds a number to the amount of each pair.
pub fn add(n: usize, amounts: &mut [u64], added: &[u32])
    requires { Adds n amounts.old added.now }
    ensures { amounts.new ≡ increased n added.now amounts.old }
{
    for p in 0..n * n {
        amounts[p] += u64::from(added[p]);
    }
}
