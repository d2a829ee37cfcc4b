// The inner layers for the comparisons and the benchmark, which call them from Rust; no part of the product. Each asks and promises what the
// function does that it calls.
#![tactic(auto)]

ghost use Rattle.std.specs.Prelude.{◌≡◌, ◌*◌};
ghost use Rattle.sums.specs.Tables.{written};
ghost use Rattle.slots.specs.Places.{CanPlace, Places};
ghost use Rattle.fair.specs.Fair.{fair_kept};
ghost use Rattle.fair.specs.Cuts.{CanCut};
ghost use Rattle.flow.specs.Certified.{Bounded, Certified, HeadroomLeft};
ghost use Rattle.least.specs.Least.{kept_from};
ghost use Rattle.least.specs.Promises.{CanWithdraw, Withdrew, CanKeep};

// `fair::cut`.
#[unsafe(no_mangle)]
pub extern "C" fn lab_fair_cut(n: usize, cap: &[u32], demand: &[u32], kept: &mut [u32])
    requires { CanCut n cap.now demand.now kept.old }
    ensures { kept.new ≡ written (n * n) (fair_kept n cap.now demand.now) kept.old }
{
    fair::cut(n, cap, demand, kept);
}

// `flow::largest`.
#[unsafe(no_mangle)]
pub extern "C" fn lab_largest(
    n: usize,
    bound: &[u32],
    headroom: &mut [u32],
    a: &mut [u32],
    marks: &mut [u8],
)
    requires { Bounded n bound.now headroom.old a.old marks.old }
    ensures { Certified n bound.now headroom.old a.old marks.old a.new marks.new × HeadroomLeft n headroom.old a.new headroom.new }
{
    flow::largest(n, bound, headroom, a, marks);
}

// `least::withdrawn::withdraw`.
#[unsafe(no_mangle)]
pub extern "C" fn lab_withdraw(
    n: usize,
    cap: &[u32],
    demand: &[u32],
    withdrawn: &mut [u32],
    marks: &mut [u8],
)
    requires { CanWithdraw n cap.now demand.now withdrawn.old marks.old }
    ensures { Withdrew n cap.now demand.now withdrawn.old marks.old withdrawn.new marks.new }
{
    least::withdrawn::withdraw(n, cap, demand, withdrawn, marks);
}

// `least::kept::keep`.
#[unsafe(no_mangle)]
pub extern "C" fn lab_keep(
    n: usize,
    cap: &[u32],
    demand: &[u32],
    withdrawn: &[u32],
    kept: &mut [u32],
)
    requires { CanKeep n cap.now demand.now withdrawn.now kept.old }
    ensures { kept.new ≡ written (n * n) (kept_from n cap.now demand.now withdrawn.now) kept.old }
{
    least::kept::keep(n, cap, demand, withdrawn, kept);
}

// `slots::placing::place`.
#[unsafe(no_mangle)]
pub extern "C" fn lab_place(n: usize, l: usize, kept: &mut [u32], schedule: &mut [u8]) -> u32
    requires { CanPlace n l kept.old schedule.old }
    ensures { Places n l kept.old schedule.old kept.new schedule.new result }
{
    slots::placing::place(n, l, kept, schedule)
}
