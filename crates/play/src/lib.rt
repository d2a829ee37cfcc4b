// Playing a scenario file: a fresh start, and then each entry in turn. No call of an accepted file is refused, which is promised,
// so that no answer is looked at.
#![tactic(auto)]

ghost use Rattle.std.specs.Prelude.{◌≡◌, ℕ, ◌+◌, ◌*◌, ◌≤◌, ◌<◌, length};
ghost use Rattle.sums.specs.Tables.{tab, written};
ghost use Rattle.star.specs.Refusals.{Accepted};
ghost use Rattle.calls.specs.Held.{held};
ghost use Rattle.files.specs.Format.{two, entries_of};
ghost use Rattle.files.specs.Reading.{read_verdict};
ghost use Rattle.play.specs.Plays.{Played, LargeTables, CanPlay, PostPlayed, FramePlayed};

use calls::frame::{frame_on, frames_after};
use calls::fresh::{fresh_on, started};
use calls::post::{post_on, posts_after};
use calls::record::Run;
use files::kinds::Kind;
use files::numbers::two;
use files::reading::{Head, kind_at, place_at};

// The cells of the matrix at a place go to the front of a table.
fn read_cells(file: &[u8], at: usize, table: &mut [u32], cells: usize)
    requires { (cells ≤ length table.old) × (cells ≤ 4096) × (at + 2 * cells ≤ length file.now) }
    ensures { (table.new ≡ written cells (tab cells (λ c. two file.now (at + 2 * c))) table.old) × ((c : ℕ) → c < cells → two file.now (at + 2 * c) ≤ 65535) }
{
    for c in 0..cells {
        table[c] = two(file, at + 2 * c);
    }
}

// Posts the matrix at a place.
fn play_post(
    file: &[u8],
    at: usize,
    old: Run,
    waiting: &mut [u32],
    posted: &mut [u64],
    sent: &[u64],
    dropped: &mut [u64],
)
    requires { (old.nodes ≤ 64) × (at + 2 * (old.nodes * old.nodes) ≤ length file.now) }
    ensures { PostPlayed file.now at (held old waiting.old posted.old sent.now dropped.old) (λ run. held run waiting.new posted.new sent.now dropped.new) }
{
    let n = old.nodes as usize;
    let cells = n * n;
    let mut arrivals = [0u32; 4096];
    read_cells(file, at, &mut arrivals, cells);
    let _ = post_on(old, &arrivals[..cells], waiting, posted, sent, dropped);
}

// Sends a frame.
fn play_frame(old: Run, waiting: &mut [u32], posted: &[u64], sent: &mut [u64], dropped: &[u64])
    ensures { FramePlayed (held old waiting.old posted.now sent.old dropped.now) (λ run. held run waiting.new posted.now sent.new dropped.now) }
{
    let mut kept = [0u32; 4096];
    let mut withdrawn = [0u32; 4096];
    let mut schedule = [0u8; 65536];
    let _ = frame_on(
        old,
        waiting,
        posted,
        sent,
        dropped,
        &mut kept,
        &mut withdrawn,
        &mut schedule,
    );
}

// Plays entry e, and gives the record then.
fn play_entry(
    file: &[u8],
    e: usize,
    old: Run,
    waiting: &mut [u32],
    posted: &mut [u64],
    sent: &mut [u64],
    dropped: &mut [u64],
) -> Run
    requires can_play { CanPlay file.now e (held old waiting.old posted.old sent.old dropped.old) }
    requires entry { e < entries_of file.now }
    ensures { Played file.now (e + 1) (held result waiting.new posted.new sent.new dropped.new) }
{
    match kind_at(file, e).unwrap() {
        Kind::Post => {
            play_post(
                file,
                place_at(file, e) as usize,
                old,
                waiting,
                posted,
                sent,
                dropped,
            );
            Run {
                posts: posts_after(old),
                ..old
            }
        }
        Kind::Frame => {
            play_frame(old, waiting, posted, sent, dropped);
            Run {
                frames: frames_after(old),
                ..old
            }
        }
    }
}

// Plays an accepted file on these tables: a fresh start, and then every entry. Gives the record of the run. The tables are four parameters: a struct of
// arrays was tried, and would ask more of a caller, of a function that docs/changes/101.md names.
pub fn play(
    file: &[u8],
    waiting: &mut [u32],
    posted: &mut [u64],
    sent: &mut [u64],
    dropped: &mut [u64],
) -> Run
    requires in_order { read_verdict file.now ≡ Accepted }
    requires large_tables { LargeTables waiting.old posted.old sent.old dropped.old }
    ensures { Played file.now (entries_of file.now) (held result waiting.new posted.new sent.new dropped.new) }
{
    let head = Head::of(file);
    let mut run = started(head.nodes, head.slots, head.limit, head.rule);
    let _ = fresh_on(
        run, head.nodes, head.slots, head.limit, head.rule, waiting, posted, sent, dropped,
    );
    for e in 0..head.entries as usize {
        run = play_entry(file, e, run, waiting, posted, sent, dropped);
    }
    run
}
