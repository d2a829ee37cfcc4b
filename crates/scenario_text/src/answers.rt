// The answer to an input: `bad input`, a refusal, or the lines of the run.
ghost use Rattle.std.specs.Prelude.{◌≡◌, ◌+◌, ◌≤◌};
ghost use Rattle.star.specs.Refusals.{Accepted};
ghost use Rattle.pieces.specs.Pieces.{HasRoom, PutsSome, Answered};
ghost use Rattle.files.specs.Format.{nodes_of};
ghost use Rattle.files.specs.Reading.{read_verdict};
ghost use Rattle.scenario_text.specs.Lines.{longest_text};
ghost use Rattle.scenario_text.specs.Outcomes.{PrintsFile, PrintsRun, PrintResult};

use crate::lines::{Tables, put_lines};
use files::reading::read;
use pieces::Pieces;
use play::play;
use star::refusals::Refusal;

// Bytes enough for the longest text.
pub const LONGEST_TEXT: usize = 516096;

// So many bytes an input may have.
const MOST_BYTES: usize = 65536;

// Plays an accepted file of n nodes, and prints what is held then.
fn put_run(text: &mut Pieces, file: &[u8], n: usize)
    requires room { HasRoom text.old longest_text }
    requires accepted { read_verdict file.now ≡ Accepted }
    requires nodes { n ≡ nodes_of file.now }
    ensures puts { PutsSome (PrintsRun file.now) text.old text.new }
    ensures short { text.new.at ≤ text.old.at + longest_text }
{
    let mut tables = Tables {
        waiting: [0; 4096],
        posted: [0; 4096],
        sent: [0; 4096],
        dropped: [0; 4096],
    };
    play(
        file,
        &mut tables.waiting,
        &mut tables.posted,
        &mut tables.sent,
        &mut tables.dropped,
    );
    put_lines(text, n, &tables);
}

// Prints the answer to an input.
fn put_outcome(text: &mut Pieces, input: &[u8])
    requires { HasRoom text.old longest_text }
    ensures puts { PutsSome (PrintsFile input.now) text.old text.new }
    ensures short { text.new.at ≤ text.old.at + longest_text }
{
    if input.len() > MOST_BYTES {
        text.put_bad_input();
        return;
    }
    match read(input) {
        Ok(head) => put_run(text, input, head.nodes as usize),
        Err(refusal) => {
            text.put_refusal(u64::from(refusal.number()), u64::from(refusal.place()))
        }
    }
}

// Writes the answer to an input at the front of `out`, and gives its length.
pub fn answer(input: &[u8], out: &mut [u8; LONGEST_TEXT]) -> usize
    ensures { Answered (PrintsFile input.now) out.old out.new result }
{
    let mut text = Pieces::new(out);
    put_outcome(&mut text, input);
    text.length()
}

// The same into bytes of any length: refused by 5, and then nothing is written, where they are fewer than the longest text may take.
pub fn print(file: &[u8], text: &mut [u8]) -> Result<u32, Refusal>
    ensures { PrintResult file.now text.old text.new result }
{
    if text.len() < LONGEST_TEXT {
        return Err(Refusal::TableShort);
    }
    let mut pieces = Pieces::new(text);
    put_outcome(&mut pieces, file);
    Ok(pieces.length() as u32)
}
