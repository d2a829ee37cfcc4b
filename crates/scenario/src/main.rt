// The scenario program: reads standard input to its end, in whatever pieces it comes, and writes the answer.
#![tactic(auto)]

ghost use Rattle.std.specs.Prelude.{OnOk, OnErr};
ghost use Rattle.streams.specs.Streams.{AnswersInput, AnswersPartly};
ghost use Rattle.scenario_text.specs.Outcomes.{PrintsFile};

use scenario_text::answers::{LONGEST_TEXT, answer};
use std::io;
use std::io::{Read, Write};
use streams::Program;

// What the program makes of an input.
struct Scenario;

impl Program<LONGEST_TEXT> for Scenario {
    ghost promised = { PrintsFile };

    fn answer(input: &[u8], out: &mut [u8; LONGEST_TEXT]) -> usize {
        answer(input, out)
    }
}

// Answers what the reader has left.
fn answer_input<R: Read, W: Write>(reader: &mut R, writer: &mut W) -> io::Result<()>
    ensures ok { OnOk result (AnswersInput 65537 PrintsFile
        (R.remaining reader.old) (R.remaining reader.new) (W.contents writer.old) (W.contents writer.new)) }
    ensures err { OnErr result (AnswersPartly 65537 PrintsFile
        (R.remaining reader.old) (R.remaining reader.new) (W.contents writer.old) (W.contents writer.new)) }
{
    streams::answer_input::<Scenario, _, _, _>(reader, writer)
}

fn main(rt: HostRuntime) -> io::Result<()> {
    answer_input(&mut rt.stdin(), &mut rt.stdout())
}
