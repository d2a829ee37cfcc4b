// Reading an input to its end into lent bytes, and writing bytes out; and what a program does with its input.
#![tactic(auto)]

ghost use Rattle.std.specs.Prelude.{ℕ, ◌^◌, ◌<◌, ◌≤◌, List, IfOk, OnOk, OnErr, length, take};
ghost use Rattle.std.specs.Io.{ReadsAtMost};
ghost use Rattle.std.specs.Io.KnownBytes.{Consumes, Appends, IsAtEnd};
ghost use Rattle.pieces.specs.Pieces.{Answered};
ghost use Rattle.streams.specs.Streams.{ReadPartly, WrittenPartly, AnswersInput, AnswersPartly};

use std::io;
use std::io::{ErrorKind, Read, Write};

// Reads until the buffer is full or the input ends, in whatever pieces it comes, and gives how many bytes were read. They stand at the front. An error
// of the reader leaves fewer read than there is room for. The reader chooses the steps, so that there is no range to go over, and the count is the answer.
pub fn read_full<R: Read>(reader: &mut R, buffer: &mut [u8]) -> io::Result<usize>
    ensures bound { ReadsAtMost result buffer.new }
    ensures bytes { IfOk result (λ n. Consumes (R.remaining reader.old) (R.remaining reader.new) (take n buffer.new)) }
    ensures end { IfOk result (λ n. n < length buffer.new → IsAtEnd (R.remaining reader.new)) }
    ensures err { OnErr result (ReadPartly (length buffer.new) (R.remaining reader.old) (R.remaining reader.new)) }
{
    let mut got = 0;
    while got < buffer.len() {
        let count = reader.read(&mut buffer[got..])?;
        if count == 0 {
            return Ok(got);
        }
        got += count;
    }
    Ok(got)
}

// Writes all of the bytes, in whatever pieces they are taken. An error of the writer leaves a front of them written; to take nothing is one. The writer
// chooses the steps; a slice of what is left, in place of the count, is no plainer: what an error leaves is said by the count.
pub fn write_full<W: Write>(writer: &mut W, bytes: &[u8]) -> io::Result<()>
    ensures ok { OnOk result (Appends (W.contents writer.old) (W.contents writer.new) bytes.now) }
    ensures err { OnErr result (WrittenPartly bytes.now (W.contents writer.old) (W.contents writer.new)) }
{
    let mut sent = 0;
    while sent < bytes.len() {
        let taken = writer.write(&bytes[sent..])?;
        if taken == 0 {
            return Err(io::Error::from(ErrorKind::WriteZero));
        }
        sent += taken;
    }
    Ok(())
}

// A program's answer to a whole input, of at most `N` bytes.
pub trait Program<const N: usize> {
    // Which texts may answer an input.
    ghost promised: { List ℕ → List ℕ → Type 0 };

    // Writes the answer at the front of `out`, and gives its length.
    fn answer(input: &[u8], out: &mut [u8; N]) -> usize
        ensures answered { Answered (promised input.now) out.old out.new result }
        ensures within { result ≤ N };
}

// Answers what the reader has left.
pub fn answer_input<P: Program<N>, R: Read, W: Write, const N: usize>(
    reader: &mut R,
    writer: &mut W,
) -> io::Result<()>
    requires { N < 2 ^ 63 }
    ensures ok { OnOk result (AnswersInput 65537 P.promised
        (R.remaining reader.old) (R.remaining reader.new) (W.contents writer.old) (W.contents writer.new)) }
    ensures err { OnErr result (AnswersPartly 65537 P.promised
        (R.remaining reader.old) (R.remaining reader.new) (W.contents writer.old) (W.contents writer.new)) }
{
    // one byte more than an input may have, so that a longer one is seen
    let mut input = [0u8; 65537];
    let got = read_full(reader, &mut input)?;
    let mut out = [0u8; N];
    let length = P::answer(&input[..got], &mut out);
    write_full(writer, &out[..length])
}
