// Standard input and output, as a reader and a writer that the caller lends. Which bytes `read` takes and which `say` writes is proved, of
// each reader and writer whose bytes are known. Of the process's own a contract of std says how many bytes went, and not which.
#![tactic(auto)]

mod streams;

ghost use Rattle.std.specs.Prelude.{◌≡◌, ◌++◌, ◌+◌, ◌<◌, true, length, take, IfOk, OnOk, OnErr};
ghost use Rattle.std.specs.Io.{ReadsAtMost};
ghost use Rattle.std.specs.Io.KnownBytes.{Appends, Consumes, IsAtEnd};
ghost use Rattle.script.specs.Bounds.{input_bytes};
ghost use Rattle.standard.specs.Answers.{Due, IsReply, printed};
ghost use Rattle.standard.specs.Bytes.{AppendsFront, ConsumesFront};

use std::io;
use std::io::{Read, Write};
pub use streams::{Watched, watch};

// How many answers were handed over. The field is private: only `nothing` and `say` make one.
#[derive(Clone, Copy)]
pub struct Handed {
    answers: usize,
}

// The first 16,384 bytes of the input, or all of it, at the start of the buffer. The result is how many. Only a read that fails ends it with
// an error, and the bytes that came before it stand at the start of the buffer.
pub fn read<R: Read>(input: &mut Watched<R>, buffer: &mut [u8]) -> io::Result<usize>
    requires { length buffer.old ≡ input_bytes }
    ensures count { ReadsAtMost result buffer.new }
    ensures bytes { IfOk result (λ n. Consumes (R.remaining input.old.stream) (R.remaining input.new.stream) (take n buffer.new)) }
    ensures all { IfOk result (λ n. n < input_bytes → IsAtEnd (R.remaining input.new.stream)) }
    ensures none_failed { OnOk result (input.new.has_failed ≡ input.old.has_failed) }
    ensures failed { OnErr result (input.new.has_failed ≡ true) }
    ensures left { OnErr result (ConsumesFront (R.remaining input.old.stream) (R.remaining input.new.stream) buffer.new) }
{
    let mut done = 0;
    // a while: read_exact does not say how much it read of an input that ends, or when it ends with an error
    while done < buffer.len() {
        let n = input.read(&mut buffer[done..])?;
        if n == 0 {
            break;
        }
        done += n;
    }
    Ok(done)
}

// A text to the output: a line of some input prints it. Only a write that fails, or takes nothing, ends it with an error, when the first bytes
// of the text may have been written.
fn print<W: Write>(output: &mut Watched<W>, text: &[u8]) -> io::Result<()>
    requires { IsReply text.now }
    ensures written { OnOk result (Appends (W.contents output.old.stream) (W.contents output.new.stream) text.now) }
    ensures none_failed { OnOk result (output.new.has_failed ≡ output.old.has_failed) }
    ensures failed { OnErr result (output.new.has_failed ≡ true) }
    ensures left { OnErr result (AppendsFront (W.contents output.old.stream) (W.contents output.new.stream) text.now) }
{
    let mut rest = text;
    // a while: write_all does not say what is written when it ends with an error
    while !rest.is_empty() {
        let n = output.write(rest)?;
        rest = &rest[n..];
    }
    Ok(())
}

// Before the first answer.
pub fn nothing() -> Handed
    ensures { result.answers ≡ 0 }
{
    Handed { answers: 0 }
}

// Hands over the answer that is due after those handed over: what is printed grows by the text, and the output by its bytes.
pub fn say<W: Write>(
    output: &mut Watched<W>,
    input: &[u8],
    handed: Handed,
    text: &[u8],
) -> io::Result<Handed>
    requires due { Due input.now handed.answers text.now }
    requires answers_lt_input_bytes { handed.answers < input_bytes }
    ensures answers_value { IfOk result (λ h. h.answers ≡ handed.answers + 1) }
    ensures answers_value_2 { IfOk result (λ h. printed input.now h.answers ≡ printed input.now handed.answers ++ text.now) }
    ensures written { OnOk result (Appends (W.contents output.old.stream) (W.contents output.new.stream) text.now) }
    ensures none_failed { OnOk result (output.new.has_failed ≡ output.old.has_failed) }
    ensures failed { OnErr result (output.new.has_failed ≡ true) }
    ensures left { OnErr result (AppendsFront (W.contents output.old.stream) (W.contents output.new.stream) text.now) }
{
    print(output, text)?;
    let answers = handed.answers + 1;
    Ok(Handed { answers })
}
