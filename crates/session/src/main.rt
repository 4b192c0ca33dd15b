// The session program (document 01): it reads its input, has crate `replies` answer each line, and hands the answers over.
#![tactic(auto)]

ghost use Rattle.std.specs.Prelude.{◌≡◌, ◌≤◌, ◌⊎◌, true, length, IfOk, IfSome, OnOk, OnErr};
ghost use Rattle.std.specs.Io.KnownBytes.{Appends};
ghost use Rattle.script.specs.Bounds.{input_bytes};
ghost use Rattle.script.specs.Session as sessions;
ghost use Rattle.standard.specs.Answers.{AllHanded};
ghost use Rattle.standard.specs.Bytes.{AppendsFront};
ghost use Rattle.session.specs.Program.{printed_of};

use script::{ANSWER_BYTES, INPUT_BYTES, WALL_CELLS, WALL_FUNCTIONS};
use standard::{Handed, Watched, watch};
use std::io;
use std::io::{Read, Write};

// The lines of an input of at most 16,384 bytes, one after the other. At the end all answers are handed over, and the output has grown by
// them. Only a write that fails ends it before, and the output has then grown by a front of them.
fn run<W: Write>(output: &mut Watched<W>, input: &[u8]) -> io::Result<Handed>
    requires { length input.now ≤ input_bytes }
    ensures handed { IfOk result (λ h. AllHanded input.now h.answers) }
    ensures written { OnOk result (Appends (W.contents output.old.stream) (W.contents output.new.stream) (sessions.session input.now)) }
    ensures none_failed { OnOk result (output.new.has_failed ≡ output.old.has_failed) }
    ensures failed { OnErr result (output.new.has_failed ≡ true) }
    ensures left { OnErr result (AppendsFront (W.contents output.old.stream) (W.contents output.new.stream) (sessions.session input.now)) }
{
    // no heap: the tables and lists of the largest wall
    let mut cells = [0u8; WALL_CELLS];
    let mut functions = [0u8; WALL_FUNCTIONS];
    let mut cell_list = [0u32; WALL_CELLS];
    let mut function_list = [0u32; WALL_FUNCTIONS];
    let mut out = [0u8; ANSWER_BYTES];
    let mut hand = None;
    let mut handed = standard::nothing();
    let mut at = 0;
    // a while: split gives an empty line after the last line feed, and split_inclusive leaves the line feeds on
    while at < input.len() {
        let end = lines::line_end(input, at);
        let done = replies::step(
            hand,
            &input[at..end],
            &mut cells,
            &mut functions,
            &mut cell_list,
            &mut function_list,
            &mut out,
        );
        hand = done.hand;
        handed = standard::say(output, input, handed, &out[..done.count])?;
        at = end + 1;
    }
    Ok(handed)
}

// The whole program, on any input and output. The output grows by the session of the first 16,384 bytes of the input, or of all of it. Only a
// read or a write that fails ends it before, and the output has then grown by a front of that session.
fn program<R: Read, W: Write>(input: &mut Watched<R>, output: &mut Watched<W>) -> io::Result<()>
    ensures written { OnOk result (IfSome (R.remaining input.old.stream) (λ xs. Appends (W.contents output.old.stream) (W.contents output.new.stream) (printed_of xs))) }
    ensures none_failed { OnOk result ((input.new.has_failed ≡ input.old.has_failed) × (output.new.has_failed ≡ output.old.has_failed)) }
    ensures failed { OnErr result ((input.new.has_failed ≡ true) ⊎ (output.new.has_failed ≡ true)) }
    ensures left { OnErr result (IfSome (R.remaining input.old.stream) (λ xs. AppendsFront (W.contents output.old.stream) (W.contents output.new.stream) (printed_of xs))) }
{
    // no heap: room for all that is read
    let mut buffer = [0u8; INPUT_BYTES];
    let count = standard::read(input, &mut buffer)?;
    run(output, &buffer[..count])?;
    Ok(())
}

fn main(rt: HostRuntime) -> io::Result<()> {
    program(&mut watch(rt.stdin()), &mut watch(rt.stdout()))
}
