//! The program: words in, one answer on standard output, and a status.
#![tactic(auto)]

ghost use Rattle.std.specs.Prelude.{◌≡◌, ◌⊎◌};
ghost use Rattle.byte_ends.specs.Counts.{Rose};
ghost use Rattle.byte_ends.specs.Sink.{Puts, PutsPrefix};
ghost use Rattle.m3_tool.specs.Lines.{no_memory_line};

use byte_ends::{OsShelf, OsSink, Sink, WriteFault, put_whole};
use m3_tool::{Status, run};
use std::process::ExitCode;
use std::rt::Env;
use std::{env, io};

/// The words after the program's name. Those that aren't text fit no command, as no word does.
fn words(rt: &(impl Env + AllocGlobal)) -> io::Result<Vec<String>> {
    let mut args = match env::args(rt) {
        Ok(args) => args,
        Err(error) if error.kind() == io::ErrorKind::InvalidData => {
            return Ok(Vec::new(rt.alloc()));
        }
        Err(error) => return Err(error),
    };
    let mut words = Vec::new(rt.alloc());
    let _program = args.next();
    for word in args {
        words.push(word)?;
    }
    Ok(words)
}

/// Ends a run whose words found no memory: puts its line.
fn no_memory<W: Sink>(out: &mut W) -> Status
    ensures only { (result ≡ Status.NoMemory) ⊎ (result ≡ Status.WriteFault) }
    ensures put { result ≡ Status.NoMemory → Puts (W.state out.old) (W.state out.new) no_memory_line }
    ensures fault { result ≡ Status.WriteFault → Rose (W.state out.old).faults (W.state out.new).faults × PutsPrefix (W.state out.old) (W.state out.new) no_memory_line }
    ensures quiet { result ≡ Status.NoMemory → (W.state out.new).faults ≡ (W.state out.old).faults }
{
    match put_whole(out, b"no memory\n") {
        Ok(()) => Status::NoMemory,
        Err(WriteFault) => Status::WriteFault,
    }
}

fn main(rt: HostRuntime) -> ExitCode {
    let mut shelf = OsShelf::new(&rt);
    let mut out = OsSink::new(&rt);
    let status = match words(&rt) {
        Ok(words) => run(rt.alloc(), words.as_slice(), &mut shelf, &mut out),
        Err(_) => no_memory(&mut out),
    };
    ExitCode::from(status.code())
}
