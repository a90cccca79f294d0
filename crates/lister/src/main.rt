// Lists standard input, the bytes of blocks, on standard output: a line a record. What fails is told on standard error.
#![tactic(auto)]

ghost use Rattle.std.specs.Prelude.{◌≤◌, length, IfOk};

use listing::LONGEST;
use std::fmt::InlineText;
use std::io;
use std::io::Read;

// Reads until the buffer is full or the input ends; how many bytes they are.
fn read_all(from: &mut impl Read, input: &mut [u8]) -> io::Result<usize>
    ensures { IfOk result (λ count. count ≤ length input.new) }
{
    let mut done: usize = 0;
    // No step of a `for`: each is as long as what was read.
    while done < input.len() {
        match from.read(&mut input[done..])? {
            0 => break,
            more => done += more,
        }
    }
    Ok(done)
}

// An error's text without its number, which stands behind it.
fn words(text: &str) -> &str {
    match text.rsplit_once(" (os error ") {
        Some((words, _)) => words,
        None => text,
    }
}

// Says what failed, and why in the system's words, which are short.
fn fail(rt: &impl Eprint, what: &str, error: io::Error) -> io::Result<()> {
    let text = InlineText::<256>::of(error);
    let why = words(text.as_str());
    eprintln!(rt; "lister: {what}: {why}")
}

// Writes the text of the bytes. The buffer has room for the longest.
fn print(rt: &(impl Print + Eprint), bytes: &[u8]) -> io::Result<()> {
    let mut text = [0u8; 376854];
    let length = listing::list(bytes, &mut text).unwrap();
    rt.write_all(&text[..length])
        .or_else(|error| fail(rt, "the text could not be written", error))
}

// One byte more than an input may have is read, and no more.
fn main(rt: HostRuntime) -> io::Result<()> {
    let mut input = [0u8; 65537];
    match read_all(&mut rt.stdin(), &mut input) {
        Ok(count) => {
            print(&rt, &input[..count])?;
            if LONGEST < count {
                eprintln!(rt;
                    "lister: more than 65536 bytes: `./list --long FILE` lists longer files"
                )?;
            }
            Ok(())
        }
        Err(error) => fail(&rt, "the input could not be read", error),
    }
}
