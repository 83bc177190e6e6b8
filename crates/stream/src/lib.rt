// Standard input and standard output, and what went through them. The contracts of the library say how many bytes a
// call moves, and not which. That the bytes which a read puts into the array are what was read, and those that a write
// takes what was written, is said here, of `took` after `call_read` and of `gave` after `call_write`; all else that is
// promised of what was read and written is proved from it (specs/Trace.antt).
//
// A call that is interrupted, or that would have to wait, is made again. A `Stream` tells whether a call failed for
// another reason, and why. It is lent to each call, and has changed when the call comes back: a copy that was made
// before is used no more. Nothing is buffered: what a write took is out.
#![tactic(auto)]

ghost use Rattle.std.specs.Prelude.{◌≡◌, ◌<◌, ◌≤◌, true, length, take};
ghost use Rattle.std.specs.Io.{ReadsAtMost, WritesAtMost};
ghost use Rattle.stream.specs.Definition.{Opened, Stands, Still, Took, Gave, Marks, Reads, Lost, Writes, IsPrefixLen};

use std::io;
use std::io::{ErrorKind, Read, Stdin, Stdout, Write};
use std::thread::yield_now;

// How often a call is made again: a number that no run uses up.
const TRIES: u64 = u64::MAX;

// The streams of a program.
#[derive(Clone, Copy)]
pub struct Stream {
    // how many bytes were read, and how many were written, modulo 2^64
    taken: u64,
    given: u64,
    // the end of the input was met; a flag, as is the next, since `Marks` says of each what a call leaves of it
    ended: bool,
    // a read failed
    unread: bool,
    // a write failed
    unwritten: bool,
    // what the system said of the last call that failed
    why: Option<io::Error>,
}

// Whether a call that failed may be made again: a signal interrupted it, or it would have to wait.
fn passes(kind: ErrorKind) -> bool {
    matches!(kind, ErrorKind::Interrupted | ErrorKind::WouldBlock)
}

// Whether a call that gave the answer `moved` is made again. Others may run before it is.
fn again(moved: io::Result<usize>, tries: u64) -> bool
    ensures { result ≡ true → 0 < tries }
{
    let Err(error) = moved else {
        return false;
    };
    if tries == 0 || !passes(error.kind()) {
        return false;
    }
    yield_now();
    true
}

// Reads once. Here and in `call_write`, the tries are counted by hand and not by a `for`: the must-fail edit `again`, a
// call made again where no try is left, is refused by the promise of `again`.
fn call_read(mut input: Stdin, buf: &mut [u8]) -> io::Result<usize>
    ensures { ReadsAtMost result buf.new }
{
    let mut tries = TRIES;
    let mut moved = input.read(buf);
    while again(moved, tries) {
        tries -= 1;
        moved = input.read(buf);
    }
    moved
}

// Writes once. No function serves both: it would take the call as a closure that holds the array, and its promise of
// what the array holds would be longer than this loop.
fn call_write(mut output: Stdout, buf: &[u8]) -> io::Result<usize>
    ensures { WritesAtMost result buf.now }
{
    let mut tries = TRIES;
    let mut moved = output.write(buf);
    while again(moved, tries) {
        tries -= 1;
        moved = output.write(buf);
    }
    moved
}

impl Stream {
    // The streams as a program finds them.
    pub fn open() -> Stream
        ensures { Opened result }
    {
        Stream {
            taken: 0,
            given: 0,
            ended: false,
            unread: false,
            unwritten: false,
            why: None,
        }
    }

    // Whether a read failed.
    pub fn is_unread(&self) -> bool
        ensures { result ≡ self.now.unread }
    {
        self.unread
    }

    // Whether a write failed.
    pub fn is_unwritten(&self) -> bool
        ensures { result ≡ self.now.unwritten }
    {
        self.unwritten
    }

    // What the system said of the last call that failed, if one did.
    pub fn reason(&self) -> Option<io::Error>
        ensures { result ≡ self.now.why }
    {
        self.why
    }

    // The bytes were read.
    fn took(&mut self, bytes: &[u8])
        ensures { Took self.old bytes.now self.new }
    {
        self.taken = self.taken.wrapping_add(bytes.len() as u64);
    }

    // The bytes were written.
    fn gave(&mut self, bytes: &[u8])
        ensures { Gave self.old bytes.now self.new }
    {
        self.given = self.given.wrapping_add(bytes.len() as u64);
    }

    // Keeps what the system said, if a call failed that gave the answer `moved`.
    fn told(&mut self, moved: io::Result<usize>)
        ensures stands { Stands self.old self.new }
        ensures still { Still self.old self.new }
    {
        if let Err(error) = moved {
            self.why = Some(error);
        }
    }

    // Marks a read of `size` bytes, where one was wanted at least.
    fn after(&mut self, size: usize, failed: bool)
        ensures { Marks 1 self.old size self.new × Still self.old self.new }
    {
        if size == 0 {
            if failed {
                self.unread = true;
            } else {
                self.ended = true;
            }
        }
    }

    // Marks a write that took nothing.
    fn lost(&mut self)
        ensures { Lost self.old self.new }
    {
        self.unwritten = true;
    }

    // Reads at least one byte, unless the input ends or the read fails, and hands back how many. The array is not
    // empty.
    fn read(&mut self, input: Stdin, buf: &mut [u8]) -> usize
        ensures reads { Reads 1 self.old buf.new result self.new }
        ensures within { result ≤ length buf.new }
    {
        let moved = call_read(input, buf);
        let size = moved.unwrap_or(0);
        self.told(moved);
        self.took(&buf[..size]);
        self.after(size, moved.is_err());
        size
    }

    // Writes some of the bytes, or none if the write fails, and hands back how many.
    #[tactic(auto, using(crate::specs::Laws::told_gave))]
    fn write(&mut self, output: Stdout, buf: &[u8]) -> usize
        ensures gave { Gave self.old (take result buf.now) self.new }
        ensures within { result ≤ length buf.now }
    {
        let moved = call_write(output, buf);
        let size = moved.unwrap_or(0);
        self.told(moved);
        self.gave(&buf[..size]);
        size
    }

    // Reads until the array is full, the input ends or a read fails, and hands back how many bytes were read. What the
    // array holds past them is left open. The library's `read_exact` does not tell how many came where too few did.
    pub fn fill(&mut self, input: Stdin, buf: &mut [u8]) -> usize
        ensures reads { Reads (length buf.new) self.old buf.new result self.new }
        ensures counts { IsPrefixLen result buf.new }
    {
        let mut at = 0;
        while at < buf.len() {
            let got = self.read(input, &mut buf[at..]);
            if got == 0 {
                return at;
            }
            at += got;
        }
        at
    }

    // Writes all of the bytes, unless a write fails. The library's `write_all` does not tell how many went before.
    pub fn write_all(&mut self, output: Stdout, buf: &[u8])
        ensures { Writes self.old buf.now self.new }
    {
        let mut at = 0;
        while at < buf.len() {
            let sent = self.write(output, &buf[at..]);
            if sent == 0 {
                self.lost();
                return;
            }
            at += sent;
        }
    }
}
