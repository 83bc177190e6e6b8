// Reads a card from standard input and prints its list: `blocks N`, a line for each block, and `card refused NUMBER`
// where the card is refused. `card::list::print` does so, and promises it. Where a read or a write fails, the list ends
// there, and standard error tells why.
#![tactic(auto)]

use std::io;
use stream::Stream;

// Tells what failed, and why.
fn fail(rt: HostRuntime, what: &str, x: &Stream) -> io::Result<()> {
    match x.reason() {
        Some(error) => eprintln!(rt; "{what}: {error}"),
        None => eprintln!(rt; "{what}"),
    }
}

fn main(rt: HostRuntime) -> io::Result<()> {
    let x = card::list::print(rt.stdin(), rt.stdout());
    if x.is_unread() {
        return fail(rt, "read_card: the card cannot be read", &x);
    }
    if x.is_unwritten() {
        return fail(rt, "read_card: the list cannot be written", &x);
    }
    Ok(())
}
