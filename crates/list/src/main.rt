// Lists the spool on standard input: `listing` makes the text, and this program reads and writes.
// It reads one byte more than is listed, so that a file that is too long is seen to be. Where it cannot
// read or write, it says so on standard error; its status is 0 all the same.
#![tactic(auto)]

ghost use Rattle.std.specs.Prelude.{◌≤◌, length, IfOk};

use listing::{INPUT_LIMIT, LISTING_ROOM, write_whole_listing};
use std::io;
use std::io::{Read, Write};

// Reads to the end of the input, or until the buffer is full: how many bytes there are. It is a `while`, because no read
// of the library says how far it came in a lent buffer when the input ends.
fn read_input<R: Read>(source: &mut R, file: &mut [u8]) -> io::Result<usize>
    ensures { IfOk result (λ n. n ≤ length file.new) }
{
    let mut end = 0;
    while end < file.len() {
        match source.read(&mut file[end..])? {
            0 => break,
            more => end += more,
        }
    }
    Ok(end)
}

// Says on standard error why nothing is listed. Where that cannot be written either, there is nobody to tell.
fn complain(rt: &impl Eprint, what: &str) {
    let _ = eprintln!(rt; "list: {what}");
}

fn main(rt: HostRuntime) {
    let mut file = [0u8; INPUT_LIMIT + 1];
    let Ok(end) = read_input(&mut rt.stdin(), &mut file) else {
        complain(&rt, "standard input cannot be read");
        return;
    };
    let mut text = [0u8; LISTING_ROOM];
    let text_end = write_whole_listing(&file[..end], &mut text);
    if rt.stdout().write_all(&text[..text_end]).is_err() {
        complain(&rt, "standard output cannot be written");
    }
}
