// Standard input, read in large blocks.
ghost use Rattle.std.specs.Prelude.{◌≡◌, ◌≤◌, ◌-◌, length};

use std::io;
use std::io::{Read, Stdin};

// Standard input, and how reading it went. A read that fails is taken for its end.
#[derive(Drop)]
pub(crate) struct Input {
    pub stdin: Stdin,
    pub done: io::Result<()>,
}

impl Input {
    fn read(&mut self, room: &mut [u8]) -> usize
        ensures { result ≤ length room.old }
    {
        match self.stdin.read(room) {
            Ok(n) => n,
            Err(e) => {
                self.done = Err(e);
                0
            }
        }
    }

    // Reads behind the bytes that the room holds already, until it is full or the input ends. The loop counts
    // what each read gave, which no iterator does.
    pub(crate) fn fill(&mut self, room: &mut [u8], held: usize) -> usize
        requires { held ≤ length room.old }
        ensures { result ≤ length room.old }
    {
        let mut end = held;
        while end < room.len() {
            let more = self.read(&mut room[end..]);
            if more == 0 {
                break;
            }
            end += more;
        }
        end
    }
}

// Moves what a block has from a place on to its front, and gives how many bytes these are.
pub(crate) fn keep(block: &mut [u8], from: usize) -> usize
    requires { from ≤ length block.old }
    ensures { result ≡ length block.old - from }
{
    block.copy_within(from.., 0);
    block.len() - from
}
