// Standard output, written in large blocks: lines wait in a block until the next might not fit.
ghost use Rattle.std.specs.Prelude.{◌≤◌};

use output::line::LONGEST;
use painter::answer::Given;
use painter::print;
use std::io;
use std::io::{Print, Stdout};
use style::check::LineRefusal;

const BLOCK: usize = 131072;

// Standard output, how writing to it went, and the lines that wait at the front of a block. Nothing is
// written behind what failed.
#[derive(Drop)]
pub(crate) struct Writer {
    stdout: Stdout,
    done: io::Result<()>,
    block: [u8; BLOCK],
    waiting: usize,
    ghost inside: { waiting ≤ 131072 },
}

impl Writer {
    pub(crate) fn new(stdout: Stdout) -> Writer {
        Writer {
            stdout,
            done: Ok(()),
            block: [0; BLOCK],
            waiting: 0,
        }
    }

    // How writing went.
    pub(crate) fn done(self) -> io::Result<()> {
        self.done
    }

    pub(crate) fn has_failed(&self) -> bool {
        self.done.is_err()
    }

    // Writes a text at once, when no lines wait.
    pub(crate) fn text(&mut self, bytes: &[u8]) {
        if !self.has_failed() {
            self.done = self.stdout.write_all(bytes);
        }
    }

    // Writes the lines that wait.
    pub(crate) fn flush(&mut self) {
        if !self.has_failed() {
            self.done = self.stdout.write_all(&self.block[..self.waiting]);
        }
        self.waiting = 0;
    }

    // A feature's line waits behind the others. If it might not fit there, they are written first.
    pub(crate) fn line(&mut self, drawn: Result<Given, LineRefusal>, number: usize) {
        if BLOCK - self.waiting < LONGEST {
            self.flush();
        }
        self.waiting += print::line(drawn, number, &mut self.block[self.waiting..]);
    }
}
