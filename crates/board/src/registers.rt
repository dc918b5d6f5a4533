// The board: control, underrun and low-water mark, and the queue. Status and fill are read off
// these.
ghost use Rattle.std.specs.Prelude.{◌≡◌, cond, ◌≤◌};
ghost use Rattle.board.specs.Registers.{registers, opened, digit, low, full, status_of, byte_at, interrupt_of};
ghost use Rattle.board.specs.Write.{stored, sampled, write_of, written};
ghost use Rattle.board.specs.Tick.{Ticks};

use crate::answer::WriteRefusal;
use crate::queue::Queue;
use crate::shape::{byte_for, covered, is_permitted, is_sample, sample_of};

#[derive(Clone, Copy)]
pub struct Board {
    queue: Queue,
    run: bool,
    enable: bool,
    underrun: bool,
    mark: u8,
}

// The board after a write, and what the write came to.
#[derive(Clone, Copy)]
pub struct Write {
    pub board: Board,
    pub outcome: Result<(), WriteRefusal>,
}

// The board after a tick, and the sample that it played.
#[derive(Clone, Copy)]
pub struct Tick {
    pub board: Board,
    pub sample: u32,
}

fn wide(byte: u8) -> usize
    ensures { result ≡ byte }
{
    byte as usize
}

fn digit(on: bool) -> u8
    ensures value { result ≡ digit on }
    ensures upper_bound { result ≤ 1 }
{
    if on { 1 } else { 0 }
}

fn pick<T: Copy + Drop>(first: bool, a: T, b: T) -> T
    ensures { result ≡ cond first a b }
{
    if first { a } else { b }
}

impl Board {
    pub fn new() -> Board
        ensures { registers result ≡ opened }
    {
        let queue = Queue::new();
        Board {
            queue,
            run: false,
            enable: false,
            underrun: false,
            mark: 0,
        }
    }

    fn is_low(self) -> bool
        ensures { result ≡ low (registers self) }
    {
        let queue = self.queue;
        queue.fill() < wide(self.mark)
    }

    fn is_full(self) -> bool
        ensures { result ≡ full (registers self) }
    {
        let queue = self.queue;
        queue.fill() == 64
    }

    fn status(self) -> u8
        ensures { result ≡ status_of (registers self) }
    {
        digit(self.is_low()) + 2 * digit(self.underrun) + 4 * digit(self.is_full())
    }

    pub fn read(self, place: u32) -> u8
        ensures { result ≡ byte_at (registers self) place }
    {
        if place == 0 {
            return digit(self.run) + 2 * digit(self.enable);
        }
        if place == 1 {
            return self.status();
        }
        if place == 2 {
            return self.mark;
        }
        if place == 3 {
            let queue = self.queue;
            return queue.fill() as u8;
        }
        0
    }

    // With the bytes of a permitted write in the registers that it covers.
    fn stored(self, place: u32, bytes: &[u8]) -> Board
        ensures { registers result ≡ stored (registers self) place bytes.now }
    {
        let control = byte_for(place, bytes, 0);
        let status = byte_for(place, bytes, 1);
        let to_control = covered(place, bytes, 0);
        let to_mark = covered(place, bytes, 2);
        let queue = self.queue;
        Board {
            queue,
            run: pick(to_control, control % 2 == 1, self.run),
            enable: pick(to_control, control / 2 % 2 == 1, self.enable),
            underrun: pick(status / 2 % 2 == 1, false, self.underrun),
            mark: pick(to_mark, byte_for(place, bytes, 2), self.mark),
        }
    }

    fn queued(self, sample: u32) -> Write
        ensures { written result ≡ sampled (registers self) sample }
    {
        if self.is_full() {
            return Write {
                board: self,
                outcome: Err(WriteRefusal::QueueFull),
            };
        }
        let queue = self.queue;
        let longer = queue.put(sample);
        let board = Board {
            queue: longer,
            run: self.run,
            enable: self.enable,
            underrun: self.underrun,
            mark: self.mark,
        };
        Write {
            board,
            outcome: Ok(()),
        }
    }

    // Takes the write whole or, where it is refused, leaves the board as it was.
    pub fn write(self, place: u32, bytes: &[u8]) -> Write
        ensures { written result ≡ write_of (registers self) place bytes.now }
    {
        if is_sample(place, bytes) {
            return self.queued(sample_of(bytes));
        }
        if is_permitted(place, bytes) {
            let board = self.stored(place, bytes);
            return Write {
                board,
                outcome: Ok(()),
            };
        }
        Write {
            board: self,
            outcome: Err(WriteRefusal::Invalid),
        }
    }

    // One sample time: what the converter plays, as f32 bits.
    pub fn tick(mut self) -> Tick
        ensures { Ticks self result }
    {
        if !self.run {
            return Tick {
                board: self,
                sample: 0,
            };
        }
        let queue = self.queue;
        if queue.fill() == 0 {
            self.underrun = true;
            return Tick {
                board: self,
                sample: 0,
            };
        }
        let taken = queue.take();
        let rest = taken.queue;
        self.queue = rest;
        Tick {
            board: self,
            sample: taken.sample,
        }
    }

    pub fn interrupt(self) -> bool
        ensures { result ≡ interrupt_of (registers self) }
    {
        if self.enable {
            return self.status() % 4 != 0;
        }
        false
    }
}
