// The samples that wait, first in, first out: 64 places in a ring, so that neither end ever moves
// the samples between.
ghost use Rattle.std.specs.Prelude.{◌≡◌, [], ◌∷◌, ◌++◌, ◌+◌, ◌%◌, ◌<◌, length};
ghost use Rattle.board.specs.Queue.{waiting};

// `pub`, since a board that other crates hold has one within; they can do nothing with it.
#[derive(Clone, Copy)]
pub struct Queue {
    // Samples as f32 bit patterns, so that a NaN keeps its bits.
    places: [u32; 64],
    // The place of the oldest sample, modulo 64.
    oldest: usize,
    // How many wait. No call leaves more than 64; a larger number counts as 64.
    count: usize,
}

// The oldest sample, and the queue without it.
#[derive(Clone, Copy)]
pub(crate) struct Taken {
    pub(crate) queue: Queue,
    pub(crate) sample: u32,
}

impl Queue {
    pub(crate) fn new() -> Queue
        ensures { waiting result ≡ [] }
    {
        Queue {
            places: [0; 64],
            oldest: 0,
            count: 0,
        }
    }

    pub(crate) fn fill(self) -> usize
        ensures { result ≡ length (waiting self) }
    {
        if self.count < 64 { self.count } else { 64 }
    }

    // The place of the k-th sample that waits, the oldest being the 0th.
    fn place(self, k: usize) -> usize
        ensures { result ≡ (self.oldest + k) % 64 }
    {
        (self.oldest % 64 + k % 64) % 64
    }

    // With one sample more, behind those that wait.
    pub(crate) fn put(mut self, sample: u32) -> Queue
        requires { length (waiting self) < 64 }
        ensures { waiting result ≡ waiting self ++ (sample ∷ []) }
    {
        let fill = self.fill();
        let next = self.place(fill);
        self.places[next] = sample;
        self.count = fill + 1;
        self
    }

    pub(crate) fn take(mut self) -> Taken
        requires { 0 < length (waiting self) }
        ensures { waiting self ≡ result.sample ∷ waiting result.queue }
    {
        let fill = self.fill();
        let others = fill - 1;
        let first = self.place(0);
        let sample = self.places[first];
        self.oldest = self.place(1);
        self.count = others;
        Taken {
            queue: self,
            sample,
        }
    }
}
