// A pitch, and its one reading: at a frame, and of a block of up to 64 frames.
ghost use Rattle.std.specs.Prelude.{◌≡◌, ◌+◌, ◌≤◌, length};
ghost use Rattle.std.specs.Float.{nan};
ghost use Rattle.blocks.proofs.Block.{Tabled};
ghost use Rattle.dsl.specs.Pitch.{is_curve, reading, pitch_at, passes, reaches};
ghost use Rattle.dsl.specs.Sized.{pitch_sized};

use crate::sized::is_sized;

// A number in hertz, or a curve that starts at an offset of a lane.
#[derive(Clone, Copy)]
pub enum Pitch {
    Const(f32),
    Curve(usize),
}

impl Pitch {
    pub fn is_curve(self) -> bool
        ensures { result ≡ is_curve self }
    {
        match self {
            Pitch::Const(_) => false,
            Pitch::Curve(_) => true,
        }
    }

    // Whether a number is sized; a curve's values are its lane's.
    pub fn is_sized(self) -> bool
        ensures { result ≡ pitch_sized self }
    {
        match self {
            Pitch::Const(x) => is_sized(x),
            Pitch::Curve(_) => true,
        }
    }

    // Whether a curve of n frames, with a value each `hop` of them, passes the end of a lane of `lane` values.
    pub fn passes(self, hop: u32, lane: usize, n: usize) -> bool
        requires le_hop { 1 ≤ hop }
        requires le_n { 1 ≤ n }
        ensures { result ≡ passes self hop lane n }
    {
        match self {
            Pitch::Const(_) => false,
            Pitch::Curve(offset) => {
                let last = (n - 1) / (hop as usize);
                if last >= lane {
                    return true;
                }
                offset >= lane - last
            }
        }
    }
}

// 2^40.
const SCALE: usize = 1099511627776;

// A pitch as voices read it: a curve has a value each `hop` frames. `inverse` is `SCALE` / hop, rounded up.
#[derive(Clone, Copy)]
pub struct Reading {
    pub pitch: Pitch,
    pub hop: u32,
    pub inverse: usize,
}

impl Reading {
    pub fn new(pitch: Pitch, hop: u32) -> Reading
        requires { 1 ≤ hop }
        ensures { result ≡ reading pitch hop }
    {
        let h = hop as usize;
        Reading {
            pitch,
            hop,
            inverse: (SCALE + (h - 1)) / h,
        }
    }

    // The pitch at frame i. A curve must reach past it: in a score call refusal 12 gives that, in a
    // note call refusal 14. The product divided by `SCALE`, a shift, is i / hop (the law `by_inverse`).
    pub fn at(self, lane: &[f32], i: usize) -> f32
        requires { reaches self (length lane.now) (i + 1) }
        ensures { result ≡ pitch_at self lane.now i }
    {
        let pitch = self.pitch;
        match pitch {
            Pitch::Const(x) => x,
            Pitch::Curve(offset) => lane[offset + i * self.inverse / SCALE],
        }
    }

    // The pitch at frame i at the hop 1: a curve's value i, with no product.
    fn each_at(self, lane: &[f32], i: usize) -> f32
        requires hop_value { self.hop ≡ 1 }
        requires reaches { reaches self (length lane.now) (i + 1) }
        ensures { result ≡ pitch_at self lane.now i }
    {
        let pitch = self.pitch;
        match pitch {
            Pitch::Const(x) => x,
            Pitch::Curve(offset) => lane[offset + i],
        }
    }

    // A block at the hop 1.
    fn block_each(self, lane: &[f32], from: usize, end: usize, f: &mut [f32; 64])
        requires hop_value { self.hop ≡ 1 }
        requires from_le_end { (from ≤ end) × (end ≤ from + 64) × (length f.old ≡ 64) }
        requires reaches { reaches self (length lane.now) end }
        ensures { (length f.new ≡ 64) × Tabled (pitch_at self lane.now) nan from end f.new }
    {
        for i in from..end {
            let x = self.each_at(lane, i);
            f[i - from] = x;
        }
    }

    // A block at any hop.
    fn block_any(self, lane: &[f32], from: usize, end: usize, f: &mut [f32; 64])
        requires from_le_end { (from ≤ end) × (end ≤ from + 64) × (length f.old ≡ 64) }
        requires reaches { reaches self (length lane.now) end }
        ensures { (length f.new ≡ 64) × Tabled (pitch_at self lane.now) nan from end f.new }
    {
        for i in from..end {
            let x = self.at(lane, i);
            f[i - from] = x;
        }
    }

    // The pitches of the frames from `from` on and before `end`, at most 64, each as `at` reads it.
    pub fn block(self, lane: &[f32], from: usize, end: usize, f: &mut [f32; 64])
        requires from_le_end { (from ≤ end) × (end ≤ from + 64) × (length f.old ≡ 64) }
        requires reaches { reaches self (length lane.now) end }
        ensures { (length f.new ≡ 64) × Tabled (pitch_at self lane.now) nan from end f.new }
    {
        if self.hop == 1 {
            self.block_each(lane, from, end, f);
        } else {
            self.block_any(lane, from, end, f);
        }
    }
}
