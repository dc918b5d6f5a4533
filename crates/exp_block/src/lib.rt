// e^x of a block of arguments.
#![tactic(auto)]

ghost use Rattle.std.specs.Prelude.{◌≡◌, ℕ, ◌<◌, ◌≤◌, length, get_or};
ghost use Rattle.std.specs.Float.{nan};
ghost use Rattle.blocks.proofs.Block.{Tabled};
ghost use Rattle.det.specs.Single.{expf_of};
ghost use Rattle.exp_fall.specs.Falling.{Falling};

use select::not_below;

const INV_LN2: f64 = 1.44269504088896340735992468100189214; // LOG2_E, 3ff71547652b82fe

// 0 for the exponential of a decay, and for no other.
fn outside(x: f64) -> u64
    ensures { (result ≤ 3) × (result ≡ 0 → Falling x) × (Falling x → result ≡ 0) }
{
    let a = -(x * INV_LN2);
    not_below(-x, 80.0)
        + not_below(0.0, a)
        + not_below(a, ((a + 4503599627370496.0) - 4503599627370496.0) + 0.5)
}

fn outside_f32(x: f32) -> u64
    ensures { (result ≤ 3) × (result ≡ 0 → Falling x) × (Falling x → result ≡ 0) }
{
    outside(rounding::widen(x))
}

// Counted from the place `first` on.
fn outsiders(x: &[f32; 64], first: usize) -> u64
    requires { first ≤ 64 }
    ensures { result ≡ 0 → (k : ℕ) → first ≤ k → k < 64 → Falling (get_or x.now k nan) }
{
    let mut bad = 0u64;
    for i in first..64 {
        bad += outside_f32(x[i]);
    }
    bad
}

fn exp_one(x: f32) -> f32
    requires { Falling x }
    ensures { result ≡ expf_of x }
{
    exp_fall::expf_falling(x as f64)
}

// From the place `first` on.
fn exp_all(x: &[f32; 64], first: usize, out: &mut [f32; 64])
    requires first_bound { (first ≤ 64) × ((k : ℕ) → first ≤ k → k < 64 → Falling (get_or x.now k nan)) }
    requires out_len { (length out.old ≡ 64) × Tabled (λ k. expf_of (get_or x.now k nan)) nan 0 first out.old }
    ensures { (length out.new ≡ 64) × Tabled (λ k. expf_of (get_or x.now k nan)) nan 0 64 out.new }
{
    for i in first..64 {
        out[i] = exp_one(x[i]);
    }
}

// Where only the first argument is no decay: a note's first frame is at the time 0.
fn exp_but_first(x: &[f32; 64], out: &mut [f32; 64])
    requires by_index { (k : ℕ) → 1 ≤ k → k < 64 → Falling (get_or x.now k nan) }
    requires out_len { length out.old ≡ 64 }
    ensures { (length out.new ≡ 64) × Tabled (λ k. expf_of (get_or x.now k nan)) nan 0 64 out.new }
{
    out[0] = det::expf(x[0]);
    exp_all(x, 1, out);
}

fn exp_each(x: &[f32; 64], out: &mut [f32; 64])
    requires { length out.old ≡ 64 }
    ensures { (length out.new ≡ 64) × Tabled (λ k. expf_of (get_or x.now k nan)) nan 0 64 out.new }
{
    for i in 0..64 {
        out[i] = exp_fall::expf(x[i]);
    }
}

// Where all 64 are decays, or all but the first, without a branch.
pub fn expf_block(x: &[f32; 64], out: &mut [f32; 64])
    requires { length out.old ≡ 64 }
    ensures { (length out.new ≡ 64) × Tabled (λ k. expf_of (get_or x.now k nan)) nan 0 64 out.new }
{
    if outsiders(x, 0) == 0 {
        exp_all(x, 0, out);
    } else if outsiders(x, 1) == 0 {
        exp_but_first(x, out);
    } else {
        exp_each(x, out);
    }
}
