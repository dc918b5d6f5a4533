// The passes over a block.
ghost use Rattle.std.specs.Prelude.{◌≡◌, true, ℕ, ◌≤◌, ◌<◌, length, get_or};
ghost use Rattle.std.specs.Float.{nan};
ghost use Rattle.blocks.proofs.Block.{Tabled};
ghost use Rattle.ieee.specs.Narrow.{narrow_of};
ghost use Rattle.ieee.specs.Binary64.{◌⊟◌, ◌⊠◌};
ghost use Rattle.trig.specs.Trig.{FRAC·PI·2, reduce2pi, sin_reduced};
ghost use Rattle.trig.specs.Single.{sinf_of};
ghost use Rattle.sin_block.specs.Quarter.{sine_at};

use crate::element::{narrow_one, quarter_one, sine_one, turn_one};

fn turns(x: &[f32; 384], n: usize, near: &mut [f64; 384]) -> u64
    requires { (n ≤ 384) × (length near.old ≡ 384) }
    ensures near_len { length near.new ≡ 384 }
    ensures tabled { result ≡ 0 → Tabled (λ k. reduce2pi (get_or x.now k nan)) nan 0 n near.new }
{
    let mut bad = 0u64;
    for i in 0..n {
        let t = turn_one(x[i]);
        near[i] = t.value;
        bad += t.bad;
    }
    bad
}

fn quarters(near: &[f64; 384], n: usize, q: &mut [f64; 384]) -> u64
    requires { (n ≤ 384) × (length q.old ≡ 384) }
    ensures q_len { length q.new ≡ 384 }
    ensures nan_after { result ≡ 0 → (k : ℕ) → k < n
        → sine_at (get_or q.new k nan) (get_or near.now k nan ⊟ get_or q.new k nan ⊠ FRAC·PI·2) ≡ sin_reduced (get_or near.now k nan) }
{
    let mut bad = 0u64;
    for i in 0..n {
        let t = quarter_one(near[i]);
        q[i] = t.value;
        bad += t.bad;
    }
    bad
}

fn sines(near: &[f64; 384], q: &[f64; 384], n: usize, out: &mut [f64; 384])
    requires { (n ≤ 384) × (length out.old ≡ 384) }
    ensures out_len { length out.new ≡ 384 }
    ensures tabled { Tabled (λ k. sine_at (get_or q.now k nan) (get_or near.now k nan ⊟ get_or q.now k nan ⊠ FRAC·PI·2)) nan 0 n out.new }
{
    for i in 0..n {
        out[i] = sine_one(near[i], q[i]);
    }
}

pub fn narrowed(wide: &[f64; 384], n: usize, out: &mut [f32; 384]) -> u64
    requires { (n ≤ 384) × (length out.old ≡ 384) }
    ensures out_len { length out.new ≡ 384 }
    ensures tabled { result ≡ 0 → Tabled (λ k. narrow_of (get_or wide.now k nan)) nan 0 n out.new }
{
    let mut bad = 0u64;
    for i in 0..n {
        let t = narrow_one(wide[i]);
        out[i] = t.value;
        bad += t.bad;
    }
    bad
}

fn each(x: &[f32; 384], n: usize, out: &mut [f32; 384])
    requires { (n ≤ 384) × (length out.old ≡ 384) }
    ensures out_len { length out.new ≡ 384 }
    ensures tabled { Tabled (λ k. sinf_of (get_or x.now k nan)) nan 0 n out.new }
{
    for i in 0..n {
        out[i] = trig::sinf(x[i]);
    }
}

// Whether the passes cover all the first n.
fn covered(
    x: &[f32; 384],
    n: usize,
    near: &mut [f64; 384],
    q: &mut [f64; 384],
    wide: &mut [f64; 384],
    out: &mut [f32; 384],
) -> bool
    requires { (n ≤ 384) × (length near.old ≡ 384) × (length q.old ≡ 384) × (length wide.old ≡ 384) × (length out.old ≡ 384) }
    ensures near_len { (length near.new ≡ 384) × (length q.new ≡ 384) × (length wide.new ≡ 384) × (length out.new ≡ 384) }
    ensures tabled { result ≡ true → Tabled (λ k. sinf_of (get_or x.now k nan)) nan 0 n out.new }
{
    if turns(x, n, near) != 0 {
        return false;
    }
    if quarters(near, n, q) != 0 {
        return false;
    }
    sines(near, q, n, wide);
    narrowed(wide, n, out) == 0
}

// The sines of the first n of x. `near`, `q` and `wide` are lent for what lies between, so that no
// call clears them.
pub fn sinf_block(
    x: &[f32; 384],
    n: usize,
    near: &mut [f64; 384],
    q: &mut [f64; 384],
    wide: &mut [f64; 384],
    out: &mut [f32; 384],
)
    requires { (n ≤ 384) × (length near.old ≡ 384) × (length q.old ≡ 384) × (length wide.old ≡ 384) × (length out.old ≡ 384) }
    ensures near_len { (length near.new ≡ 384) × (length q.new ≡ 384) × (length wide.new ≡ 384) × (length out.new ≡ 384) }
    ensures tabled { Tabled (λ k. sinf_of (get_or x.now k nan)) nan 0 n out.new }
{
    if !covered(x, n, near, q, wide, out) {
        each(x, n, out);
    }
}
