// The passes over a block.
ghost use Rattle.std.specs.Prelude.{◌≡◌, true, ℕ, ◌≤◌, ◌<◌, length, get_or};
ghost use Rattle.std.specs.Float.{nan};
ghost use Rattle.blocks.proofs.Block.{Tabled};
ghost use Rattle.det.specs.Exp.{exp64};
ghost use Rattle.det.specs.Single.{tanhf_of};
ghost use Rattle.tanh_block.specs.Inner.{Inner, twice, tangent_of};

use crate::element::{exp_one, outside_f32, tangent_one};

fn outsiders(x: &[f32; 384], n: usize) -> u64
    requires { n ≤ 384 }
    ensures { result ≡ 0 → (k : ℕ) → k < n → Inner (get_or x.now k nan) }
{
    let mut bad = 0u64;
    for i in 0..n {
        bad += outside_f32(x[i]);
    }
    bad
}

fn exps(x: &[f32; 384], n: usize, e: &mut [f64; 384])
    requires n_bound { (n ≤ 384) × (length e.old ≡ 384) }
    requires by_index { (k : ℕ) → k < n → Inner (get_or x.now k nan) }
    ensures e_len { length e.new ≡ 384 }
    ensures tabled { Tabled (λ k. exp64 (twice (get_or x.now k nan))) nan 0 n e.new }
{
    for i in 0..n {
        e[i] = exp_one(x[i]);
    }
}

fn tangents(x: &[f32; 384], e: &[f64; 384], n: usize, out: &mut [f64; 384])
    requires n_bound { (n ≤ 384) × (length out.old ≡ 384) }
    requires by_index { (k : ℕ) → k < n → Inner (get_or x.now k nan) }
    ensures out_len { length out.new ≡ 384 }
    ensures tabled { Tabled (λ k. tangent_of (get_or x.now k nan) (get_or e.now k nan)) nan 0 n out.new }
{
    for i in 0..n {
        out[i] = tangent_one(x[i], e[i]);
    }
}

fn each(x: &[f32; 384], n: usize, out: &mut [f32; 384])
    requires { (n ≤ 384) × (length out.old ≡ 384) }
    ensures out_len { length out.new ≡ 384 }
    ensures tabled { Tabled (λ k. tanhf_of (get_or x.now k nan)) nan 0 n out.new }
{
    for i in 0..n {
        out[i] = det::tanhf(x[i]);
    }
}

// Whether the passes cover all the first n.
fn covered(
    x: &[f32; 384],
    n: usize,
    e: &mut [f64; 384],
    wide: &mut [f64; 384],
    out: &mut [f32; 384],
) -> bool
    requires { (n ≤ 384) × (length e.old ≡ 384) × (length wide.old ≡ 384) × (length out.old ≡ 384) }
    ensures e_len { (length e.new ≡ 384) × (length wide.new ≡ 384) × (length out.new ≡ 384) }
    ensures tabled { result ≡ true → Tabled (λ k. tanhf_of (get_or x.now k nan)) nan 0 n out.new }
{
    if outsiders(x, n) != 0 {
        return false;
    }
    exps(x, n, e);
    tangents(x, e, n, wide);
    sin_block::narrowed(wide, n, out) == 0
}

// The tangents of the first n of x. `e` and `wide` are lent for what lies between.
pub fn tanhf_block(
    x: &[f32; 384],
    n: usize,
    e: &mut [f64; 384],
    wide: &mut [f64; 384],
    out: &mut [f32; 384],
)
    requires { (n ≤ 384) × (length e.old ≡ 384) × (length wide.old ≡ 384) × (length out.old ≡ 384) }
    ensures e_len { (length e.new ≡ 384) × (length wide.new ≡ 384) × (length out.new ≡ 384) }
    ensures tabled { Tabled (λ k. tanhf_of (get_or x.now k nan)) nan 0 n out.new }
{
    if !covered(x, n, e, wide, out) {
        each(x, n, out);
    }
}
