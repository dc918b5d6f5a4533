// How far a lowpass opens in each frame of a block.
#![tactic(auto)]

ghost use Rattle.std.specs.Prelude.{◌≡◌, length, get_or};
ghost use Rattle.std.specs.Float.{nan};
ghost use Rattle.blocks.proofs.Block.{Tabled};
ghost use Rattle.opening_block.specs.Opened.{rest_of, opened_by};

fn rest(e: f32) -> f32
    ensures { result ≡ rest_of e }
{
    1.0 - e
}

// By the arguments x of the exponentials.
pub fn openings(x: &[f32; 64], a: &mut [f32; 64])
    requires { length a.old ≡ 64 }
    ensures { (length a.new ≡ 64) × Tabled (λ k. opened_by (get_or x.now k nan)) nan 0 64 a.new }
{
    let mut e = [0.0f32; 64];
    exp_block::expf_block(x, &mut e);
    frame_block::table(0, 64, a, |i| rest(e[i]));
}
