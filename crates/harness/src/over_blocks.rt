// The kernels over a block, as voices and drums call them. A block holds 384 values, of the exponential 64. Each answers how many
// values were done: the first ones of x, as many as a block holds and out has room for.
ghost use Rattle.std.specs.Prelude.{◌≡◌, ◌++◌, ◌≤◌, min, length, take, drop};
ghost use Rattle.trig.specs.Single.{sinf_of};
ghost use Rattle.det.specs.Single.{expf_of, tanhf_of};
ghost use Rattle.harness.specs.Block.{fitting, through};

fn least(a: usize, b: usize) -> usize
    ensures { result ≡ min a b }
{
    if a < b { a } else { b }
}

fn fit(most: usize, x: &[f32], out: &[f32]) -> usize
    ensures { result ≡ fitting most x.now out.now }
{
    least(most, least(x.len(), out.len()))
}

fn copy(from: &[f32], n: usize, to: &mut [f32])
    requires { (n ≤ length from.now) × (n ≤ length to.old) }
    ensures { to.new ≡ take n from.now ++ drop n to.old }
{
    for i in 0..n {
        to[i] = from[i];
    }
}

#[unsafe(no_mangle)]
pub extern "C" fn h_sinf_block(x: &[f32], out: &mut [f32]) -> usize
    ensures { (result ≡ fitting 384 x.now out.old) × (out.new ≡ through sinf_of result x.now out.old) }
{
    let mut z = [0.0f32; 384];
    let mut near = [0.0f64; 384];
    let mut q = [0.0f64; 384];
    let mut wide = [0.0f64; 384];
    let mut s = [0.0f32; 384];
    let n = fit(384, x, out);
    copy(x, n, &mut z);
    sin_block::sinf_block(&z, n, &mut near, &mut q, &mut wide, &mut s);
    copy(&s, n, out);
    n
}

#[unsafe(no_mangle)]
pub extern "C" fn h_tanhf_block(x: &[f32], out: &mut [f32]) -> usize
    ensures { (result ≡ fitting 384 x.now out.old) × (out.new ≡ through tanhf_of result x.now out.old) }
{
    let mut z = [0.0f32; 384];
    let mut e = [0.0f64; 384];
    let mut wide = [0.0f64; 384];
    let mut t = [0.0f32; 384];
    let n = fit(384, x, out);
    copy(x, n, &mut z);
    tanh_block::tanhf_block(&z, n, &mut e, &mut wide, &mut t);
    copy(&t, n, out);
    n
}

// A short block is filled up with a decay, so that its own values say which way it goes.
#[unsafe(no_mangle)]
pub extern "C" fn h_expf_block(x: &[f32], out: &mut [f32]) -> usize
    ensures { (result ≡ fitting 64 x.now out.old) × (out.new ≡ through expf_of result x.now out.old) }
{
    let mut z = [-1.0f32; 64];
    let mut e = [0.0f32; 64];
    let n = fit(64, x, out);
    copy(x, n, &mut z);
    exp_block::expf_block(&z, &mut e);
    copy(&e, n, out);
    n
}

// One value: without a test of what comes out where it is a decay.
#[unsafe(no_mangle)]
pub extern "C" fn h_expf_falling(x: f32) -> f32
    ensures { result ≡ expf_of x }
{
    exp_fall::expf(x)
}
