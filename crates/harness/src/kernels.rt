// The kernels, their f32 wrappers and two functions of dsp over them, under C names.
ghost use Rattle.std.specs.Prelude.{◌≡◌};
ghost use Rattle.trig.specs.Trig.{sin64, cos64};
ghost use Rattle.det.specs.Exp.{exp64};
ghost use Rattle.det.specs.Ln.{ln64};
ghost use Rattle.det.specs.Pow.{powf64};
ghost use Rattle.det.specs.Tanh.{tanh64};
ghost use Rattle.trig.specs.Single.{sinf_of, cosf_of};
ghost use Rattle.det.specs.Single.{expf_of, lnf_of, powff_of, tanhf_of};
ghost use Rattle.dsp.specs.Kernels.{log2_of, hz_to_midi};

#[unsafe(no_mangle)]
pub extern "C" fn h_sin(x: f64) -> f64
    ensures { result ≡ sin64 x }
{
    trig::sin(x)
}

#[unsafe(no_mangle)]
pub extern "C" fn h_cos(x: f64) -> f64
    ensures { result ≡ cos64 x }
{
    trig::cos(x)
}

#[unsafe(no_mangle)]
pub extern "C" fn h_exp(x: f64) -> f64
    ensures { result ≡ exp64 x }
{
    det::exp(x)
}

#[unsafe(no_mangle)]
pub extern "C" fn h_ln(x: f64) -> f64
    ensures { result ≡ ln64 x }
{
    det::ln(x)
}

#[unsafe(no_mangle)]
pub extern "C" fn h_powf(x: f64, y: f64) -> f64
    ensures { result ≡ powf64 x y }
{
    det::powf(x, y)
}

#[unsafe(no_mangle)]
pub extern "C" fn h_tanh(x: f64) -> f64
    ensures { result ≡ tanh64 x }
{
    det::tanh(x)
}

#[unsafe(no_mangle)]
pub extern "C" fn h_sinf(x: f32) -> f32
    ensures { result ≡ sinf_of x }
{
    trig::sinf(x)
}

#[unsafe(no_mangle)]
pub extern "C" fn h_cosf(x: f32) -> f32
    ensures { result ≡ cosf_of x }
{
    trig::cosf(x)
}

#[unsafe(no_mangle)]
pub extern "C" fn h_expf(x: f32) -> f32
    ensures { result ≡ expf_of x }
{
    det::expf(x)
}

#[unsafe(no_mangle)]
pub extern "C" fn h_lnf(x: f32) -> f32
    ensures { result ≡ lnf_of x }
{
    det::lnf(x)
}

#[unsafe(no_mangle)]
pub extern "C" fn h_powff(x: f32, y: f32) -> f32
    ensures { result ≡ powff_of x y }
{
    det::powff(x, y)
}

#[unsafe(no_mangle)]
pub extern "C" fn h_tanhf(x: f32) -> f32
    ensures { result ≡ tanhf_of x }
{
    det::tanhf(x)
}

#[unsafe(no_mangle)]
pub extern "C" fn h_log2(x: f32) -> f32
    ensures { result ≡ log2_of x }
{
    dsp::log2(x)
}

#[unsafe(no_mangle)]
pub extern "C" fn h_hz_to_midi(hz: f32) -> f32
    ensures { result ≡ hz_to_midi hz }
{
    dsp::hz_to_midi(hz)
}
