// The exponential of an f64, for hosts that call it directly.
ghost use Rattle.std.specs.Prelude.{◌≡◌};
ghost use Rattle.det.specs.Exp.{exp64};

// A NaN gives a NaN; above 709.782712893383 the answer is infinity, below -745.133219101941 it is 0,
// and in between it is finite.
#[unsafe(no_mangle)]
pub extern "C" fn tono_exp(x: f64) -> f64
    ensures { result ≡ exp64 x }
{
    tono::tono_exp(x)
}
