// The quarter tones from C.
ghost use Rattle.std.specs.Prelude.{◌≡◌};
ghost use Rattle.quarter_tone.specs.Lookup.{tone_bits};

// The bits of entry q, 0 above 255.
#[unsafe(no_mangle)]
pub extern "C" fn h_quarter(q: u32) -> u32
    ensures { result ≡ tone_bits q }
{
    quarter_tone::quarter_tone_bits(q)
}
